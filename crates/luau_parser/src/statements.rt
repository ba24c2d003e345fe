//! Statements that begin with a reserved word.

ghost use Rattle.std.specs.Prelude.{◌+◌, ◌<◌, ◌-◌, ◌^◌, length, IfOk};
ghost use Rattle.syntax_tree.specs.Places.{Has, Lacks};
ghost use Rattle.syntax_tree.specs.declared.token.TokenKind.TheVariants as token;
ghost use Rattle.expression_parser.specs.Reading.{Nests};
ghost use Rattle.luau_parser.specs.Statements.{IsNoName, FindsStat, FindsArms, FindsGuarded, FindsOtherwise, FindsLimits, FindsCount, FindsWalk, FindsFunctionName, FindsMemberName, IsMethodName};

use crate::nodes::{boxed_stat, function_assigned, push_arm};
use crate::parts::{Arms, Count, FunctionName, Guarded, Limits, Otherwise, Statement, Walk};
use crate::rules::Rules;
use byte_text::StrId;
use expression_parser::{
    Fault, Found, Part, Wanted, bind, binds, boxed_at, expect, expect_name, func_at, within,
};
use parse_steps::{Opening, opening_at};
use sqlite_items::Items;
use std::alloc::{AllocError, Global};
use syntax_tree::{ExprKind, StatKind, Token};
use type_skip::{Word, stands};

/// The name of a method, which adds a parameter.
fn method_name(alloc: Global, method: Part) -> Result<FunctionName, AllocError>
    ensures { IfOk result (IsMethodName method) }
{
    let mut added = Items::new(alloc);
    added.push(StrId::SELF)?;
    Ok(FunctionName {
        expr: method.expr,
        added,
        nest: method.nest,
        end: method.end,
    })
}

impl<'a, F: Fn(Global, &[Token], usize, Wanted, usize) -> Result<Found, Fault>> Rules<'a, F> {
    /// A statement that is not the last of its block and does not begin with a name.
    pub(crate) fn statement(&self, at: usize) -> Result<Statement, Fault>
        requires nests { Nests self.now.grammar.room (F.pre self.now.grammar.nested) (F.post self.now.grammar.nested) }
        requires room { self.now.grammar.room < 2 ^ 32 }
        requires opens { IsNoName self.now.grammar.tokens.now at }
        ensures { FindsStat self.now.grammar.tokens.now self.now.grammar.room at result }
    {
        match opening_at(self.grammar.tokens, at) {
            Opening::Do => self.do_stat(at),
            Opening::While => self.while_stat(at),
            Opening::Repeat => self.repeat_stat(at),
            Opening::If => self.if_stat(at),
            Opening::For => self.for_stat(at),
            Opening::Function => self.function_stat(at),
            Opening::Local => {
                if stands(self.grammar.tokens, at + 1, Word::Function) {
                    self.local_function(at)
                } else {
                    self.local(at)
                }
            }
            Opening::Paren => self.paren_stat(at),
            Opening::Ends
            | Opening::Return
            | Opening::Break
            | Opening::Name(_)
            | Opening::Nothing => Err(Fault::Unexpected(at)),
        }
    }

    fn do_stat(&self, at: usize) -> Result<Statement, Fault>
        requires nests { Nests self.now.grammar.room (F.pre self.now.grammar.nested) (F.post self.now.grammar.nested) }
        requires room { self.now.grammar.room < 2 ^ 32 }
        requires opens { Has self.now.grammar.tokens.now at token.Do }
        ensures { FindsStat self.now.grammar.tokens.now self.now.grammar.room at result }
    {
        within(0, self.grammar.room, at)?;
        let block = self.grammar.inner_block(at + 1)?;
        let end = expect(self.grammar.tokens, block.end, Word::End)?;
        let nest = block.nest + 1;
        let stat = boxed_stat(
            self.grammar.alloc,
            self.grammar.tokens,
            at,
            StatKind::Do(block.stats),
        )?;
        Ok(Statement { stat, nest, end })
    }

    fn while_stat(&self, at: usize) -> Result<Statement, Fault>
        requires nests { Nests self.now.grammar.room (F.pre self.now.grammar.nested) (F.post self.now.grammar.nested) }
        requires room { self.now.grammar.room < 2 ^ 32 }
        requires opens { Has self.now.grammar.tokens.now at token.While }
        ensures { FindsStat self.now.grammar.tokens.now self.now.grammar.room at result }
    {
        within(0, self.grammar.room, at)?;
        let part = self.grammar.inner_expr(at + 1)?;
        let begin = expect(self.grammar.tokens, part.end, Word::Do)?;
        let block = self.grammar.inner_block(begin)?;
        let end = expect(self.grammar.tokens, block.end, Word::End)?;
        let nest = part.nest.max(block.nest) + 1;
        let cond = part.expr;
        let body = block.stats;
        let stat = boxed_stat(
            self.grammar.alloc,
            self.grammar.tokens,
            at,
            StatKind::While { cond, body },
        )?;
        Ok(Statement { stat, nest, end })
    }

    fn repeat_stat(&self, at: usize) -> Result<Statement, Fault>
        requires nests { Nests self.now.grammar.room (F.pre self.now.grammar.nested) (F.post self.now.grammar.nested) }
        requires room { self.now.grammar.room < 2 ^ 32 }
        requires opens { Has self.now.grammar.tokens.now at token.Repeat }
        ensures { FindsStat self.now.grammar.tokens.now self.now.grammar.room at result }
    {
        within(0, self.grammar.room, at)?;
        let block = self.grammar.inner_block(at + 1)?;
        let begin = expect(self.grammar.tokens, block.end, Word::Until)?;
        let part = self.grammar.inner_expr(begin)?;
        let nest = block.nest.max(part.nest) + 1;
        let end = part.end;
        let body = block.stats;
        let cond = part.expr;
        let stat = boxed_stat(
            self.grammar.alloc,
            self.grammar.tokens,
            at,
            StatKind::Repeat { body, cond },
        )?;
        Ok(Statement { stat, nest, end })
    }

    fn if_stat(&self, at: usize) -> Result<Statement, Fault>
        requires nests { Nests self.now.grammar.room (F.pre self.now.grammar.nested) (F.post self.now.grammar.nested) }
        requires room { self.now.grammar.room < 2 ^ 32 }
        requires opens { Has self.now.grammar.tokens.now at token.If }
        ensures { FindsStat self.now.grammar.tokens.now self.now.grammar.room at result }
    {
        within(0, self.grammar.room, at)?;
        let arms = self.arms(at + 1)?;
        let kind = StatKind::If {
            arms: arms.arms,
            other: arms.other,
        };
        let stat = boxed_stat(self.grammar.alloc, self.grammar.tokens, at, kind)?;
        Ok(Statement {
            stat,
            nest: arms.nest + 1,
            end: arms.end,
        })
    }

    /// The arms of an `if`, behind that word and up to its `end`.
    fn arms(&self, at: usize) -> Result<Arms, Fault>
        requires nests { Nests self.now.grammar.room (F.pre self.now.grammar.nested) (F.post self.now.grammar.nested) }
        requires room { 0 < self.now.grammar.room }
        requires small { self.now.grammar.room < 2 ^ 32 }
        ensures { FindsArms self.now.grammar.tokens.now (self.now.grammar.room - 1) at result }
    {
        let mut arms = Items::new(self.grammar.alloc);
        let mut nest: usize = 0;
        let mut begin = at;
        loop {
            let next = self.guarded(begin)?;
            nest = nest.max(next.nest);
            begin = next.end;
            push_arm(&mut arms, next.cond, next.body)?;
            if !stands(self.grammar.tokens, begin, Word::ElseIf) {
                let last = self.last_block(begin)?;
                return Ok(Arms {
                    arms,
                    other: last.other,
                    nest: nest.max(last.nest),
                    end: last.end,
                });
            }
            begin += 1;
        }
    }

    /// A condition and its block.
    fn guarded(&self, at: usize) -> Result<Guarded, Fault>
        requires nests { Nests self.now.grammar.room (F.pre self.now.grammar.nested) (F.post self.now.grammar.nested) }
        requires room { 0 < self.now.grammar.room }
        requires small { self.now.grammar.room < 2 ^ 32 }
        ensures { FindsGuarded self.now.grammar.tokens.now (self.now.grammar.room - 1) at result }
    {
        let part = self.grammar.inner_expr(at)?;
        let begin = expect(self.grammar.tokens, part.end, Word::Then)?;
        let block = self.grammar.inner_block(begin)?;
        Ok(Guarded {
            cond: part.expr,
            body: block.stats,
            nest: part.nest.max(block.nest),
            end: block.end,
        })
    }

    /// The end of an `if`, with the block behind its `else` if one stands there.
    fn last_block(&self, at: usize) -> Result<Otherwise, Fault>
        requires nests { Nests self.now.grammar.room (F.pre self.now.grammar.nested) (F.post self.now.grammar.nested) }
        requires room { 0 < self.now.grammar.room }
        requires small { self.now.grammar.room < 2 ^ 32 }
        requires no_arm { Lacks self.now.grammar.tokens.now at token.ElseIf }
        ensures { FindsOtherwise self.now.grammar.tokens.now (self.now.grammar.room - 1) at result }
    {
        if !stands(self.grammar.tokens, at, Word::Else) {
            let end = expect(self.grammar.tokens, at, Word::End)?;
            return Ok(Otherwise {
                other: None,
                nest: 0,
                end,
            });
        }
        let last = self.grammar.inner_block(at + 1)?;
        let end = expect(self.grammar.tokens, last.end, Word::End)?;
        Ok(Otherwise {
            other: Some(last.stats),
            nest: last.nest,
            end,
        })
    }

    fn for_stat(&self, at: usize) -> Result<Statement, Fault>
        requires nests { Nests self.now.grammar.room (F.pre self.now.grammar.nested) (F.post self.now.grammar.nested) }
        requires room { self.now.grammar.room < 2 ^ 32 }
        requires opens { Has self.now.grammar.tokens.now at token.For }
        ensures { FindsStat self.now.grammar.tokens.now self.now.grammar.room at result }
    {
        within(0, self.grammar.room, at)?;
        let first = bind(self.grammar.tokens, at + 1)?;
        if stands(self.grammar.tokens, first.end, Word::Equal) {
            let count = self.count(first.end + 1)?;
            let kind = StatKind::NumFor {
                name: first.name,
                start: count.start,
                limit: count.limit,
                step: count.step,
                body: count.body,
            };
            let stat = boxed_stat(self.grammar.alloc, self.grammar.tokens, at, kind)?;
            return Ok(Statement {
                stat,
                nest: count.nest + 1,
                end: count.end,
            });
        }
        let names = binds(self.grammar.alloc, self.grammar.tokens, at + 1, first)?;
        let begin = expect(self.grammar.tokens, names.end, Word::In)?;
        let walk = self.walk(begin)?;
        let kind = StatKind::GenFor {
            names: names.names,
            values: walk.values,
            body: walk.body,
        };
        let stat = boxed_stat(self.grammar.alloc, self.grammar.tokens, at, kind)?;
        Ok(Statement {
            stat,
            nest: walk.nest + 1,
            end: walk.end,
        })
    }

    /// A numeric `for`, behind its `=` and up to its `end`.
    fn count(&self, at: usize) -> Result<Count, Fault>
        requires nests { Nests self.now.grammar.room (F.pre self.now.grammar.nested) (F.post self.now.grammar.nested) }
        requires room { 0 < self.now.grammar.room }
        requires small { self.now.grammar.room < 2 ^ 32 }
        ensures { FindsCount self.now.grammar.tokens.now (self.now.grammar.room - 1) at result }
    {
        let limits = self.limits(at)?;
        let inside = expect(self.grammar.tokens, limits.end, Word::Do)?;
        let block = self.grammar.inner_block(inside)?;
        let end = expect(self.grammar.tokens, block.end, Word::End)?;
        Ok(Count {
            start: limits.start,
            limit: limits.limit,
            step: limits.step,
            body: block.stats,
            nest: limits.nest.max(block.nest),
            end,
        })
    }

    /// The numbers of a numeric `for`.
    fn limits(&self, at: usize) -> Result<Limits, Fault>
        requires nests { Nests self.now.grammar.room (F.pre self.now.grammar.nested) (F.post self.now.grammar.nested) }
        requires room { 0 < self.now.grammar.room }
        requires small { self.now.grammar.room < 2 ^ 32 }
        ensures { FindsLimits self.now.grammar.tokens.now (self.now.grammar.room - 1) at result }
    {
        let start = self.grammar.inner_expr(at)?;
        let begin = expect(self.grammar.tokens, start.end, Word::Comma)?;
        let limit = self.grammar.inner_expr(begin)?;
        let nest = start.nest.max(limit.nest);
        if !stands(self.grammar.tokens, limit.end, Word::Comma) {
            return Ok(Limits {
                start: start.expr,
                limit: limit.expr,
                step: None,
                nest,
                end: limit.end,
            });
        }
        let part = self.grammar.inner_expr(limit.end + 1)?;
        Ok(Limits {
            start: start.expr,
            limit: limit.expr,
            step: Some(part.expr),
            nest: nest.max(part.nest),
            end: part.end,
        })
    }

    /// A generic `for`, behind its `in` and up to its `end`.
    fn walk(&self, at: usize) -> Result<Walk, Fault>
        requires nests { Nests self.now.grammar.room (F.pre self.now.grammar.nested) (F.post self.now.grammar.nested) }
        requires room { 0 < self.now.grammar.room }
        requires small { self.now.grammar.room < 2 ^ 32 }
        ensures { FindsWalk self.now.grammar.tokens.now (self.now.grammar.room - 1) at result }
    {
        let values = self.grammar.inner_list(at)?;
        let inside = expect(self.grammar.tokens, values.end, Word::Do)?;
        let block = self.grammar.inner_block(inside)?;
        let end = expect(self.grammar.tokens, block.end, Word::End)?;
        Ok(Walk {
            values: values.list,
            body: block.stats,
            nest: values.nest.max(block.nest),
            end,
        })
    }

    /// The assignment of a function.
    fn function_stat(&self, at: usize) -> Result<Statement, Fault>
        requires nests { Nests self.now.grammar.room (F.pre self.now.grammar.nested) (F.post self.now.grammar.nested) }
        requires room { self.now.grammar.room < 2 ^ 32 }
        requires opens { Has self.now.grammar.tokens.now at token.Function }
        ensures { FindsStat self.now.grammar.tokens.now self.now.grammar.room at result }
    {
        within(0, self.grammar.room, at)?;
        let name = self.function_name(at + 1)?;
        let function = self.grammar.body(name.end, name.added)?;
        let nest = name.nest.max(function.nest + 1);
        let end = function.end;
        let stat = function_assigned(
            self.grammar.alloc,
            self.grammar.tokens,
            at,
            name.expr,
            function,
        )?;
        Ok(Statement { stat, nest, end })
    }

    /// The name of a function, and the parameter that the name of a method adds.
    fn function_name(&self, at: usize) -> Result<FunctionName, Fault>
        requires room { self.now.grammar.room < 2 ^ 32 }
        ensures { FindsFunctionName self.now.grammar.tokens.now self.now.grammar.room at result }
    {
        let first = expect_name(self.grammar.tokens, at)?;
        let expr = boxed_at(
            self.grammar.alloc,
            self.grammar.tokens,
            at,
            ExprKind::Name(first),
        )?;
        let mut part = Part {
            expr,
            nest: 0,
            end: at + 1,
        };
        while stands(self.grammar.tokens, part.end, Word::Dot) {
            part = self.member_name(at, part)?;
        }
        if stands(self.grammar.tokens, part.end, Word::Colon) {
            let method = self.member_name(at, part)?;
            return Ok(method_name(self.grammar.alloc, method)?);
        }
        Ok(FunctionName {
            expr: part.expr,
            added: Items::new(self.grammar.alloc),
            nest: part.nest,
            end: part.end,
        })
    }

    /// A further name, behind the `.` or the `:` that stands behind a part which begins at a place.
    fn member_name(&self, begin: usize, left: Part) -> Result<Part, Fault>
        requires room { self.now.grammar.room < 2 ^ 32 }
        requires there { left.end < length self.now.grammar.tokens.now }
        requires few { length self.now.grammar.tokens.now < 2 ^ 63 }
        ensures { FindsMemberName self.now.grammar.tokens.now self.now.grammar.room begin left result }
    {
        within(left.nest, self.grammar.room, left.end)?;
        let name = expect_name(self.grammar.tokens, left.end + 1)?;
        let nest = left.nest + 1;
        let end = left.end + 2;
        let kind = ExprKind::Member {
            table: left.expr,
            name,
        };
        let expr = boxed_at(self.grammar.alloc, self.grammar.tokens, begin, kind)?;
        Ok(Part { expr, nest, end })
    }

    fn local_function(&self, at: usize) -> Result<Statement, Fault>
        requires nests { Nests self.now.grammar.room (F.pre self.now.grammar.nested) (F.post self.now.grammar.nested) }
        requires room { self.now.grammar.room < 2 ^ 32 }
        requires opens { Has self.now.grammar.tokens.now at token.Local }
        requires word { Has self.now.grammar.tokens.now (at + 1) token.Function }
        ensures { FindsStat self.now.grammar.tokens.now self.now.grammar.room at result }
    {
        within(0, self.grammar.room, at + 1)?;
        let name = expect_name(self.grammar.tokens, at + 2)?;
        let function = self.grammar.body(at + 3, Items::new(self.grammar.alloc))?;
        let nest = function.nest + 1;
        let end = function.end;
        let func = func_at(self.grammar.tokens, at + 1, function);
        let stat = boxed_stat(
            self.grammar.alloc,
            self.grammar.tokens,
            at,
            StatKind::LocalFunction { name, func },
        )?;
        Ok(Statement { stat, nest, end })
    }

    fn local(&self, at: usize) -> Result<Statement, Fault>
        requires nests { Nests self.now.grammar.room (F.pre self.now.grammar.nested) (F.post self.now.grammar.nested) }
        requires room { self.now.grammar.room < 2 ^ 32 }
        requires opens { Has self.now.grammar.tokens.now at token.Local }
        requires no_function { Lacks self.now.grammar.tokens.now (at + 1) token.Function }
        ensures { FindsStat self.now.grammar.tokens.now self.now.grammar.room at result }
    {
        let first = bind(self.grammar.tokens, at + 1)?;
        let names = binds(self.grammar.alloc, self.grammar.tokens, at + 1, first)?;
        if !stands(self.grammar.tokens, names.end, Word::Equal) {
            let kind = StatKind::Local {
                names: names.names,
                values: Items::new(self.grammar.alloc),
            };
            let stat = boxed_stat(self.grammar.alloc, self.grammar.tokens, at, kind)?;
            return Ok(Statement {
                stat,
                nest: 0,
                end: names.end,
            });
        }
        let values = self.grammar.list(names.end + 1)?;
        let kind = StatKind::Local {
            names: names.names,
            values: values.list,
        };
        let stat = boxed_stat(self.grammar.alloc, self.grammar.tokens, at, kind)?;
        Ok(Statement {
            stat,
            nest: values.nest,
            end: values.end,
        })
    }
}
