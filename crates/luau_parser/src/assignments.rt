//! Calls and assignments.

ghost use Rattle.std.specs.Prelude.{◌≡◌, ◌<◌, ◌≤◌, ◌^◌, Some, None, length};
ghost use Rattle.syntax_tree.specs.Operators.{compound_operator};
ghost use Rattle.syntax_tree.specs.Places.{kind_at, Has};
ghost use Rattle.syntax_tree.specs.declared.token.TokenKind.TheVariants.{OpenParen};
ghost use Rattle.syntax_tree.specs.Grammar.{in_target};
ghost use Rattle.expression_parser.specs.Reading.{Nests, ending_of};
ghost use Rattle.luau_parser.specs.Statements.{IsPrefixRead, FindsStat, FindsPrefixStat, FindsTargets, FindsTarget, FindsTargetBegin};

use crate::nodes::{boxed_stat, call_stat};
use crate::parts::Statement;
use crate::rules::Rules;
use expression_parser::{Ending, Fault, Found, Part, Parts, Prefix, Wanted, named, push, within};
use parse_steps::{Level, Rank, compound_at, name_at};
use sqlite_items::Items;
use std::alloc::Global;
use syntax_tree::{BinOp, StatKind, Token};
use type_skip::{Word, stands};

impl<'a, F: Fn(Global, &[Token], usize, Wanted, usize) -> Result<Found, Fault>> Rules<'a, F> {
    /// A statement that begins with a parenthesis.
    pub(crate) fn paren_stat(&self, at: usize) -> Result<Statement, Fault>
        requires nests { Nests self.now.grammar.room (F.pre self.now.grammar.nested) (F.post self.now.grammar.nested) }
        requires room { self.now.grammar.room < 2 ^ 32 }
        requires opens { Has self.now.grammar.tokens.now at OpenParen }
        ensures { FindsStat self.now.grammar.tokens.now self.now.grammar.room at result }
    {
        within(0, self.grammar.room, at)?;
        let part = self.grammar.parenthesis(at)?;
        let ending = Ending::Paren;
        let Prefix { part, ending } = self.grammar.suffixes(at, Prefix { part, ending })?;
        self.prefix_stat(at, part, ending)
    }

    /// A call, or an assignment, behind its first prefix, which begins at a place.
    pub(crate) fn prefix_stat(
        &self,
        begin: usize,
        part: Part,
        ending: Ending,
    ) -> Result<Statement, Fault>
        requires nests { Nests self.now.grammar.room (F.pre self.now.grammar.nested) (F.post self.now.grammar.nested) }
        requires room { self.now.grammar.room < 2 ^ 32 }
        requires prefix { IsPrefixRead self.now.grammar.tokens.now self.now.grammar.room begin part (ending_of ending) }
        ensures { FindsPrefixStat self.now.grammar.tokens.now self.now.grammar.room begin part (ending_of ending) result }
    {
        match ending {
            Ending::Call => {
                let nest = part.nest;
                let end = part.end;
                let stat = call_stat(self.grammar.alloc, self.grammar.tokens, begin, part.expr)?;
                Ok(Statement { stat, nest, end })
            }
            Ending::Paren => Err(Fault::Unexpected(part.end)),
            Ending::Target => match compound_at(self.grammar.tokens, part.end) {
                Some(op) => self.compound(begin, part, op),
                None => self.assignment(begin, part),
            },
        }
    }

    /// A compound assignment.
    fn compound(&self, begin: usize, first: Part, op: BinOp) -> Result<Statement, Fault>
        requires nests { Nests self.now.grammar.room (F.pre self.now.grammar.nested) (F.post self.now.grammar.nested) }
        requires room { self.now.grammar.room < 2 ^ 32 }
        requires target { IsPrefixRead self.now.grammar.tokens.now self.now.grammar.room begin first in_target }
        requires operator { compound_operator (kind_at self.now.grammar.tokens.now first.end) ≡ Some op }
        requires there { first.end < length self.now.grammar.tokens.now }
        requires few { length self.now.grammar.tokens.now < 2 ^ 63 }
        ensures { FindsPrefixStat self.now.grammar.tokens.now self.now.grammar.room begin first in_target result }
    {
        let part = self.grammar.level(first.end + 1, Level::Of(Rank::Ors))?;
        let nest = first.nest.max(part.nest);
        let end = part.end;
        let kind = StatKind::Compound {
            op,
            target: first.expr,
            value: part.expr,
        };
        let stat = boxed_stat(self.grammar.alloc, self.grammar.tokens, begin, kind)?;
        Ok(Statement { stat, nest, end })
    }

    /// An assignment.
    fn assignment(&self, begin: usize, first: Part) -> Result<Statement, Fault>
        requires nests { Nests self.now.grammar.room (F.pre self.now.grammar.nested) (F.post self.now.grammar.nested) }
        requires room { self.now.grammar.room < 2 ^ 32 }
        requires target { IsPrefixRead self.now.grammar.tokens.now self.now.grammar.room begin first in_target }
        requires plain { compound_operator (kind_at self.now.grammar.tokens.now first.end) ≡ None }
        ensures { FindsPrefixStat self.now.grammar.tokens.now self.now.grammar.room begin first in_target result }
    {
        let targets = self.targets(begin, first)?;
        if !stands(self.grammar.tokens, targets.end, Word::Equal) {
            return Err(Fault::Unexpected(targets.end));
        }
        let values = self.grammar.list(targets.end + 1)?;
        let kind = StatKind::Assign {
            targets: targets.list,
            values: values.list,
        };
        let stat = boxed_stat(self.grammar.alloc, self.grammar.tokens, begin, kind)?;
        Ok(Statement {
            stat,
            nest: targets.nest.max(values.nest),
            end: values.end,
        })
    }

    /// Targets behind the first, each with a comma before it.
    fn targets(&self, begin: usize, first: Part) -> Result<Parts, Fault>
        requires nests { Nests self.now.grammar.room (F.pre self.now.grammar.nested) (F.post self.now.grammar.nested) }
        requires room { self.now.grammar.room < 2 ^ 32 }
        requires target { IsPrefixRead self.now.grammar.tokens.now self.now.grammar.room begin first in_target }
        requires plain { compound_operator (kind_at self.now.grammar.tokens.now first.end) ≡ None }
        ensures { FindsTargets self.now.grammar.tokens.now self.now.grammar.room begin first result }
    {
        let mut list = Items::new(self.grammar.alloc);
        let mut nest = first.nest;
        let mut end = first.end;
        push(&mut list, first.expr)?;
        while stands(self.grammar.tokens, end, Word::Comma) {
            let part = self.target(end + 1)?;
            nest = nest.max(part.nest);
            end = part.end;
            push(&mut list, part.expr)?;
        }
        Ok(Parts { list, nest, end })
    }

    /// A further target.
    fn target(&self, at: usize) -> Result<Part, Fault>
        requires nests { Nests self.now.grammar.room (F.pre self.now.grammar.nested) (F.post self.now.grammar.nested) }
        requires room { self.now.grammar.room < 2 ^ 32 }
        ensures { FindsTarget self.now.grammar.tokens.now self.now.grammar.room at result }
    {
        let first = self.target_begin(at)?;
        let Prefix { part, ending } = self.grammar.suffixes(at, first)?;
        match ending {
            Ending::Target => Ok(part),
            Ending::Call | Ending::Paren => Err(Fault::Unexpected(part.end)),
        }
    }

    /// The name or the parenthesis that begins a further target.
    fn target_begin(&self, at: usize) -> Result<Prefix, Fault>
        requires nests { Nests self.now.grammar.room (F.pre self.now.grammar.nested) (F.post self.now.grammar.nested) }
        requires room { self.now.grammar.room < 2 ^ 32 }
        ensures { FindsTargetBegin self.now.grammar.tokens.now self.now.grammar.room at result }
    {
        if stands(self.grammar.tokens, at, Word::OpenParen) {
            within(0, self.grammar.room, at)?;
            let part = self.grammar.parenthesis(at)?;
            let ending = Ending::Paren;
            return Ok(Prefix { part, ending });
        }
        match name_at(self.grammar.tokens, at) {
            Some(name) => Ok(named(self.grammar.alloc, self.grammar.tokens, at, name)?),
            None => Err(Fault::Unexpected(at)),
        }
    }
}
