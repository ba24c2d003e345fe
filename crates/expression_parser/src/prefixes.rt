//! What stands behind the parts of a prefix.

ghost use Rattle.std.specs.Prelude.{◌≡◌, ◌<◌, ◌≤◌, ◌-◌, ◌^◌, IsTrue, IsFalse, length};
ghost use Rattle.syntax_tree.specs.Places.{kind_at, Has};
ghost use Rattle.syntax_tree.specs.declared.token.TokenKind.TheVariants.{Dot, OpenBracket, Colon, OpenParen};
ghost use Rattle.parse_steps.specs.Classes.{suffix};
ghost use Rattle.parse_steps.specs.Steps.{InTime, IsLatePlace};
ghost use Rattle.expression_parser.specs.Reading.{Nests, FindsSuffixes};
ghost use Rattle.expression_parser.specs.Inner.{FindsSuffix, FindsArguments};

use crate::fault::Fault;
use crate::grammar::{Grammar, within};
use crate::nodes::{boxed_at, boxed_call, push};
use crate::parts::{Ending, Found, Part, Parts, Prefix, Wanted};
use crate::words::{expect, expect_name};
use parse_steps::{Arguments, Suffix, arguments_at, suffix_at};
use sqlite_items::Items;
use std::alloc::Global;
use syntax_tree::{ExprKind, Token};
use type_skip::{Word, stands};

/// Whether the `(` at a place begins on a later line than the token before it ends.
fn is_late(tokens: &[Token], at: usize) -> bool
    requires there { Has tokens.now at OpenParen }
    ensures late { IsTrue result → IsLatePlace tokens.now at }
    ensures timely { IsFalse result → InTime tokens.now at }
{
    if at == 0 {
        return false;
    }
    match (tokens.get(at - 1), tokens.get(at)) {
        (Some(before), Some(paren)) => before.last < paren.line,
        _ => false,
    }
}

impl<'a, F: Fn(Global, &[Token], usize, Wanted, usize) -> Result<Found, Fault>> Grammar<'a, F> {
    /// All suffixes behind a part of a prefix that begins at a place.
    pub fn suffixes(&self, begin: usize, first: Prefix) -> Result<Prefix, Fault>
        requires nests { Nests self.now.room (F.pre self.now.nested) (F.post self.now.nested) }
        requires room { self.now.room < 2 ^ 32 }
        requires nest { first.part.nest ≤ self.now.room }
        ensures { FindsSuffixes self.now.tokens.now self.now.room begin first result }
    {
        let mut prefix = first;
        loop {
            prefix = match suffix_at(self.tokens, prefix.part.end) {
                Suffix::Member => self.member(begin, prefix)?,
                Suffix::Index => self.index(begin, prefix)?,
                Suffix::Method => self.method(begin, prefix)?,
                Suffix::Call => self.call(begin, prefix)?,
                Suffix::Nothing => return Ok(prefix),
            };
        }
    }

    /// `.` and a name.
    fn member(&self, begin: usize, first: Prefix) -> Result<Prefix, Fault>
        requires room { self.now.room < 2 ^ 32 }
        requires nest { first.part.nest ≤ self.now.room }
        requires stands { Has self.now.tokens.now first.part.end Dot }
        requires few { length self.now.tokens.now < 2 ^ 63 }
        ensures { FindsSuffix self.now.tokens.now self.now.room begin first result }
    {
        let left = first.part;
        within(left.nest, self.room, left.end)?;
        let name = expect_name(self.tokens, left.end + 1)?;
        let nest = left.nest + 1;
        let end = left.end + 2;
        let table = left.expr;
        let expr = boxed_at(
            self.alloc,
            self.tokens,
            begin,
            ExprKind::Member { table, name },
        )?;
        Ok(Prefix {
            part: Part { expr, nest, end },
            ending: Ending::Target,
        })
    }

    /// `[`, a key and `]`.
    fn index(&self, begin: usize, first: Prefix) -> Result<Prefix, Fault>
        requires nests { Nests self.now.room (F.pre self.now.nested) (F.post self.now.nested) }
        requires room { self.now.room < 2 ^ 32 }
        requires nest { first.part.nest ≤ self.now.room }
        requires stands { Has self.now.tokens.now first.part.end OpenBracket }
        requires few { length self.now.tokens.now < 2 ^ 63 }
        ensures { FindsSuffix self.now.tokens.now self.now.room begin first result }
    {
        let left = first.part;
        within(left.nest, self.room, left.end)?;
        let part = self.inner_expr(left.end + 1)?;
        let end = expect(self.tokens, part.end, Word::CloseBracket)?;
        let nest = left.nest.max(part.nest) + 1;
        let table = left.expr;
        let key = part.expr;
        let expr = boxed_at(
            self.alloc,
            self.tokens,
            begin,
            ExprKind::Index { table, key },
        )?;
        Ok(Prefix {
            part: Part { expr, nest, end },
            ending: Ending::Target,
        })
    }

    /// `:`, a name and arguments.
    fn method(&self, begin: usize, first: Prefix) -> Result<Prefix, Fault>
        requires nests { Nests self.now.room (F.pre self.now.nested) (F.post self.now.nested) }
        requires room { self.now.room < 2 ^ 32 }
        requires nest { first.part.nest ≤ self.now.room }
        requires stands { Has self.now.tokens.now first.part.end Colon }
        requires few { length self.now.tokens.now < 2 ^ 63 }
        ensures { FindsSuffix self.now.tokens.now self.now.room begin first result }
    {
        let left = first.part;
        within(left.nest, self.room, left.end)?;
        let name = expect_name(self.tokens, left.end + 1)?;
        let place = left.end + 2;
        let args = self.arguments(place, left.nest)?;
        let nest = left.nest.max(args.nest) + 1;
        let kind = ExprKind::Method {
            object: left.expr,
            name,
            args: args.list,
        };
        let expr = boxed_call(self.alloc, self.tokens, begin, place, kind)?;
        Ok(Prefix {
            part: Part {
                expr,
                nest,
                end: args.end,
            },
            ending: Ending::Call,
        })
    }

    /// Arguments.
    fn call(&self, begin: usize, first: Prefix) -> Result<Prefix, Fault>
        requires nests { Nests self.now.room (F.pre self.now.nested) (F.post self.now.nested) }
        requires room { self.now.room < 2 ^ 32 }
        requires nest { first.part.nest ≤ self.now.room }
        requires opens { suffix (kind_at self.now.tokens.now first.part.end) ≡ Suffix.Call }
        ensures { FindsSuffix self.now.tokens.now self.now.room begin first result }
    {
        let left = first.part;
        within(left.nest, self.room, left.end)?;
        let place = left.end;
        let args = self.arguments(place, left.nest)?;
        let nest = left.nest.max(args.nest) + 1;
        let kind = ExprKind::Call {
            callee: left.expr,
            args: args.list,
        };
        let expr = boxed_call(self.alloc, self.tokens, begin, place, kind)?;
        Ok(Prefix {
            part: Part {
                expr,
                nest,
                end: args.end,
            },
            ending: Ending::Call,
        })
    }

    /// The arguments of a call whose callee or object nests so deep.
    fn arguments(&self, at: usize, left: usize) -> Result<Parts, Fault>
        requires nests { Nests self.now.room (F.pre self.now.nested) (F.post self.now.nested) }
        requires room { self.now.room < 2 ^ 32 }
        requires nest { left < self.now.room }
        ensures { FindsArguments self.now.tokens.now self.now.room left at result }
    {
        match arguments_at(self.tokens, at) {
            Arguments::Paren => self.paren_arguments(at, left),
            Arguments::Table => {
                let part = self.inner_table(at)?;
                let mut list = Items::new(self.alloc);
                push(&mut list, part.expr)?;
                Ok(Parts {
                    list,
                    nest: part.nest,
                    end: part.end,
                })
            }
            Arguments::Text(text) => {
                let mut list = Items::new(self.alloc);
                let expr = boxed_at(self.alloc, self.tokens, at, ExprKind::Str(text))?;
                push(&mut list, expr)?;
                Ok(Parts {
                    list,
                    nest: 0,
                    end: at + 1,
                })
            }
            Arguments::Nothing => Err(Fault::Unexpected(at)),
        }
    }

    /// Arguments in parentheses, of a call whose callee or object nests so deep.
    fn paren_arguments(&self, at: usize, left: usize) -> Result<Parts, Fault>
        requires nests { Nests self.now.room (F.pre self.now.nested) (F.post self.now.nested) }
        requires room { self.now.room < 2 ^ 32 }
        requires nest { left < self.now.room }
        requires opens { Has self.now.tokens.now at OpenParen }
        requires few { length self.now.tokens.now < 2 ^ 63 }
        ensures { FindsArguments self.now.tokens.now self.now.room left at result }
    {
        if is_late(self.tokens, at) {
            return Err(Fault::Late(at));
        }
        if stands(self.tokens, at + 1, Word::CloseParen) {
            return Ok(Parts {
                list: Items::new(self.alloc),
                nest: 0,
                end: at + 2,
            });
        }
        let parts = self.inner_list(at + 1)?;
        let end = expect(self.tokens, parts.end, Word::CloseParen)?;
        Ok(Parts {
            list: parts.list,
            nest: parts.nest,
            end,
        })
    }
}
