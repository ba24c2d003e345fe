//! Expressions.

ghost use Rattle.std.specs.Prelude.{◌≡◌, ◌<◌, ◌≤◌, ◌^◌, Some};
ghost use Rattle.syntax_tree.specs.Grammar.{IsUnary, IsLevel, IsCast, IsSimple};
ghost use Rattle.syntax_tree.specs.Operators.{sums};
ghost use Rattle.syntax_tree.specs.Places.{Has};
ghost use Rattle.syntax_tree.specs.declared.token.TokenKind.TheVariants.{DoubleDot};
ghost use Rattle.parse_steps.specs.Steps.{most};
ghost use Rattle.expression_parser.specs.Reading.{Nests, FindsLevel, FindsUnary, FindsList};
ghost use Rattle.expression_parser.specs.Inner.{FindsClimb, FindsRun, FindsCast, FindsPower};

use crate::fault::Fault;
use crate::grammar::{Grammar, within};
use crate::nodes::{binary, boxed_at, push};
use crate::parts::{Found, Part, Parts, Wanted};
use crate::types::type_at;
use parse_steps::{Level, Rank, unary_at};
use sqlite_items::Items;
use std::alloc::Global;
use syntax_tree::{BinOp, ExprKind, Token};
use type_skip::{Word, stands};

impl<'a, F: Fn(Global, &[Token], usize, Wanted, usize) -> Result<Found, Fault>> Grammar<'a, F> {
    /// An expression of a level.
    pub fn level(&self, at: usize, level: Level) -> Result<Part, Fault>
        requires nests { Nests self.now.room (F.pre self.now.nested) (F.post self.now.nested) }
        requires room { self.now.room < 2 ^ 32 }
        ensures { FindsLevel self.now.tokens.now self.now.room level at result }
    {
        let first = self.unary(at)?;
        self.climb(at, level, first)
    }

    /// What follows an operand that begins at a place: the operators of the highest level behind it, and so on down.
    fn climb(&self, begin: usize, level: Level, first: Part) -> Result<Part, Fault>
        requires nests { Nests self.now.room (F.pre self.now.nested) (F.post self.now.nested) }
        requires room { self.now.room < 2 ^ 32 }
        requires nest { first.nest ≤ self.now.room }
        requires operand { IsUnary self.now.tokens.now most begin first.expr first.end }
        ensures { FindsClimb self.now.tokens.now self.now.room level begin first result }
    {
        match level {
            Level::Unaries => Ok(first),
            Level::Of(Rank::Products) => self.products(begin, first),
            Level::Of(Rank::Sums) => self.sums(begin, first),
            Level::Runs => self.runs(begin, first),
            Level::Of(Rank::Comparisons) => self.comparisons(begin, first),
            Level::Of(Rank::Ands) => self.ands(begin, first),
            Level::Of(Rank::Ors) => self.ors(begin, first),
        }
    }

    /// Products behind an operand.
    fn products(&self, begin: usize, first: Part) -> Result<Part, Fault>
        requires nests { Nests self.now.room (F.pre self.now.nested) (F.post self.now.nested) }
        requires room { self.now.room < 2 ^ 32 }
        requires nest { first.nest ≤ self.now.room }
        requires operand { IsUnary self.now.tokens.now most begin first.expr first.end }
        ensures { FindsClimb self.now.tokens.now self.now.room (Level.Of Rank.Products) begin first result }
    {
        self.operations(begin, Rank::Products, first)
    }

    /// Products and sums behind an operand.
    fn sums(&self, begin: usize, first: Part) -> Result<Part, Fault>
        requires nests { Nests self.now.room (F.pre self.now.nested) (F.post self.now.nested) }
        requires room { self.now.room < 2 ^ 32 }
        requires nest { first.nest ≤ self.now.room }
        requires operand { IsUnary self.now.tokens.now most begin first.expr first.end }
        ensures { FindsClimb self.now.tokens.now self.now.room (Level.Of Rank.Sums) begin first result }
    {
        let part = self.products(begin, first)?;
        self.operations(begin, Rank::Sums, part)
    }

    /// What is higher than comparisons.
    fn runs(&self, begin: usize, first: Part) -> Result<Part, Fault>
        requires nests { Nests self.now.room (F.pre self.now.nested) (F.post self.now.nested) }
        requires room { self.now.room < 2 ^ 32 }
        requires nest { first.nest ≤ self.now.room }
        requires operand { IsUnary self.now.tokens.now most begin first.expr first.end }
        ensures { FindsClimb self.now.tokens.now self.now.room Level.Runs begin first result }
    {
        let part = self.sums(begin, first)?;
        self.run(begin, part)
    }

    /// Comparisons, and what is higher.
    fn comparisons(&self, begin: usize, first: Part) -> Result<Part, Fault>
        requires nests { Nests self.now.room (F.pre self.now.nested) (F.post self.now.nested) }
        requires room { self.now.room < 2 ^ 32 }
        requires nest { first.nest ≤ self.now.room }
        requires operand { IsUnary self.now.tokens.now most begin first.expr first.end }
        ensures { FindsClimb self.now.tokens.now self.now.room (Level.Of Rank.Comparisons) begin first result }
    {
        let part = self.runs(begin, first)?;
        self.operations(begin, Rank::Comparisons, part)
    }

    /// What is higher than `or`.
    fn ands(&self, begin: usize, first: Part) -> Result<Part, Fault>
        requires nests { Nests self.now.room (F.pre self.now.nested) (F.post self.now.nested) }
        requires room { self.now.room < 2 ^ 32 }
        requires nest { first.nest ≤ self.now.room }
        requires operand { IsUnary self.now.tokens.now most begin first.expr first.end }
        ensures { FindsClimb self.now.tokens.now self.now.room (Level.Of Rank.Ands) begin first result }
    {
        let part = self.comparisons(begin, first)?;
        self.operations(begin, Rank::Ands, part)
    }

    /// Any operators behind an operand.
    fn ors(&self, begin: usize, first: Part) -> Result<Part, Fault>
        requires nests { Nests self.now.room (F.pre self.now.nested) (F.post self.now.nested) }
        requires room { self.now.room < 2 ^ 32 }
        requires nest { first.nest ≤ self.now.room }
        requires operand { IsUnary self.now.tokens.now most begin first.expr first.end }
        ensures { FindsClimb self.now.tokens.now self.now.room (Level.Of Rank.Ors) begin first result }
    {
        let part = self.ands(begin, first)?;
        self.operations(begin, Rank::Ors, part)
    }

    /// The rest of a run of `..`, where one goes on behind a part that begins at a place.
    fn run(&self, begin: usize, first: Part) -> Result<Part, Fault>
        requires nests { Nests self.now.room (F.pre self.now.nested) (F.post self.now.nested) }
        requires room { self.now.room < 2 ^ 32 }
        requires nest { first.nest ≤ self.now.room }
        requires part { IsLevel self.now.tokens.now most sums begin first.expr first.end }
        ensures { FindsRun self.now.tokens.now self.now.room begin first result }
    {
        if !stands(self.tokens, first.end, Word::DoubleDot) {
            return Ok(first);
        }
        within(first.nest, self.room, first.end)?;
        self.whole_run(begin, first)
    }

    /// A run of `..`, which is one node, behind its first part.
    fn whole_run(&self, begin: usize, first: Part) -> Result<Part, Fault>
        requires nests { Nests self.now.room (F.pre self.now.nested) (F.post self.now.nested) }
        requires room { self.now.room < 2 ^ 32 }
        requires nest { first.nest < self.now.room }
        requires part { IsLevel self.now.tokens.now most sums begin first.expr first.end }
        requires stands { Has self.now.tokens.now first.end DoubleDot }
        ensures { FindsRun self.now.tokens.now self.now.room begin first result }
    {
        let second = self.inner_level(first.end + 1, Level::Of(Rank::Sums))?;
        let mut nest = first.nest.max(second.nest);
        let mut end = second.end;
        let mut list = Items::new(self.alloc);
        push(&mut list, first.expr)?;
        push(&mut list, second.expr)?;
        while stands(self.tokens, end, Word::DoubleDot) {
            let part = self.inner_level(end + 1, Level::Of(Rank::Sums))?;
            nest = nest.max(part.nest);
            end = part.end;
            push(&mut list, part.expr)?;
        }
        let expr = boxed_at(self.alloc, self.tokens, begin, ExprKind::Concat(list))?;
        Ok(Part {
            expr,
            nest: nest + 1,
            end,
        })
    }

    /// An expression without binary operators but `^`.
    pub fn unary(&self, at: usize) -> Result<Part, Fault>
        requires nests { Nests self.now.room (F.pre self.now.nested) (F.post self.now.nested) }
        requires room { self.now.room < 2 ^ 32 }
        ensures { FindsUnary self.now.tokens.now self.now.room at result }
    {
        let Some(op) = unary_at(self.tokens, at) else {
            let simple = self.simple(at)?;
            let base = self.cast(at, simple)?;
            return self.power(at, base);
        };
        within(0, self.room, at)?;
        let part = self.inner_unary(at + 1)?;
        let nest = part.nest + 1;
        let end = part.end;
        let e = part.expr;
        let expr = boxed_at(self.alloc, self.tokens, at, ExprKind::Unary { op, e })?;
        Ok(Part { expr, nest, end })
    }

    /// A `^` and what it takes, where one stands behind a part that begins at a place.
    fn power(&self, begin: usize, base: Part) -> Result<Part, Fault>
        requires nests { Nests self.now.room (F.pre self.now.nested) (F.post self.now.nested) }
        requires room { self.now.room < 2 ^ 32 }
        requires nest { base.nest ≤ self.now.room }
        requires part { IsCast self.now.tokens.now most begin base.expr base.end }
        ensures { FindsPower self.now.tokens.now self.now.room begin base result }
    {
        if !stands(self.tokens, base.end, Word::Caret) {
            return Ok(base);
        }
        within(base.nest, self.room, base.end)?;
        let exponent = self.inner_level(base.end + 1, Level::Unaries)?;
        Ok(binary(self.alloc, self.tokens, begin, BinOp::Pow, base, exponent)?)
    }

    /// A `::` and a type, where one stands behind a simple expression that begins at a place.
    fn cast(&self, begin: usize, simple: Part) -> Result<Part, Fault>
        requires room { self.now.room < 2 ^ 32 }
        requires nest { simple.nest ≤ self.now.room }
        requires part { IsSimple self.now.tokens.now most begin simple.expr simple.end }
        ensures { FindsCast self.now.tokens.now self.now.room begin simple result }
    {
        if !stands(self.tokens, simple.end, Word::DoubleColon) {
            return Ok(simple);
        }
        within(simple.nest, self.room, simple.end)?;
        let end = type_at(self.tokens, simple.end + 1)?;
        let nest = simple.nest + 1;
        let expr = boxed_at(self.alloc, self.tokens, begin, ExprKind::Paren(simple.expr))?;
        Ok(Part { expr, nest, end })
    }

    /// Expressions with commas between.
    pub fn list(&self, at: usize) -> Result<Parts, Fault>
        requires nests { Nests self.now.room (F.pre self.now.nested) (F.post self.now.nested) }
        requires room { self.now.room < 2 ^ 32 }
        ensures { FindsList self.now.tokens.now self.now.room at result }
    {
        let first = self.level(at, Level::Of(Rank::Ors))?;
        let mut list = Items::new(self.alloc);
        let mut nest = first.nest;
        let mut end = first.end;
        push(&mut list, first.expr)?;
        while stands(self.tokens, end, Word::Comma) {
            let part = self.level(end + 1, Level::Of(Rank::Ors))?;
            nest = nest.max(part.nest);
            end = part.end;
            push(&mut list, part.expr)?;
        }
        Ok(Parts { list, nest, end })
    }
}
