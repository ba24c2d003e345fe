//! Expressions without operators.

ghost use Rattle.std.specs.Prelude.{◌≡◌, ◌<◌, ◌≤◌, ◌-◌, ◌^◌, ◌∷◌, [], Some, IfOk};
ghost use Rattle.syntax_tree.specs.Places.{kind_at, Has, Lacks};
ghost use Rattle.syntax_tree.specs.Words.{literal_of};
ghost use Rattle.syntax_tree.specs.declared.token.TokenKind.TheVariants.{OpenBrace, OpenParen, If, ElseIf};
ghost use Rattle.syntax_tree.specs.declared.tree.ExprKind.{Interp};
ghost use Rattle.parse_steps.specs.Classes.{beginning};
ghost use Rattle.expression_parser.specs.Reading.{Nests, FindsTable, FindsParenthesis, IsLiteral};
ghost use Rattle.expression_parser.specs.Inner.{FindsSimple, FindsPieces, IsLeaf};
ghost use Rattle.expression_parser.specs.Inner.{FindsChoices, FindsArm, FindsOther};

use crate::fault::Fault;
use crate::grammar::{Grammar, within};
use crate::nodes::{boxed_at, func_at, named, push, push_arm};
use crate::parts::{ArmPart, Choices, Ending, Found, Part, Pieces, Prefix, Wanted};
use crate::words::expect;
use byte_text::StrId;
use parse_steps::{Beginning, beginning_at, end_at, middle_at};
use sqlite_items::Items;
use std::alloc::{AllocError, Global};
use syntax_tree::{ExprKind, Token, TokenKind};
use type_skip::{Word, kind_at, stands};

/// The node without parts that the token at a place is, where it is one.
fn literal(alloc: Global, tokens: &[Token], at: usize) -> Result<Option<ExprKind>, AllocError>
    ensures { IfOk result (IsLiteral tokens.now at) }
{
    match kind_at(tokens, at) {
        Some(kind) => literal_of(alloc, kind),
        None => Ok(None),
    }
}

/// The node without parts that a token is, where it is one.
fn literal_of(alloc: Global, kind: TokenKind) -> Result<Option<ExprKind>, AllocError>
    ensures { IfOk result (λ k. k ≡ literal_of (Some kind)) }
{
    Ok(match kind {
        TokenKind::Nil => Some(ExprKind::Nil),
        TokenKind::True => Some(ExprKind::True),
        TokenKind::False => Some(ExprKind::False),
        TokenKind::Number(value) => Some(ExprKind::Num(value)),
        TokenKind::Str(text) => Some(ExprKind::Str(text)),
        TokenKind::TripleDot => Some(ExprKind::Vararg),
        TokenKind::InterpWhole(text) => Some(whole(alloc, text)?),
        _ => None,
    })
}

/// An interpolated string without an expression.
fn whole(alloc: Global, text: StrId) -> Result<ExprKind, AllocError>
    ensures { IfOk result (λ k. k ≡ Interp (text ∷ []) []) }
{
    let mut texts = Items::new(alloc);
    texts.push(text)?;
    Ok(ExprKind::Interp {
        texts,
        values: Items::new(alloc),
    })
}

impl<'a, F: Fn(Global, &[Token], usize, Wanted, usize) -> Result<Found, Fault>> Grammar<'a, F> {
    /// An expression without operators and casts.
    pub(crate) fn simple(&self, at: usize) -> Result<Part, Fault>
        requires nests { Nests self.now.room (F.pre self.now.nested) (F.post self.now.nested) }
        requires room { self.now.room < 2 ^ 32 }
        ensures { FindsSimple self.now.tokens.now self.now.room at result }
    {
        match beginning_at(self.tokens, at) {
            Beginning::Leaf => self.leaf(at, 0),
            Beginning::Whole => {
                within(0, self.room, at)?;
                self.leaf(at, 1)
            }
            Beginning::Pieces(text) => self.interp(at, text),
            Beginning::Function => self.function(at),
            Beginning::Table => self.table(at),
            Beginning::Name(name) => {
                let first = named(self.alloc, self.tokens, at, name)?;
                let prefix = self.suffixes(at, first)?;
                Ok(prefix.part)
            }
            Beginning::Paren => {
                within(0, self.room, at)?;
                let part = self.parenthesis(at)?;
                let ending = Ending::Paren;
                let prefix = self.suffixes(at, Prefix { part, ending })?;
                Ok(prefix.part)
            }
            Beginning::Choice => self.choice(at),
            Beginning::Nothing => Err(Fault::Unexpected(at)),
        }
    }

    /// A node without parts, of this nest.
    fn leaf(&self, at: usize, nest: usize) -> Result<Part, Fault>
        requires begins { IsLeaf self.now.tokens.now at nest }
        requires nest { nest ≤ self.now.room }
        ensures { FindsSimple self.now.tokens.now self.now.room at result }
    {
        match literal(self.alloc, self.tokens, at)? {
            Some(kind) => {
                let expr = boxed_at(self.alloc, self.tokens, at, kind)?;
                Ok(Part {
                    expr,
                    nest,
                    end: at + 1,
                })
            }
            None => Err(Fault::Unexpected(at)),
        }
    }

    /// An interpolated string with expressions, whose first text is this.
    fn interp(&self, at: usize, text: StrId) -> Result<Part, Fault>
        requires nests { Nests self.now.room (F.pre self.now.nested) (F.post self.now.nested) }
        requires room { self.now.room < 2 ^ 32 }
        requires begins { beginning (kind_at self.now.tokens.now at) ≡ Beginning.Pieces text }
        ensures { FindsSimple self.now.tokens.now self.now.room at result }
    {
        within(0, self.room, at)?;
        let pieces = self.pieces(at + 1, text)?;
        let nest = pieces.nest + 1;
        let end = pieces.end;
        let kind = ExprKind::Interp {
            texts: pieces.texts,
            values: pieces.values,
        };
        let expr = boxed_at(self.alloc, self.tokens, at, kind)?;
        Ok(Part { expr, nest, end })
    }

    /// The texts and values of an interpolated string, behind its first text.
    fn pieces(&self, at: usize, text: StrId) -> Result<Pieces, Fault>
        requires nests { Nests self.now.room (F.pre self.now.nested) (F.post self.now.nested) }
        requires room { 0 < self.now.room }
        requires small { self.now.room < 2 ^ 32 }
        ensures { FindsPieces self.now.tokens.now (self.now.room - 1) at text result }
    {
        let mut texts = Items::new(self.alloc);
        let mut values = Items::new(self.alloc);
        let mut nest = 0;
        let mut end = at;
        texts.push(text)?;
        loop {
            let part = self.inner_expr(end)?;
            nest = nest.max(part.nest);
            push(&mut values, part.expr)?;
            if let Some(last) = end_at(self.tokens, part.end) {
                texts.push(last)?;
                return Ok(Pieces {
                    texts,
                    values,
                    nest,
                    end: part.end + 1,
                });
            }
            let Some(middle) = middle_at(self.tokens, part.end) else {
                return Err(Fault::Unexpected(part.end));
            };
            texts.push(middle)?;
            end = part.end + 1;
        }
    }

    /// A function without a name.
    fn function(&self, at: usize) -> Result<Part, Fault>
        requires nests { Nests self.now.room (F.pre self.now.nested) (F.post self.now.nested) }
        requires room { self.now.room < 2 ^ 32 }
        requires begins { beginning (kind_at self.now.tokens.now at) ≡ Beginning.Function }
        ensures { FindsSimple self.now.tokens.now self.now.room at result }
    {
        within(0, self.room, at)?;
        let function = self.body(at + 1, Items::new(self.alloc))?;
        let nest = function.nest + 1;
        let end = function.end;
        let func = func_at(self.tokens, at, function);
        let expr = boxed_at(self.alloc, self.tokens, at, ExprKind::Function(func))?;
        Ok(Part { expr, nest, end })
    }

    /// A table.
    pub fn table(&self, at: usize) -> Result<Part, Fault>
        requires nests { Nests self.now.room (F.pre self.now.nested) (F.post self.now.nested) }
        requires room { self.now.room < 2 ^ 32 }
        requires begins { Has self.now.tokens.now at OpenBrace }
        ensures { FindsTable self.now.tokens.now self.now.room at result }
    {
        within(0, self.room, at)?;
        let fields = self.fields(at + 1)?;
        let nest = fields.nest + 1;
        let end = fields.end;
        let expr = boxed_at(self.alloc, self.tokens, at, ExprKind::Table(fields.list))?;
        Ok(Part { expr, nest, end })
    }

    /// An expression in parentheses.
    pub fn parenthesis(&self, at: usize) -> Result<Part, Fault>
        requires nests { Nests self.now.room (F.pre self.now.nested) (F.post self.now.nested) }
        requires room { 0 < self.now.room }
        requires small { self.now.room < 2 ^ 32 }
        requires begins { Has self.now.tokens.now at OpenParen }
        ensures { FindsParenthesis self.now.tokens.now self.now.room at result }
    {
        let part = self.inner_expr(at + 1)?;
        let end = expect(self.tokens, part.end, Word::CloseParen)?;
        let nest = part.nest + 1;
        let expr = boxed_at(self.alloc, self.tokens, at, ExprKind::Paren(part.expr))?;
        Ok(Part { expr, nest, end })
    }

    /// An `if` expression, which reaches as far as it can.
    fn choice(&self, at: usize) -> Result<Part, Fault>
        requires nests { Nests self.now.room (F.pre self.now.nested) (F.post self.now.nested) }
        requires room { self.now.room < 2 ^ 32 }
        requires begins { Has self.now.tokens.now at If }
        ensures { FindsSimple self.now.tokens.now self.now.room at result }
    {
        within(0, self.room, at)?;
        let choices = self.choices(at + 1)?;
        let nest = choices.nest + 1;
        let end = choices.end;
        let kind = ExprKind::If {
            arms: choices.arms,
            other: choices.other,
        };
        let expr = boxed_at(self.alloc, self.tokens, at, kind)?;
        Ok(Part { expr, nest, end })
    }

    /// The arms of an `if` expression and what it is otherwise, behind its word `if`.
    fn choices(&self, at: usize) -> Result<Choices, Fault>
        requires nests { Nests self.now.room (F.pre self.now.nested) (F.post self.now.nested) }
        requires room { 0 < self.now.room }
        requires small { self.now.room < 2 ^ 32 }
        ensures { FindsChoices self.now.tokens.now (self.now.room - 1) at result }
    {
        let mut arms = Items::new(self.alloc);
        let mut nest = 0;
        let mut end = at;
        loop {
            let part = self.arm(end)?;
            nest = nest.max(part.nest);
            push_arm(&mut arms, part.cond, part.value)?;
            if !stands(self.tokens, part.end, Word::ElseIf) {
                let other = self.otherwise(part.end)?;
                return Ok(Choices {
                    arms,
                    nest: nest.max(other.nest),
                    end: other.end,
                    other: other.expr,
                });
            }
            end = part.end + 1;
        }
    }

    /// A condition, the word `then` and a value.
    fn arm(&self, at: usize) -> Result<ArmPart, Fault>
        requires nests { Nests self.now.room (F.pre self.now.nested) (F.post self.now.nested) }
        requires room { 0 < self.now.room }
        requires small { self.now.room < 2 ^ 32 }
        ensures { FindsArm self.now.tokens.now (self.now.room - 1) at result }
    {
        let cond = self.inner_expr(at)?;
        let then = expect(self.tokens, cond.end, Word::Then)?;
        let value = self.inner_expr(then)?;
        Ok(ArmPart {
            nest: cond.nest.max(value.nest),
            end: value.end,
            cond: cond.expr,
            value: value.expr,
        })
    }

    /// What an `if` expression is otherwise, behind its last arm.
    fn otherwise(&self, at: usize) -> Result<Part, Fault>
        requires nests { Nests self.now.room (F.pre self.now.nested) (F.post self.now.nested) }
        requires room { 0 < self.now.room }
        requires small { self.now.room < 2 ^ 32 }
        requires last { Lacks self.now.tokens.now at ElseIf }
        ensures { FindsOther self.now.tokens.now (self.now.room - 1) at result }
    {
        if stands(self.tokens, at, Word::Else) {
            self.inner_expr(at + 1)
        } else {
            Err(Fault::Unexpected(at))
        }
    }
}
