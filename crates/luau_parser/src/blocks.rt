//! Blocks, their last statements, and statements that begin with a name.

ghost use Rattle.std.specs.Prelude.{◌≡◌, ◌+◌, ◌<◌, ◌^◌, length, IsTrue};
ghost use Rattle.syntax_tree.specs.Places.{kind_at, is_name, is_named, Has};
ghost use Rattle.syntax_tree.specs.Words.{ends_block, type_name};
ghost use Rattle.syntax_tree.specs.declared.token.TokenKind.TheVariants.{Return, Break, Name};
ghost use Rattle.expression_parser.specs.Reading.{Nests, FindsBlock};
ghost use Rattle.luau_parser.specs.Statements.{FindsStep, FindsLast, FindsLastEnd, FindsTypeRest, IsBehindSemicolon, IsPlainName, may_end};

use crate::nodes::{boxed_stat, push_stat};
use crate::parts::{Statement, Step};
use crate::rules::Rules;
use byte_text::StrId;
use expression_parser::{
    Block, Fault, Found, Prefix, Wanted, expect, expect_name, generics, named, type_at,
};
use parse_steps::{Opening, opening_at};
use sqlite_items::Items;
use std::alloc::Global;
use syntax_tree::{StatKind, Token, TokenKind};
use type_skip::{Word, kind_at, stands};

/// Whether the token at a place, or the end of the text there, ends a block.
fn ends(tokens: &[Token], at: usize) -> bool
    ensures { result ≡ ends_block (kind_at tokens.now at) }
{
    matches!(opening_at(tokens, at), Opening::Ends)
}

/// Whether the token at a place may follow a last statement: it ends the block, as does the end of the text, or it is a `;`.
fn may_end(tokens: &[Token], at: usize) -> bool
    ensures { result ≡ may_end (kind_at tokens.now at) }
{
    ends(tokens, at) || stands(tokens, at, Word::Semicolon)
}

/// Whether a name stands at a place.
fn has_name(tokens: &[Token], at: usize) -> bool
    ensures value { result ≡ is_name (kind_at tokens.now at) }
    ensures within { IsTrue result → at < length tokens.now }
    ensures few { length tokens.now < 2 ^ 63 }
{
    matches!(kind_at(tokens, at), Some(TokenKind::Name(_)))
}

/// Whether the name `type` stands at a place.
fn has_type_name(tokens: &[Token], at: usize) -> bool
    ensures value { result ≡ is_named type_name (kind_at tokens.now at) }
    ensures within { IsTrue result → at < length tokens.now }
    ensures few { length tokens.now < 2 ^ 63 }
{
    match kind_at(tokens, at) {
        Some(TokenKind::Name(name)) => name == StrId::TYPE,
        _ => false,
    }
}

/// The place behind a `;`, where one stands.
fn behind_semicolon(tokens: &[Token], at: usize) -> usize
    ensures { IsBehindSemicolon tokens.now at result }
{
    if stands(tokens, at, Word::Semicolon) {
        at + 1
    } else {
        at
    }
}

/// The end of a block behind its last statement, which a `;` may follow.
fn last_end(tokens: &[Token], at: usize) -> Result<usize, Fault>
    ensures { FindsLastEnd tokens.now at result }
{
    let end = behind_semicolon(tokens, at);
    if ends(tokens, end) {
        Ok(end)
    } else {
        Err(Fault::Unexpected(end))
    }
}

/// The definition of a type behind its name.
fn type_rest(tokens: &[Token], at: usize) -> Result<usize, Fault>
    ensures { FindsTypeRest tokens.now at result }
{
    let equal = generics(tokens, at)?;
    let begin = expect(tokens, equal, Word::Equal)?;
    type_at(tokens, begin)
}

impl<'a, F: Fn(Global, &[Token], usize, Wanted, usize) -> Result<Found, Fault>> Rules<'a, F> {
    /// Statements, up to what ends their block.
    pub(crate) fn block(&self, at: usize) -> Result<Block, Fault>
        requires nests { Nests self.now.grammar.room (F.pre self.now.grammar.nested) (F.post self.now.grammar.nested) }
        requires room { self.now.grammar.room < 2 ^ 32 }
        ensures { FindsBlock self.now.grammar.tokens.now self.now.grammar.room at result }
    {
        let mut stats = Items::new(self.grammar.alloc);
        let mut nest = 0;
        let mut end = at;
        loop {
            match self.step(end)? {
                Step::Ends => return Ok(Block { stats, nest, end }),
                Step::Types(behind) => end = behind,
                Step::Stat(next) => {
                    nest = nest.max(next.nest);
                    end = next.end;
                    push_stat(&mut stats, next.stat)?;
                }
                Step::Last(last) => {
                    push_stat(&mut stats, last.stat)?;
                    return Ok(Block {
                        stats,
                        nest: nest.max(last.nest),
                        end: last.end,
                    });
                }
            }
        }
    }

    /// What a block goes on with.
    fn step(&self, at: usize) -> Result<Step, Fault>
        requires nests { Nests self.now.grammar.room (F.pre self.now.grammar.nested) (F.post self.now.grammar.nested) }
        requires room { self.now.grammar.room < 2 ^ 32 }
        ensures { FindsStep self.now.grammar.tokens.now self.now.grammar.room at result }
    {
        match opening_at(self.grammar.tokens, at) {
            Opening::Ends => Ok(Step::Ends),
            Opening::Return => Ok(Step::Last(self.return_stat(at)?)),
            Opening::Break => Ok(Step::Last(self.break_stat(at)?)),
            Opening::Name(name) => self.named_step(at, name),
            _ => {
                let statement = self.statement(at)?;
                Ok(Step::Stat(Statement {
                    end: behind_semicolon(self.grammar.tokens, statement.end),
                    nest: statement.nest,
                    stat: statement.stat,
                }))
            }
        }
    }

    /// `return`, with values or without.
    fn return_stat(&self, at: usize) -> Result<Statement, Fault>
        requires nests { Nests self.now.grammar.room (F.pre self.now.grammar.nested) (F.post self.now.grammar.nested) }
        requires room { self.now.grammar.room < 2 ^ 32 }
        requires opens { Has self.now.grammar.tokens.now at Return }
        ensures { FindsLast self.now.grammar.tokens.now self.now.grammar.room at result }
    {
        let next = at + 1;
        if may_end(self.grammar.tokens, next) {
            let end = last_end(self.grammar.tokens, next)?;
            let kind = StatKind::Return(Items::new(self.grammar.alloc));
            let stat = boxed_stat(self.grammar.alloc, self.grammar.tokens, at, kind)?;
            return Ok(Statement { stat, nest: 0, end });
        }
        let values = self.grammar.list(next)?;
        let end = last_end(self.grammar.tokens, values.end)?;
        let nest = values.nest;
        let kind = StatKind::Return(values.list);
        let stat = boxed_stat(self.grammar.alloc, self.grammar.tokens, at, kind)?;
        Ok(Statement { stat, nest, end })
    }

    /// `break`.
    fn break_stat(&self, at: usize) -> Result<Statement, Fault>
        requires opens { Has self.now.grammar.tokens.now at Break }
        ensures { FindsLast self.now.grammar.tokens.now self.now.grammar.room at result }
    {
        let end = last_end(self.grammar.tokens, at + 1)?;
        let stat = boxed_stat(self.grammar.alloc, self.grammar.tokens, at, StatKind::Break)?;
        Ok(Statement { stat, nest: 0, end })
    }

    /// What begins with a name: `continue`, the definition of a type, a call or an assignment.
    fn named_step(&self, at: usize, name: StrId) -> Result<Step, Fault>
        requires nests { Nests self.now.grammar.room (F.pre self.now.grammar.nested) (F.post self.now.grammar.nested) }
        requires room { self.now.grammar.room < 2 ^ 32 }
        requires opens { Has self.now.grammar.tokens.now at (Name name) }
        ensures { FindsStep self.now.grammar.tokens.now self.now.grammar.room at result }
    {
        let next = at + 1;
        if name == StrId::CONTINUE && may_end(self.grammar.tokens, next) {
            let end = last_end(self.grammar.tokens, next)?;
            let stat = boxed_stat(
                self.grammar.alloc,
                self.grammar.tokens,
                at,
                StatKind::Continue,
            )?;
            return Ok(Step::Last(Statement { stat, nest: 0, end }));
        }
        if name == StrId::TYPE && has_name(self.grammar.tokens, next) {
            let end = type_rest(self.grammar.tokens, at + 2)?;
            return Ok(Step::Types(behind_semicolon(self.grammar.tokens, end)));
        }
        if name == StrId::EXPORT && has_type_name(self.grammar.tokens, next) {
            expect_name(self.grammar.tokens, at + 2)?;
            let end = type_rest(self.grammar.tokens, at + 3)?;
            return Ok(Step::Types(behind_semicolon(self.grammar.tokens, end)));
        }
        self.named_stat(at, name)
    }

    /// A call or an assignment that begins with a name.
    fn named_stat(&self, at: usize, name: StrId) -> Result<Step, Fault>
        requires nests { Nests self.now.grammar.room (F.pre self.now.grammar.nested) (F.post self.now.grammar.nested) }
        requires room { self.now.grammar.room < 2 ^ 32 }
        requires opens { Has self.now.grammar.tokens.now at (Name name) }
        requires plain { IsPlainName name (kind_at self.now.grammar.tokens.now (at + 1)) }
        ensures { FindsStep self.now.grammar.tokens.now self.now.grammar.room at result }
    {
        let first = named(self.grammar.alloc, self.grammar.tokens, at, name)?;
        let Prefix { part, ending } = self.grammar.suffixes(at, first)?;
        let statement = self.prefix_stat(at, part, ending)?;
        Ok(Step::Stat(Statement {
            end: behind_semicolon(self.grammar.tokens, statement.end),
            nest: statement.nest,
            stat: statement.stat,
        }))
    }
}
