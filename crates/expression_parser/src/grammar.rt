//! The rules of the grammar take the reader of what nests in them as a parameter, so that each is proved by itself.

ghost use Rattle.std.specs.Prelude.{◌≡◌, ◌<◌, ◌-◌, ◌^◌};
ghost use Rattle.syntax_tree.specs.Places.{Has};
ghost use Rattle.syntax_tree.specs.declared.token.TokenKind.TheVariants.{OpenBrace};
ghost use Rattle.expression_parser.specs.Reading.{FindsLevel, FindsUnary, FindsTable, FindsList, FindsBlock, Nests, Guards};

use crate::fault::Fault;
use crate::parts::{Block, Found, Part, Parts, Wanted};
use parse_steps::{Level, Rank};
use std::alloc::Global;
use syntax_tree::Token;

/// The tokens of a script, and what reads the parts that nest in a rule's.
#[derive(Clone, Copy)]
pub struct Grammar<'a, F> {
    pub alloc: Global,
    pub tokens: &'a [Token],
    /// How many nodes may still nest.
    pub room: usize,
    /// Reads what is one node further in.
    pub nested: F,
}

/// How many nodes may nest in the parts of a node that the token at a place opens, a part of which has this nest.
pub fn within(nest: usize, room: usize, at: usize) -> Result<usize, Fault>
    ensures { Guards nest room at result }
{
    if nest < room {
        Ok(room - 1)
    } else {
        Err(Fault::TooDeep(at))
    }
}

impl<'a, F: Fn(Global, &[Token], usize, Wanted, usize) -> Result<Found, Fault>> Grammar<'a, F> {
    /// An expression of a level, one node further in.
    pub(crate) fn inner_level(&self, at: usize, level: Level) -> Result<Part, Fault>
        requires nests { Nests self.now.room (F.pre self.now.nested) (F.post self.now.nested) }
        requires room { 0 < self.now.room }
        requires small { self.now.room < 2 ^ 32 }
        ensures { FindsLevel self.now.tokens.now (self.now.room - 1) level at result }
    {
        match (self.nested)(
            self.alloc,
            self.tokens,
            at,
            Wanted::Level(level),
            self.room - 1,
        )? {
            Found::Part(part) => Ok(part),
            Found::Parts(_) | Found::Block(_) => unreachable!(),
        }
    }

    /// Any expression, one node further in.
    pub fn inner_expr(&self, at: usize) -> Result<Part, Fault>
        requires nests { Nests self.now.room (F.pre self.now.nested) (F.post self.now.nested) }
        requires room { 0 < self.now.room }
        requires small { self.now.room < 2 ^ 32 }
        ensures { FindsLevel self.now.tokens.now (self.now.room - 1) (Level.Of Rank.Ors) at result }
    {
        self.inner_level(at, Level::Of(Rank::Ors))
    }

    /// What an operator before one operand takes, one node further in.
    pub(crate) fn inner_unary(&self, at: usize) -> Result<Part, Fault>
        requires nests { Nests self.now.room (F.pre self.now.nested) (F.post self.now.nested) }
        requires room { 0 < self.now.room }
        requires small { self.now.room < 2 ^ 32 }
        ensures { FindsUnary self.now.tokens.now (self.now.room - 1) at result }
    {
        match (self.nested)(self.alloc, self.tokens, at, Wanted::Unary, self.room - 1)? {
            Found::Part(part) => Ok(part),
            Found::Parts(_) | Found::Block(_) => unreachable!(),
        }
    }

    /// A table, one node further in.
    pub(crate) fn inner_table(&self, at: usize) -> Result<Part, Fault>
        requires nests { Nests self.now.room (F.pre self.now.nested) (F.post self.now.nested) }
        requires room { 0 < self.now.room }
        requires small { self.now.room < 2 ^ 32 }
        requires stands { Has self.now.tokens.now at OpenBrace }
        ensures { FindsTable self.now.tokens.now (self.now.room - 1) at result }
    {
        match (self.nested)(self.alloc, self.tokens, at, Wanted::Table, self.room - 1)? {
            Found::Part(part) => Ok(part),
            Found::Parts(_) | Found::Block(_) => unreachable!(),
        }
    }

    /// Expressions with commas between, one node further in.
    pub fn inner_list(&self, at: usize) -> Result<Parts, Fault>
        requires nests { Nests self.now.room (F.pre self.now.nested) (F.post self.now.nested) }
        requires room { 0 < self.now.room }
        requires small { self.now.room < 2 ^ 32 }
        ensures { FindsList self.now.tokens.now (self.now.room - 1) at result }
    {
        match (self.nested)(self.alloc, self.tokens, at, Wanted::List, self.room - 1)? {
            Found::Parts(parts) => Ok(parts),
            Found::Part(_) | Found::Block(_) => unreachable!(),
        }
    }

    /// A block, one node further in.
    pub fn inner_block(&self, at: usize) -> Result<Block, Fault>
        requires nests { Nests self.now.room (F.pre self.now.nested) (F.post self.now.nested) }
        requires room { 0 < self.now.room }
        requires small { self.now.room < 2 ^ 32 }
        ensures { FindsBlock self.now.tokens.now (self.now.room - 1) at result }
    {
        match (self.nested)(self.alloc, self.tokens, at, Wanted::Block, self.room - 1)? {
            Found::Block(block) => Ok(block),
            Found::Part(_) | Found::Parts(_) => unreachable!(),
        }
    }
}
