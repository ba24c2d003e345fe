//! Binary operators.

ghost use Rattle.std.specs.Prelude.{◌≡◌, ◌<◌, ◌≤◌, ◌^◌, length};
ghost use Rattle.expression_parser.specs.Reading.{Nests};
ghost use Rattle.expression_parser.specs.Inner.{FindsOperations};

use crate::fault::Fault;
use crate::grammar::{Grammar, within};
use crate::nodes::binary;
use crate::parts::{Found, Part, Wanted};
use parse_steps::{Rank, next_level, operator_at};
use std::alloc::Global;
use syntax_tree::Token;

impl<'a, F: Fn(Global, &[Token], usize, Wanted, usize) -> Result<Found, Fault>> Grammar<'a, F> {
    /// The operators of a rank, with their right operands, behind a left part that begins at a place.
    pub(crate) fn operations(&self, begin: usize, rank: Rank, part: Part) -> Result<Part, Fault>
        requires nests { Nests self.now.room (F.pre self.now.nested) (F.post self.now.nested) }
        requires nest { part.nest ≤ self.now.room }
        requires room { self.now.room < 2 ^ 32 }
        ensures { FindsOperations self.now.tokens.now self.now.room rank begin part result }
    {
        let mut left = part;
        loop {
            let Some(op) = operator_at(self.tokens, left.end, rank) else {
                return Ok(left);
            };
            within(left.nest, self.room, left.end)?;
            let right = self.inner_level(left.end + 1, next_level(rank))?;
            left = binary(self.alloc, self.tokens, begin, op, left, right)?;
        }
    }
}
