//! Types, which leave nothing in the tree.

ghost use Rattle.expression_parser.specs.Reading.{FindsType};

use crate::fault::Fault;
use syntax_tree::{MOST_NESTED, Token};
use type_skip::type_end;

/// The place behind a type.
pub fn type_at(tokens: &[Token], at: usize) -> Result<usize, Fault>
    ensures { FindsType tokens.now at result }
{
    match type_end(tokens, at, MOST_NESTED) {
        Ok(end) => Ok(end),
        Err(type_skip::Fault::Unexpected(place)) => Err(Fault::Unexpected(place)),
        Err(type_skip::Fault::TooDeep(place)) => Err(Fault::TooDeep(place)),
    }
}
