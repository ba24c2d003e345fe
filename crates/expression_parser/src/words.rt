//! Words and names that have to stand at a place.

ghost use Rattle.expression_parser.specs.Reading.{FindsWord, FindsName};

use crate::fault::Fault;
use byte_text::StrId;
use parse_steps::name_at;
use syntax_tree::Token;
use type_skip::{Word, stands};

/// The place behind a word.
pub fn expect(tokens: &[Token], at: usize, word: Word) -> Result<usize, Fault>
    ensures { FindsWord tokens.now at word result }
{
    if stands(tokens, at, word) {
        Ok(at + 1)
    } else {
        Err(Fault::Unexpected(at))
    }
}

/// A name.
pub fn expect_name(tokens: &[Token], at: usize) -> Result<StrId, Fault>
    ensures { FindsName tokens.now at result }
{
    match name_at(tokens, at) {
        Some(name) => Ok(name),
        None => Err(Fault::Unexpected(at)),
    }
}
