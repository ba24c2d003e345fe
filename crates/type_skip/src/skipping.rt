//! The end of a type.

ghost use Rattle.std.specs.Prelude.{◌≡◌, ℕ, List, Ok, Err, unwrap_or};
ghost use Rattle.syntax_tree.specs.declared.token.Token.{Token};
ghost use Rattle.syntax_tree.specs.Types.{IsType};
ghost use Rattle.type_skip.specs.Refusals.{most, IsTooDeep, Passes};
ghost use Rattle.syntax_tree.specs.Places.{offset_at, end_of};
ghost use Rattle.type_skip.specs.declared.skipping.TypeErr.TheVariants.{TooDeep};

use crate::fault::Fault;
use crate::parts::type_end;
use syntax_tree::{MOST_NESTED, Token};

/// Why no type was passed. Each has the offset of the token's first byte.
#[derive(Clone, Copy, PartialEq, Eq, Hash, Debug)]
pub enum TypeErr {
    /// No type goes on with this token. Where the tokens end too early, this is the end of the last one, and 0 without one.
    Unexpected { at: usize },
    /// With this bracket more than [`MOST_NESTED`] brackets of the type are open.
    TooDeep { at: usize },
}

/// The index behind the type that begins at an index. It takes no memory.
pub fn skip_type(tokens: &[Token], at: usize) -> Result<usize, TypeErr>
    ensures answer { Passes tokens.now at result }
    // A type with no more open brackets is passed.
    ensures found { (to : ℕ) → IsType tokens.now most at to → result ≡ Ok to }
    // A bracket too many is refused.
    ensures deep { (offset : ℕ) → IsTooDeep tokens.now at offset → result ≡ Err (TooDeep offset) }
{
    match type_end(tokens, at, MOST_NESTED) {
        Ok(end) => Ok(end),
        Err(Fault::Unexpected(place)) => Err(TypeErr::Unexpected {
            at: offset_at(tokens, place),
        }),
        Err(Fault::TooDeep(place)) => Err(TypeErr::TooDeep {
            at: offset_at(tokens, place),
        }),
    }
}

// The offset of a token, or of the end of all.
fn offset_at(tokens: &[Token], place: usize) -> usize
    ensures { result ≡ unwrap_or (offset_at tokens.now place) (end_of tokens.now) }
{
    match tokens.get(place) {
        Some(token) => token.at,
        None => end_of(tokens),
    }
}

// Where the last token ends.
fn end_of(tokens: &[Token]) -> usize
    ensures { result ≡ end_of tokens.now }
{
    match tokens.last() {
        Some(token) => token.end,
        None => 0,
    }
}

/// A type that begins at a place ends at one place.
pub fn one_type()
    ensures { (ts : List Token) (n m i j k : ℕ) → IsType ts n i j → IsType ts m i k → j ≡ k }
{}
