//! Why a part of a type cannot be read.

ghost use Rattle.std.specs.Prelude.{◌≡◌, ◌+◌, MatchResult};
ghost use Rattle.syntax_tree.specs.Places.{Has, Lacks};
ghost use Rattle.type_skip.specs.Words.{token_of};
ghost use Rattle.type_skip.specs.declared.fault.Fault.TheVariants.{Unexpected, TooDeep};

use crate::words::{Word, stands};
use syntax_tree::Token;

/// Why a part of a type cannot be read, with the place of its token in the token list.
#[derive(Clone, Copy)]
pub enum Fault {
    /// No type goes on with this token, or the tokens end here.
    Unexpected(usize),
    /// This bracket is one too many that is open.
    TooDeep(usize),
}

/// How many brackets may be opened in the one at a place.
pub(crate) fn opened(at: usize, room: usize) -> Result<usize, Fault>
    ensures { MatchResult result (λ inner. inner + 1 ≡ room) (λ e. (room ≡ 0) × (e ≡ TooDeep at)) }
{
    if room == 0 {
        Err(Fault::TooDeep(at))
    } else {
        Ok(room - 1)
    }
}

/// The place behind a symbol, which is to stand there.
pub(crate) fn closed(tokens: &[Token], at: usize, close: Word) -> Result<usize, Fault>
    ensures { MatchResult result (λ behind. Has tokens.now at (token_of close) × (behind ≡ at + 1)) (λ e. Lacks tokens.now at (token_of close) × (e ≡ Unexpected at)) }
{
    if stands(tokens, at, close) {
        Ok(at + 1)
    } else {
        Err(Fault::Unexpected(at))
    }
}
