//! Why a script is refused.

ghost use Rattle.std.specs.Prelude.{◌≡◌};
ghost use Rattle.luau_parser.specs.Refusals.{refusal_of};

use std::alloc::AllocError;
use syntax_tree::{Cause, Refusal};

/// Why tokens were not read. Each place is a byte offset.
#[derive(Clone, Copy, PartialEq, Eq, Hash, Debug)]
pub enum ParseErr {
    /// No script goes on with the token at this place, or the tokens end there: then it is the end of the last one.
    Unexpected { at: usize },
    /// The constructs nest too deep, or too many brackets of a type are open.
    TooDeep { at: usize },
    /// The `(` at this place opens a call's arguments on a later line than the token before it.
    AmbiguousCall { at: usize },
    /// There was no memory.
    OutOfMemory,
}

impl ParseErr {
    /// Why and where the tokens are refused. There is no refusal where memory ran out.
    pub fn refusal(self) -> Option<Refusal>
        ensures { result ≡ refusal_of self }
    {
        let (cause, at) = match self {
            ParseErr::Unexpected { at } => (Cause::Unexpected, at),
            ParseErr::TooDeep { at } => (Cause::TooDeep, at),
            ParseErr::AmbiguousCall { at } => (Cause::AmbiguousCall, at),
            ParseErr::OutOfMemory => return None,
        };
        Some(Refusal { cause, at })
    }
}

impl From<AllocError> for ParseErr {
    ghost use Rattle.std.specs.Prelude.{◌≡◌};
    ghost use Rattle.luau_parser.specs.declared.error.ParseErr.TheVariants.{OutOfMemory};

    ghost from_gives = { λ _ e. e ≡ OutOfMemory };

    fn from(_: AllocError) -> ParseErr {
        ParseErr::OutOfMemory
    }
}
