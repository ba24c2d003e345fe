//! Why a text has no tokens.

ghost use Rattle.std.specs.Prelude.{◌≡◌};
ghost use Rattle.luau_lexer.specs.Refusals.{refusal_of};

use resource::OutOfMemory;
use std::alloc::{AllocError, AllocFailed};
use syntax_tree::{Cause, Refusal};

/// Why a text has no tokens. Each `at` is an offset in bytes from 0.
#[derive(Clone, Copy, PartialEq, Eq, Debug)]
pub enum LexErr {
    /// A byte begins no token.
    BadByte { at: usize },
    /// A string has no end. The place is its opening quote or bracket; of a piece of an interpolated string the
    /// backquote or the `}` that begins it.
    UnfinishedString { at: usize },
    /// An escape is malformed. The place is its backslash.
    BadEscape { at: usize },
    /// A long comment has no end. The place is its first `-`.
    UnfinishedComment { at: usize },
    /// A number is malformed. The place is its first byte, in the next two too.
    BadNumber { at: usize },
    /// A number is not whole.
    NotWholeLiteral { at: usize },
    /// A number is whole and above 2^53.
    LiteralRange { at: usize },
    /// `{{` stands in an interpolated string. The place is the first of the two.
    DoubleBrace { at: usize },
    /// There was no memory left. It says nothing of the text.
    OutOfMemory,
}

impl LexErr {
    /// Why and where the text is refused. There is no refusal where memory ran out.
    pub fn refusal(self) -> Option<Refusal>
        ensures { result ≡ refusal_of self }
    {
        let (cause, at) = match self {
            LexErr::BadByte { at } => (Cause::BadByte, at),
            LexErr::UnfinishedString { at } => (Cause::UnfinishedString, at),
            LexErr::BadEscape { at } => (Cause::BadEscape, at),
            LexErr::UnfinishedComment { at } => (Cause::UnfinishedComment, at),
            LexErr::BadNumber { at } => (Cause::BadNumber, at),
            LexErr::NotWholeLiteral { at } => (Cause::NotWholeLiteral, at),
            LexErr::LiteralRange { at } => (Cause::LiteralRange, at),
            LexErr::DoubleBrace { at } => (Cause::DoubleBrace, at),
            LexErr::OutOfMemory => return None,
        };
        Some(Refusal { cause, at })
    }
}

impl From<OutOfMemory> for LexErr {
    ghost use Rattle.std.specs.Prelude.{◌≡◌};
    ghost use Rattle.luau_lexer.specs.declared.error.LexErr.TheVariants as errors;

    ghost from_gives = { λ _ e. e ≡ errors.OutOfMemory };

    fn from(_: OutOfMemory) -> LexErr {
        LexErr::OutOfMemory
    }
}

impl From<AllocError> for LexErr {
    ghost use Rattle.std.specs.Prelude.{◌≡◌};
    ghost use Rattle.luau_lexer.specs.declared.error.LexErr.TheVariants as errors;

    ghost from_gives = { λ _ e. e ≡ errors.OutOfMemory };

    fn from(_: AllocError) -> LexErr {
        LexErr::OutOfMemory
    }
}

impl<T: Drop> From<AllocFailed<T>> for LexErr {
    ghost use Rattle.std.specs.Prelude.{◌≡◌};
    ghost use Rattle.luau_lexer.specs.declared.error.LexErr.TheVariants as errors;

    ghost from_gives = { λ _ e. e ≡ errors.OutOfMemory };

    fn from(_: AllocFailed<T>) -> LexErr {
        LexErr::OutOfMemory
    }
}
