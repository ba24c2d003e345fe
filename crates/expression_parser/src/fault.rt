//! Why a part of a script is not read.

use std::alloc::AllocError;

/// The place in the token list of the token at which reading stops, and why.
#[derive(Clone, Copy)]
pub enum Fault {
    /// Nothing goes on with it; or the tokens end there.
    Unexpected(usize),
    /// It opens a node or a bracket of a type too many.
    TooDeep(usize),
    /// It opens arguments on a later line than the token before it.
    Late(usize),
    OutOfMemory,
}

impl From<AllocError> for Fault {
    ghost use Rattle.std.specs.Prelude.{◌≡◌};
    ghost use Rattle.expression_parser.specs.declared.fault.Fault.TheVariants.{OutOfMemory};

    ghost from_gives = { λ _ e. e ≡ OutOfMemory };

    fn from(_: AllocError) -> Fault {
        Fault::OutOfMemory
    }
}
