//! Why a host file is refused.

use resource::OutOfMemory;

/// Why no tables were made.
#[derive(Clone, Copy, PartialEq, Eq, Debug)]
pub enum HostErr {
    /// The first part that is outside the form of a host file, by its place.
    NotConstant { at: usize },
    /// The first name at the top that is one of the library or stood before, by its place.
    ClashName { at: usize },
    OutOfMemory,
}

impl From<OutOfMemory> for HostErr {
    ghost use Rattle.std.specs.Prelude.{◌≡◌};
    ghost use Rattle.frozen_libs.specs.declared.error.HostErr.TheVariants as host_err;

    ghost from_gives = { λ _ e. e ≡ host_err.OutOfMemory };

    fn from(_: OutOfMemory) -> HostErr {
        HostErr::OutOfMemory
    }
}
