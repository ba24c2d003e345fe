//! Sums, differences and products, which stop where the exact result is out of range.

ghost use Rattle.std.specs.Prelude.{◌≡◌, ◌+ℤ◌, ◌-ℤ◌, ◌*ℤ◌};
ghost use Rattle.whole_num.specs.Whole.{within};

use crate::whole::Whole;
use std::error::Error;
use std::fmt;

/// Why an operation on whole numbers has no result.
#[derive(Clone, Copy, PartialEq, Eq, Debug, Hash)]
pub enum Stop {
    /// The exact result is not a whole number.
    NotWhole,
    /// The exact result is a whole number below -2^53 or above 2^53.
    OutOfRange,
}

impl fmt::Display for Stop {
    ghost use Rattle.std.specs.Prelude.{Some};
    ghost use Rattle.whole_num.specs.Whole.{stop_text};

    ghost output = { λ s. Some (stop_text s) };

    fn fmt<W: fmt::Write>(&self, f: &mut fmt::Formatter<W>) -> fmt::Result {
        match self {
            Stop::NotWhole => write!(f, "not whole"),
            Stop::OutOfRange => write!(f, "out of range"),
        }
    }
}

impl Error for Stop {}

impl Whole {
    /// The exact sum, or `Stop::OutOfRange`.
    pub fn add(self, other: Whole) -> Result<Whole, Stop>
        ensures { result ≡ within (self +ℤ other) }
    {
        in_range(self.get() + other.get())
    }

    /// The exact difference, or `Stop::OutOfRange`.
    pub fn sub(self, other: Whole) -> Result<Whole, Stop>
        ensures { result ≡ within (self -ℤ other) }
    {
        in_range(self.get() - other.get())
    }

    /// The exact product, or `Stop::OutOfRange`.
    pub fn mul(self, other: Whole) -> Result<Whole, Stop>
        ensures { result ≡ within (self *ℤ other) }
    {
        let product = self.get().checked_mul(other.get()).ok_or(Stop::OutOfRange)?;
        in_range(product)
    }
}

// The number, or `Stop::OutOfRange`.
pub(crate) fn in_range(n: i64) -> Result<Whole, Stop>
    ensures { result ≡ within n }
{
    Whole::new(n).ok_or(Stop::OutOfRange)
}
