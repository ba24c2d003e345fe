//! Powers, which stop where the exact result is not whole or out of range.

ghost use Rattle.std.specs.Prelude.{◌≡◌, ◌≤◌};
ghost use Rattle.std.specs.Int.{int_pow};
ghost use Rattle.std.specs.Int.RustNames.{unsigned_abs};
ghost use Rattle.whole_num.specs.Whole.{within};
ghost use Rattle.whole_num.specs.Quotients.{IsRaised, Gives, power};

use crate::arithmetic::{Stop, in_range};
use crate::whole::Whole;

impl Whole {
    /// The product of `other` factors `self`, which is 1 where `other` is 0.
    ///
    /// Where `other` is below 0 it is the number whose product with those of `-other` is 1. There is one for 1 and -1, and
    /// any other `self` is `Stop::NotWhole`. A power out of range is `Stop::OutOfRange`. It takes at most 54 products,
    /// whatever `other` is.
    pub fn pow(self, other: Whole) -> Result<Whole, Stop>
        ensures value { result ≡ power self other }
        ensures exact { Gives (IsRaised self other) result }
    {
        power(self, other.get())
    }
}

fn power(base: Whole, exponent: i64) -> Result<Whole, Stop>
    ensures { result ≡ power base exponent }
{
    let a = base.get();
    if a == 1 {
        in_range(1)
    } else if a == -1 {
        if exponent % 2 == 0 {
            in_range(1)
        } else {
            in_range(-1)
        }
    } else if exponent < 0 {
        Err(Stop::NotWhole)
    } else if a == 0 {
        if exponent == 0 {
            in_range(1)
        } else {
            in_range(0)
        }
    } else {
        raised(base, exponent.unsigned_abs())
    }
}

// The product of `count` factors, each of which doubles it at least, so that it is soon out of range.
fn raised(base: Whole, count: u64) -> Result<Whole, Stop>
    requires { 2 ≤ unsigned_abs base }
    ensures { result ≡ within (int_pow base count) }
{
    let mut power = in_range(1)?;
    for _ in 0..count {
        power = power.mul(base)?;
    }
    Ok(power)
}
