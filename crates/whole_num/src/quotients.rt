//! Quotients and remainders, which stop where the divisor is 0.

ghost use Rattle.std.specs.Prelude.{◌≡◌, ◌≢◌, ℤ, pos};
ghost use Rattle.whole_num.specs.Whole.{IsWhole};
ghost use Rattle.whole_num.specs.Quotients.{IsQuotient, IsDivided, Gives, floor_quotient, floor_remainder, exact_quotient, whole_quotient, whole_remainder};

use crate::arithmetic::{Stop, in_range};
use crate::whole::Whole;

impl Whole {
    /// The number whose product with `other` is `self`. It is `Stop::NotWhole` where there is none, and where `other` is 0.
    pub fn div(self, other: Whole) -> Result<Whole, Stop>
        ensures value { result ≡ exact_quotient self other }
        ensures exact { Gives (IsQuotient self other) result }
    {
        let (a, b) = (self.get(), other.get());
        if b == 0 {
            return Err(Stop::NotWhole);
        }
        if floor_remainder(a, b) == 0 {
            in_range(floor_quotient(a, b))
        } else {
            Err(Stop::NotWhole)
        }
    }

    /// The quotient rounded down, or `Stop::NotWhole` where `other` is 0.
    ///
    /// It is the c with `self = c * other + d` and d between 0 and `other`, `other` excluded.
    pub fn idiv(self, other: Whole) -> Result<Whole, Stop>
        ensures value { result ≡ whole_quotient self other }
        ensures exact { Gives (λ c. (d : ℤ) × IsDivided self other c d) result }
    {
        let (a, b) = (self.get(), other.get());
        if b == 0 {
            return Err(Stop::NotWhole);
        }
        in_range(floor_quotient(a, b))
    }

    /// What the quotient rounded down leaves, or `Stop::NotWhole` where `other` is 0.
    ///
    /// It is the d with `self = c * other + d` and d between 0 and `other`, `other` excluded: its sign is that of `other`.
    pub fn modulo(self, other: Whole) -> Result<Whole, Stop>
        ensures value { result ≡ whole_remainder self other }
        ensures exact { Gives (λ d. (c : ℤ) × IsDivided self other c d) result }
    {
        let (a, b) = (self.get(), other.get());
        if b == 0 {
            return Err(Stop::NotWhole);
        }
        in_range(floor_remainder(a, b))
    }
}

// The quotient rounded down: one less than that rounded to 0, where what that leaves has another sign than `b`.
fn floor_quotient(a: i64, b: i64) -> i64
    requires range { IsWhole a }
    requires divisor { b ≢ pos 0 }
    ensures { result ≡ floor_quotient a b }
{
    let remainder = a % b;
    if remainder != 0 && (remainder < 0) != (b < 0) {
        a / b - 1
    } else {
        a / b
    }
}

// What the quotient rounded down leaves: `b` more than what that rounded to 0 leaves, where that has another sign.
fn floor_remainder(a: i64, b: i64) -> i64
    requires range { IsWhole a }
    requires divisor { b ≢ pos 0 }
    ensures { result ≡ floor_remainder a b }
{
    let remainder = a % b;
    if remainder != 0 && (remainder < 0) != (b < 0) {
        remainder + b
    } else {
        remainder
    }
}
