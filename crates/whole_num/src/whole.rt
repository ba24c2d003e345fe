//! A number in range.

ghost use Rattle.std.specs.Prelude.{◌≡◌, neg_ℤ, SomeIff};
ghost use Rattle.whole_num.specs.Whole.{IsWhole};

use std::marker::Model;

/// A whole number from `Whole::LEAST` to `Whole::GREATEST`.
#[derive(Clone, Copy, PartialEq, Eq, PartialOrd, Ord, Hash, Debug)]
pub struct Whole {
    value: i64,
}

impl Model for Whole {
    ghost use Rattle.std.specs.Prelude.{ℤ};
    ghost use Rattle.whole_num.specs.Whole.{IsWhole};

    ghost Value = { ℤ };

    ghost view = { λ w. w.value };

    ghost inverse = { λ n. record { value = n } };

    ghost invariant = { λ w. IsWhole w.value };
}

impl Whole {
    /// The least number in range, -2^53.
    pub const LEAST: i64 = -9_007_199_254_740_992;

    /// The greatest number in range, 2^53.
    pub const GREATEST: i64 = 9_007_199_254_740_992;

    /// The number, or `None` exactly where `n` is out of range.
    pub fn new(n: i64) -> Option<Whole>
        ensures { SomeIff result (IsWhole n) n }
    {
        if Whole::LEAST <= n && n <= Whole::GREATEST {
            Some(Whole { value: n })
        } else {
            None
        }
    }

    /// The number as an integer of 64 bits.
    pub fn get(self) -> i64
        ensures value { result ≡ self }
        ensures range { IsWhole result }
    {
        self.value
    }

    /// The number with the other sign. 0 has none and stays.
    pub fn neg(self) -> Whole
        ensures { result ≡ neg_ℤ self }
    {
        Whole { value: -self.value }
    }
}
