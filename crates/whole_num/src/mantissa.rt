//! The digits of a decimal number, as many as there are.

ghost use Rattle.std.specs.Prelude.{◌≡◌, ℕ, ◌+◌, ◌*◌, ◌^◌, ◌<◌, ◌≤◌, List, [], ◌∷◌, ◌++◌, length};
ghost use Rattle.std.specs.Char.{digit_value};
ghost use Rattle.whole_num.specs.Digits.{cut, Keeps, Takes};
ghost use Rattle.whole_num.specs.Literals.{without_marks};

/// What was read of some digits: a number, and how many zeros stand behind it. The number does not end in a zero, unless
/// it is 0, and it is cut at the greatest of 64 bits.
#[derive(Clone, Copy)]
pub struct Mantissa {
    kept: u64,
    zeros: u64,
    count: u64,
}

impl Mantissa {
    /// No digits.
    pub fn new() -> Mantissa
        ensures { Keeps result [] }
    {
        Mantissa {
            kept: 0,
            zeros: 0,
            count: 0,
        }
    }

    /// The number.
    pub fn kept(self) -> u64
        ensures { result ≡ self.kept }
    {
        self.kept
    }

    /// How many zeros stand behind it.
    pub fn zeros(self) -> u64
        ensures { result ≡ self.zeros }
    {
        self.zeros
    }

    /// How many digits there are.
    pub fn count(self) -> u64
        ensures { result ≡ self.count }
    {
        self.count
    }

    /// One digit more.
    fn push(&mut self, digit: u32)
        requires digit { digit < 10 }
        requires count { self.old.count < 2 ^ 63 }
        requires zeros { self.old.zeros ≤ self.old.count }
        ensures keeps { (digits : List ℕ) (b : ℕ) → digit ≡ digit_value b → Keeps self.old digits
            → Keeps self.new (digits ++ b ∷ []) }
        ensures count { self.new.count ≡ self.old.count + 1 }
        ensures zeros { self.new.zeros ≤ self.new.count }
    {
        self.count += 1;
        if digit == 0 {
            self.zeros += 1;
        } else {
            self.kept = shifted(self.kept, self.zeros + 1).saturating_add(u64::from(digit));
            self.zeros = 0;
        }
    }

    /// Takes the digits that a text begins with, and gives what follows them.
    pub fn take_digits<'a>(&mut self, text: &'a [u8]) -> &'a [u8]
        requires room { self.old.count + length text.now < 2 ^ 63 }
        requires zeros { self.old.zeros ≤ self.old.count }
        ensures takes { Takes (without_marks text.now) self.old (without_marks result.now) self.new }
        ensures room { self.new.count + length result.now ≤ self.old.count + length text.now }
        ensures zeros { self.new.zeros ≤ self.new.count }
    {
        for (i, &b) in text.iter().enumerate() {
            if b != b'_' {
                match char::from(b).to_digit(10) {
                    Some(digit) => self.push(digit),
                    None => return &text[i..],
                }
            }
        }
        &[]
    }
}

/// A number times a power of ten, cut at the greatest of 64 bits.
pub fn shifted(n: u64, power: u64) -> u64
    ensures { result ≡ cut (n * 10 ^ power) }
{
    let mut shifted = n;
    for _ in 0..power {
        shifted = shifted.saturating_mul(10);
    }
    shifted
}
