//! Number literals.

ghost use Rattle.std.specs.Prelude.{◌≡◌, ℕ, ◌+◌, ◌^◌, ◌<◌, ◌≤◌, List, [], ◌∷◌, length, IfSome, MatchOption, ◌⊎◌};
ghost use Rattle.std.specs.Str.Parse.{IsNumeral, digits_value};
ghost use Rattle.whole_num.specs.Digits.{cut, Keeps, TakesFraction, HasPowers, radix_of, NamesBase, AnswersDecimal};
ghost use Rattle.whole_num.specs.Literals.{without_marks, Scaled, IsTheWhole, IsExponent, IsPower, Answers, ReadsLiteral};

use crate::mantissa::{Mantissa, shifted};
use crate::whole::Whole;

/// What a text is, read as a number.
#[derive(Clone, Copy, PartialEq, Eq, Debug)]
pub enum Read {
    /// A whole number in range.
    Whole(Whole),
    /// A number that is not whole.
    NotWhole,
    /// A whole number that is out of range.
    OutOfRange,
    /// No number.
    NotNumber,
}

/// Reads a number literal of any length, by its exact value.
///
/// `_` counts for nothing. What is left is decimal digits with an optional fraction and an optional exponent, or `0x`
/// or `0X` and hexadecimal digits, or `0b` or `0B` and binary digits; any other text is `NotNumber`.
pub fn read_literal(bytes: &[u8]) -> Read
    // It is read as the definition says,
    ensures reads { ReadsLiteral bytes.now result }
    // and in no other way.
    ensures only { (other : Read) → ReadsLiteral bytes.now other → other ≡ result }
{
    match base(bytes) {
        Some((radix, digits)) => match numeral(digits, radix) {
            Some(n) => in_range(n),
            None => Read::NotNumber,
        },
        None => decimal(bytes),
    }
}

// A number, which was cut at the greatest of 64 bits.
pub(crate) fn in_range(n: u64) -> Read
    ensures { (value : Scaled) (exact : ℕ) → IsTheWhole value exact → n ≡ cut exact → Answers value result }
{
    if n <= 1 << 53 {
        match Whole::new(n as i64) {
            Some(whole) => Read::Whole(whole),
            None => Read::OutOfRange,
        }
    } else {
        Read::OutOfRange
    }
}

// Reads a decimal literal.
pub(crate) fn decimal(text: &[u8]) -> Read
    ensures { AnswersDecimal (without_marks text.now) result }
{
    let mut mantissa = Mantissa::new();
    let rest = mantissa.take_digits(text);
    let before_point = mantissa.count();
    let rest = take_fraction(rest, &mut mantissa);
    if mantissa.count() == 0 {
        return Read::NotNumber;
    }
    let behind_point = mantissa.count() - before_point;
    match exponent_of(rest) {
        Some(e) => scaled(mantissa, e.up, e.down.saturating_add(behind_point)),
        None => Read::NotNumber,
    }
}

// Takes the fraction that a text begins with, if there is one, and gives what follows it.
fn take_fraction<'a>(text: &'a [u8], mantissa: &mut Mantissa) -> &'a [u8]
    requires room { mantissa.old.count + length text.now < 2 ^ 63 }
    requires zeros { mantissa.old.zeros ≤ mantissa.old.count }
    ensures takes { TakesFraction (without_marks text.now) mantissa.old (without_marks result.now) mantissa.new }
    ensures room { mantissa.new.count < 2 ^ 63 }
    ensures zeros { mantissa.new.zeros ≤ mantissa.new.count }
{
    match first(text) {
        Some((b, digits)) if b == b'.' => mantissa.take_digits(digits),
        _ => text,
    }
}

// The number that the digits write, times ten to the power `up`, divided by ten to the power `down`.
fn scaled(mantissa: Mantissa, up: u64, down: u64) -> Read
    requires { mantissa.zeros < 2 ^ 63 }
    ensures { (digits : List ℕ) (all_up all_down : ℕ) → Keeps mantissa digits → up ≡ cut all_up
        → down ≡ cut all_down → (all_up ≡ 0) ⊎ (all_down < 2 ^ 63)
        → Answers (record { mantissa = digits_value 10 digits; up = all_up; down = all_down }) result }
{
    let up = up.saturating_add(mantissa.zeros());
    if mantissa.kept() == 0 {
        in_range(0)
    } else if up < down {
        Read::NotWhole
    } else {
        in_range(shifted(mantissa.kept(), (up - down).min(20)))
    }
}

// The powers of ten of an exponent, each cut at the greatest of 64 bits.
#[derive(Clone, Copy)]
struct Exponent {
    up: u64,
    down: u64,
}

// Reads an exponent, which goes to the end of the text.
fn exponent_of(text: &[u8]) -> Option<Exponent>
    ensures { MatchOption result ((up down : ℕ) → IsExponent (without_marks text.now) up down → ⊥)
        (HasPowers (IsExponent (without_marks text.now))) }
{
    match first(text) {
        None => Some(Exponent { up: 0, down: 0 }),
        Some((mark, power)) => {
            if mark == b'e' || mark == b'E' {
                power_of(power)
            } else {
                None
            }
        }
    }
}

// Reads an optional sign and digits, which go to the end of the text.
fn power_of(text: &[u8]) -> Option<Exponent>
    ensures { MatchOption result ((up down : ℕ) → IsPower (without_marks text.now) up down → ⊥)
        (HasPowers (IsPower (without_marks text.now))) }
{
    let (sign, digits) = first(text)?;
    if sign == b'-' {
        let down = numeral(digits, 10)?;
        Some(Exponent { up: 0, down })
    } else if sign == b'+' {
        let up = numeral(digits, 10)?;
        Some(Exponent { up, down: 0 })
    } else {
        let up = numeral(text, 10)?;
        Some(Exponent { up, down: 0 })
    }
}

// The base that a text names by a `0` and a letter, with what follows.
fn base(text: &[u8]) -> Option<(u32, &[u8])>
    ensures { MatchOption result ((radix : ℕ) (digits : List ℕ) → NamesBase (without_marks text.now) radix digits → ⊥)
        (λ found. NamesBase (without_marks text.now) found.0 (without_marks found.1.now)) }
{
    let (zero, rest) = first(text)?;
    let (letter, digits) = first(rest)?;
    let radix = radix_of(letter)?;
    if zero == b'0' {
        Some((radix, digits))
    } else {
        None
    }
}

// The base that a letter names.
fn radix_of(letter: u8) -> Option<u32>
    ensures { result ≡ radix_of letter }
{
    match letter {
        b'x' | b'X' => Some(16),
        b'b' | b'B' => Some(2),
        _ => None,
    }
}

// Reads digits of a base, which go to the end of the text. The number is cut at the greatest of 64 bits.
pub(crate) fn numeral(text: &[u8], radix: u32) -> Option<u64>
    requires low { 2 ≤ radix }
    requires high { radix ≤ 36 }
    ensures { MatchOption result (IsNumeral radix (without_marks text.now) → ⊥)
        (λ n. IsNumeral radix (without_marks text.now) × (n ≡ cut (digits_value radix (without_marks text.now)))) }
{
    first(text)?;
    let mut value = 0u64;
    for &b in text {
        if b != b'_' {
            let digit = char::from(b).to_digit(radix)?;
            value = value
                .saturating_mul(u64::from(radix))
                .saturating_add(u64::from(digit));
        }
    }
    Some(value)
}

// The first byte that is no `_`, and what follows it.
fn first(text: &[u8]) -> Option<(u8, &[u8])>
    ensures found { MatchOption result (without_marks text.now ≡ [])
        (λ found. without_marks text.now ≡ found.0 ∷ without_marks found.1.now) }
    ensures shorter { IfSome result (λ found. length found.1.now < length text.now) }
{
    for (i, &b) in text.iter().enumerate() {
        if b != b'_' {
            return Some((b, &text[i + 1..]));
        }
    }
    None
}
