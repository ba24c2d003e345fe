//! Texts that are read as numbers at run time.

ghost use Rattle.std.specs.Prelude.{◌≡◌, ◌≤◌, option_map};
ghost use Rattle.whole_num.specs.NumberGrammar.{ReadsText};
ghost use Rattle.whole_num.specs.NumberTexts.{number_of, is_blank, is_visible, front, behind, without_blanks_before, unsigned_number, signed_number, numeral_number, negated, read_number, read_with_base};

use crate::literal::{Read, decimal, in_range, numeral};

/// Reads a text of any length as a number, by its exact value.
///
/// Blanks may stand around it: spaces, tabs, LF, VT, FF and CR. Between them stand an optional `-` or `+`, and then decimal
/// digits with an optional fraction and an optional exponent, or `0x` and hexadecimal digits; any other text is `NotNumber`.
pub fn read(bytes: &[u8]) -> Read
    // It is read as the grammar says,
    ensures reads { ReadsText bytes.now result }
    // in no other way,
    ensures only { (other : Read) → ReadsText bytes.now other → other ≡ result }
    // and as a function computes it.
    ensures value { number_of result ≡ read_number bytes.now }
{
    let (word, rest) = first_word(behind_blanks(bytes));
    if behind_blanks(rest).is_empty() {
        signed(word)
    } else {
        Read::NotNumber
    }
}

/// Reads a text as a number in a base: it may begin with blanks, and with a `-` then; digits of the base follow, with letters of
/// either case, and nothing else.
#[tactic(auto, unfolding(crate::specs::NumberTexts::read_with_base))]
pub fn read_with_base(bytes: &[u8], radix: u32) -> Read
    requires low { 2 ≤ radix }
    requires high { radix ≤ 36 }
    ensures { number_of result ≡ read_with_base radix bytes.now }
{
    let text = behind_blanks(bytes);
    match text.split_first() {
        Some((b'-', digits)) => negated(digits_in(digits, radix)),
        _ => digits_in(text, radix),
    }
}

// Reads digits of a base. The readers of literals pass over each `_`, which no number has here.
fn digits_in(text: &[u8], radix: u32) -> Read
    requires low { 2 ≤ radix }
    requires high { radix ≤ 36 }
    ensures { number_of result ≡ numeral_number radix text.now }
{
    if text.contains(&b'_') {
        return Read::NotNumber;
    }
    match numeral(text, radix) {
        Some(n) => in_range(n),
        None => Read::NotNumber,
    }
}

// Space, tab, LF, VT, FF or CR.
fn is_blank(b: u8) -> bool
    ensures { result ≡ is_blank b }
{
    matches!(b, b' ' | 9..=13)
}

// What follows the blanks that a text begins with.
fn behind_blanks(text: &[u8]) -> &[u8]
    ensures { result.now ≡ without_blanks_before text.now }
{
    for (i, &b) in text.iter().enumerate() {
        if !is_blank(b) {
            return &text[i..];
        }
    }
    &[]
}

// The bytes before the first blank, and the others.
fn first_word(text: &[u8]) -> (&[u8], &[u8])
    ensures word { result.0.now ≡ front is_visible text.now }
    ensures rest { result.1.now ≡ behind is_visible text.now }
{
    for (i, &b) in text.iter().enumerate() {
        if is_blank(b) {
            return text.split_at(i);
        }
    }
    (text, &[])
}

// Reads a number with an optional sign.
fn signed(word: &[u8]) -> Read
    ensures { number_of result ≡ signed_number word.now }
{
    match word.split_first() {
        Some((b'-', number)) => negated(unsigned(number)),
        Some((b'+', number)) => unsigned(number),
        _ => unsigned(word),
    }
}

// The opposite of a number in range.
fn negated(number: Read) -> Read
    ensures { number_of result ≡ option_map negated (number_of number) }
{
    match number {
        Read::Whole(whole) => Read::Whole(whole.neg()),
        other => other,
    }
}

// Reads a number without a sign. The readers of literals pass over each `_`, which no number has here.
fn unsigned(text: &[u8]) -> Read
    ensures { number_of result ≡ unsigned_number text.now }
{
    if text.contains(&b'_') {
        Read::NotNumber
    } else if text.starts_with(b"0x") {
        match numeral(&text[2..], 16) {
            Some(n) => in_range(n),
            None => Read::NotNumber,
        }
    } else {
        decimal(text)
    }
}
