//! What stands in strings.

ghost use Rattle.std.specs.Prelude.{◌≡◌, ◌+◌, ◌++◌, ◌≤◌, ◌<◌, ◌%◌, ◌^◌, length, drop, IfOk, OnOk};
ghost use Rattle.std.specs.List.{prefix_len};
ghost use Rattle.std.specs.Str.Parse.{AllDigits, digits_value};
ghost use Rattle.std.specs.Char.{digit_value};
ghost use Rattle.syntax_tree.specs.Bytes.{is_digit, is_hex_digit};
ghost use Rattle.syntax_tree.specs.Strings.{utf8, escaped, decimal_escape, hex_escape, code_digits, code_escape, escape, part_at, raw_escape, raw_part_at, HasBody, long_text, unix_lines};
ghost use Rattle.luau_lexer.specs.Parts.{meant, part_of, ends_at, body_of, IsMeaning, IsWithin, IsBodyWithin, IsBroken};
ghost use Rattle.luau_lexer.specs.declared.strings.Meaning.TheVariants as meaning;
ghost use Rattle.luau_lexer.specs.declared.strings.Part.TheVariants as found;

use crate::bytes::{begins_with, is_digit, is_hex_digit};
use crate::gaps::blanks_len;
use resource::OutOfMemory;
use std::alloc::Global;

/// Where a string ends.
#[derive(Clone, Copy)]
pub(crate) enum End {
    /// At a quote of this kind.
    Quote(u8),
    /// At a backquote, or at the `{` of an expression.
    Piece,
}

/// What bytes of a string stand for.
#[derive(Clone, Copy)]
pub(crate) enum Meaning {
    Nothing,
    Byte(u8),
    /// A code point, in UTF-8.
    Code(u32),
}

/// What stands at a place in a string.
#[derive(Clone, Copy)]
pub(crate) enum Part {
    /// So many bytes that mean something.
    Inner { len: usize, meaning: Meaning },
    /// The byte that ends the string.
    Closing,
    /// A malformed escape.
    Malformed,
    /// A line's end, or the text's.
    Unfinished,
}

/// What stands behind the opening of a string.
#[derive(Drop)]
pub(crate) enum Body {
    /// The text, and how many bytes spell it. The byte that ends the string stands behind them.
    Closed { text: Vec<u8>, len: usize },
    /// The string has no end.
    Unclosed,
    /// The string has an end. A malformed escape stands at this offset, the first one.
    Broken(usize),
}

// Reads the body of a string.
pub(crate) fn read_body(alloc: Global, bytes: &[u8], end: End) -> Result<Body, OutOfMemory>
    ensures value { IfOk result (λ b. HasBody (ends_at end) bytes.now (body_of b)) }
    ensures within { IfOk result (λ b. IsBodyWithin b (length bytes.now)) }
{
    let mut text = Vec::new(alloc);
    let mut len = 0;
    loop {
        let (_, rest) = bytes.split_at(len);
        match part_at(rest, end) {
            Part::Inner { len: n, meaning } => {
                append(&mut text, meaning)?;
                len += n;
            }
            Part::Closing => return Ok(Body::Closed { text, len }),
            Part::Malformed => return Ok(broken_at(bytes, len, end)),
            Part::Unfinished => return Ok(Body::Unclosed),
        }
    }
}

// The body of a string whose first malformed escape stands at an offset: whether the string has an end.
fn broken_at(bytes: &[u8], offset: usize, end: End) -> Body
    requires { offset ≤ length bytes.now }
    ensures value { IsBroken (ends_at end) (drop offset bytes.now) offset (body_of result) }
    ensures within { IsBodyWithin result (length bytes.now) }
{
    let mut len = offset;
    loop {
        let (_, rest) = bytes.split_at(len);
        match raw_part_at(rest, end) {
            Part::Inner { len: n, .. } => len += n,
            Part::Closing => return Body::Broken(offset),
            _ => return Body::Unclosed,
        }
    }
}

// Appends what bytes of a string stand for.
fn append(text: &mut Vec<u8>, meaning: Meaning) -> Result<(), OutOfMemory>
    requires { IsMeaning meaning }
    ensures { OnOk result (text.new.items ≡ text.old.items ++ meant meaning) }
{
    match meaning {
        Meaning::Nothing => {}
        Meaning::Byte(b) => text.push(b)?,
        Meaning::Code(code) => append_code(text, code)?,
    }
    Ok(())
}

// Appends a code point in UTF-8.
fn append_code(text: &mut Vec<u8>, code: u32) -> Result<(), OutOfMemory>
    requires { code ≤ 0x10FFFF }
    ensures { OnOk result (text.new.items ≡ text.old.items ++ utf8 code) }
{
    if code < 0x80 {
        text.push(code as u8)?;
    } else if code < 0x800 {
        text.extend_from_slice(&[0xC0 + (code / 0x40) as u8, trail(code)])?;
    } else if code < 0x10000 {
        text.extend_from_slice(&[
            0xE0 + (code / 0x1000) as u8,
            trail(code / 0x40),
            trail(code),
        ])?;
    } else {
        text.extend_from_slice(&[
            0xF0 + (code / 0x40000) as u8,
            trail(code / 0x1000),
            trail(code / 0x40),
            trail(code),
        ])?;
    }
    Ok(())
}

// A byte that is not the first of a code point, with its last six bits.
fn trail(code: u32) -> u8
    ensures { result ≡ 0x80 + code % 0x40 }
{
    0x80 + (code % 0x40) as u8
}

// What stands at a place in a string.
fn part_at(bytes: &[u8], end: End) -> Part
    ensures value { part_of result ≡ part_at (ends_at end) bytes.now }
    ensures within { IsWithin result (length bytes.now) }
{
    match bytes.split_first() {
        None => Part::Unfinished,
        Some((&b, _)) if is_end(end, b) => Part::Closing,
        Some((&b'\n', _)) => Part::Unfinished,
        Some((&b'\\', rest)) => escape(rest),
        Some((&b, _)) => byte(b, 1),
    }
}

// What stands at a place in a string behind a malformed escape.
fn raw_part_at(bytes: &[u8], end: End) -> Part
    ensures value { part_of result ≡ raw_part_at (ends_at end) bytes.now }
    ensures within { IsWithin result (length bytes.now) }
{
    match bytes.split_first() {
        None => Part::Unfinished,
        Some((&b, _)) if is_end(end, b) => Part::Closing,
        Some((&b, _)) if b == b'\n' => Part::Unfinished,
        Some((&b'\\', rest)) => raw_escape(rest),
        Some(_) => nothing(1),
    }
}

fn is_end(end: End, b: u8) -> bool
    ensures { result ≡ ends_at end b }
{
    match end {
        End::Quote(quote) => b == quote,
        End::Piece => b == b'`' || b == b'{',
    }
}

// So many bytes that stand for one byte.
fn byte(b: u8, len: usize) -> Part
    ensures { result ≡ found.Inner len (meaning.Byte b) }
{
    Part::Inner {
        len,
        meaning: Meaning::Byte(b),
    }
}

// So many bytes that stand for nothing.
fn nothing(len: usize) -> Part
    ensures { result ≡ found.Inner len meaning.Nothing }
{
    Part::Inner {
        len,
        meaning: Meaning::Nothing,
    }
}

// What follows a backslash. The lengths count the backslash.
fn escape(bytes: &[u8]) -> Part
    ensures value { part_of result ≡ escape bytes.now }
    ensures within { IsWithin result (length bytes.now + 1) }
{
    match bytes.split_first() {
        None => Part::Unfinished,
        Some((&c, _)) if is_digit(c) => decimal_escape(bytes),
        Some((&b'x', rest)) => hex_escape(rest),
        Some((&b'u', rest)) => code_escape(rest),
        Some((&b'z', rest)) => nothing(2 + blanks_len(rest)),
        Some((&b'\r', rest)) if begins_with(rest, b'\n') => byte(b'\n', 3),
        Some((&c, _)) => byte(escaped(c), 2),
    }
}

// The same behind a malformed escape.
fn raw_escape(bytes: &[u8]) -> Part
    ensures value { part_of result ≡ raw_escape bytes.now }
    ensures within { IsWithin result (length bytes.now + 1) }
{
    match bytes.split_first() {
        None => Part::Unfinished,
        Some((&b'z', rest)) => nothing(2 + blanks_len(rest)),
        Some((&b'\r', rest)) if begins_with(rest, b'\n') => nothing(3),
        Some(_) => nothing(2),
    }
}

// The byte that a backslash and a byte stand for.
fn escaped(c: u8) -> u8
    ensures { result ≡ escaped c }
{
    match c {
        b'a' => 7,
        b'b' => 8,
        b'f' => 12,
        b'n' => b'\n',
        b'r' => b'\r',
        b't' => b'\t',
        b'v' => 11,
        _ => c,
    }
}

// One to three decimal digits.
fn decimal_escape(bytes: &[u8]) -> Part
    ensures value { part_of result ≡ decimal_escape bytes.now }
    ensures within { IsWithin result (length bytes.now + 1) }
{
    let len = digits_len(bytes).min(3);
    let value = value_of(&bytes[..len], 10);
    if value < 256 {
        byte(value as u8, len + 1)
    } else {
        Part::Malformed
    }
}

// Two hexadecimal digits, behind `\x`.
fn hex_escape(bytes: &[u8]) -> Part
    ensures value { part_of result ≡ hex_escape bytes.now }
    ensures within { IsWithin result (length bytes.now + 2) }
{
    if hex_digits_len(bytes) < 2 {
        return Part::Malformed;
    }
    let value = value_of(&bytes[..2], 16);
    byte(value as u8, 4)
}

// A code point in braces, behind `\u`.
fn code_escape(bytes: &[u8]) -> Part
    ensures value { part_of result ≡ code_escape bytes.now }
    ensures within { IsWithin result (length bytes.now + 2) }
{
    if begins_with(bytes, b'{') {
        code_digits(&bytes[1..])
    } else {
        Part::Malformed
    }
}

// A code point and its closing brace, behind `\u{`.
fn code_digits(bytes: &[u8]) -> Part
    ensures value { part_of result ≡ code_digits bytes.now }
    ensures within { IsWithin result (length bytes.now + 3) }
{
    let len = hex_digits_len(bytes);
    if len < 1 || len > 8 || !begins_with(&bytes[len..], b'}') {
        return Part::Malformed;
    }
    let value = value_of(&bytes[..len], 16);
    if value > 0x10FFFF {
        return Part::Malformed;
    }
    Part::Inner {
        len: len + 4,
        meaning: Meaning::Code(value as u32),
    }
}

// How many decimal digits stand at the front.
fn digits_len(bytes: &[u8]) -> usize
    ensures value { result ≡ prefix_len is_digit bytes.now }
    ensures within { result ≤ length bytes.now }
{
    bytes.iter().take_while(|&&b| is_digit(b)).count()
}

// How many hexadecimal digits stand at the front.
fn hex_digits_len(bytes: &[u8]) -> usize
    ensures value { result ≡ prefix_len is_hex_digit bytes.now }
    ensures within { result ≤ length bytes.now }
{
    bytes.iter().take_while(|&&b| is_hex_digit(b)).count()
}

// The value of a few digits, in base 10 or 16.
fn value_of(digits: &[u8], radix: u64) -> u64
    requires few { length digits.now ≤ 8 }
    requires digits { AllDigits radix digits.now }
    requires radix { (2 ≤ radix) × (radix ≤ 16) }
    ensures value { result ≡ digits_value radix digits.now }
    ensures small { result < radix ^ length digits.now }
{
    let mut value = 0;
    for b in digits {
        value = value * radix + digit_value(*b);
    }
    value
}

// The value of a digit of either case, below 36.
fn digit_value(b: u8) -> u64
    requires { digit_value b < 36 }
    ensures { result ≡ digit_value b }
{
    if b < b'A' {
        u64::from(b - b'0')
    } else if b < b'a' {
        u64::from(b - b'A') + 10
    } else {
        u64::from(b - b'a') + 10
    }
}

// The text of a long string whose brackets these bytes stand between.
pub(crate) fn long_text(alloc: Global, bytes: &[u8]) -> Result<Vec<u8>, OutOfMemory>
    ensures { IfOk result (λ text. text.items ≡ long_text bytes.now) }
{
    let mut text = unix_lines(alloc, bytes)?;
    if begins_with(text.as_slice(), b'\n') {
        text.remove(0);
    }
    Ok(text)
}

// The bytes with CR LF as LF.
fn unix_lines(alloc: Global, bytes: &[u8]) -> Result<Vec<u8>, OutOfMemory>
    ensures { IfOk result (λ text. text.items ≡ unix_lines bytes.now) }
{
    let mut text = Vec::new(alloc);
    for i in 0..bytes.len() {
        let b = bytes[i];
        if b != b'\r' || !begins_with(&bytes[i + 1..], b'\n') {
            text.push(b)?;
        }
    }
    Ok(text)
}
