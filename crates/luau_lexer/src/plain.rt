//! Names, reserved words, symbols and numbers.

ghost use Rattle.std.specs.Prelude.{◌≡◌, ◌≤◌, ◌<◌, ◌||◌, nat_eq, length, option_map, IfSome, map, Some, slice_get};
ghost use Rattle.std.specs.List.{prefix_len, position, starts_with};
ghost use Rattle.std.specs.Str.{bytes_eq};
ghost use Rattle.syntax_tree.specs.Bytes.{is_number_byte, begins};
ghost use Rattle.syntax_tree.specs.Plain.{name_len, reserved, symbols, first_entry, symbol_at, begins_number, exponent_len, number_len};

use crate::bytes::{begins_with, begins_with_digit, is_digit, is_name_byte, is_number_byte};
use syntax_tree::TokenKind;

// How long the name at the front is.
pub(crate) fn name_len(bytes: &[u8]) -> usize
    ensures value { result ≡ name_len bytes.now }
    ensures within { result ≤ length bytes.now }
{
    bytes.iter().take_while(|&&b| is_name_byte(b)).count()
}

// How many digits, points and `_` stand at the front.
fn number_head_len(bytes: &[u8]) -> usize
    ensures value { result ≡ prefix_len is_number_byte bytes.now }
    ensures within { result ≤ length bytes.now }
{
    bytes.iter().take_while(|&&b| is_number_byte(b)).count()
}

// Whether a digit, or a point and a digit, stands at the front.
pub(crate) fn begins_number(bytes: &[u8]) -> bool
    ensures { result ≡ begins_number bytes.now }
{
    match bytes.split_first() {
        Some((&b, rest)) => is_digit(b) || (b == b'.' && begins_with_digit(rest)),
        None => false,
    }
}

// How long the mark of an exponent at the front is, with its sign.
fn exponent_len(bytes: &[u8]) -> usize
    ensures value { result ≡ exponent_len bytes.now }
    ensures within { result ≤ length bytes.now }
{
    match bytes.split_first() {
        Some((&b, rest)) if b == b'e' || b == b'E' => { if begins_with_sign(rest) { 2 } else { 1 } }
        _ => 0,
    }
}

// Whether the first byte is a sign.
fn begins_with_sign(bytes: &[u8]) -> bool
    ensures { result ≡ begins (λ s. nat_eq s 43 || nat_eq s 45) bytes.now }
{
    match bytes.first() {
        Some(&b) => b == b'+' || b == b'-',
        None => false,
    }
}

// How long the number at the front is.
pub(crate) fn number_len(bytes: &[u8]) -> usize
    ensures value { result ≡ number_len bytes.now }
    ensures within { result ≤ length bytes.now }
{
    let head = number_head_len(bytes);
    let mark = exponent_len(&bytes[head..]);
    head + mark + name_len(&bytes[head + mark..])
}

static WORDS: [&[u8]; 21] = [
    b"and",
    b"break",
    b"do",
    b"else",
    b"elseif",
    b"end",
    b"false",
    b"for",
    b"function",
    b"if",
    b"in",
    b"local",
    b"nil",
    b"not",
    b"or",
    b"repeat",
    b"return",
    b"then",
    b"true",
    b"until",
    b"while",
];

const WORD_KINDS: [TokenKind; 21] = [
    TokenKind::And,
    TokenKind::Break,
    TokenKind::Do,
    TokenKind::Else,
    TokenKind::ElseIf,
    TokenKind::End,
    TokenKind::False,
    TokenKind::For,
    TokenKind::Function,
    TokenKind::If,
    TokenKind::In,
    TokenKind::Local,
    TokenKind::Nil,
    TokenKind::Not,
    TokenKind::Or,
    TokenKind::Repeat,
    TokenKind::Return,
    TokenKind::Then,
    TokenKind::True,
    TokenKind::Until,
    TokenKind::While,
];

// The reserved word that some bytes are.
pub(crate) fn reserved_word(word: &[u8]) -> Option<TokenKind>
    ensures { result ≡ option_map (λ e. e.1) (first_entry (bytes_eq word.now) reserved) }
{
    let place = word_place(&WORDS, word)?;
    Some(WORD_KINDS[place])
}

// The place of a word in a table.
fn word_place(table: &[&[u8]], word: &[u8]) -> Option<usize>
    ensures value { result ≡ position (λ text. bytes_eq word.now text.now) table.now }
{
    table.iter().position(|text| word == *text)
}

static SYMBOLS: [&[u8]; 40] = [
    b"...", b"..=", b"//=", b"//", b"==", b"~=", b"<=", b">=", b"::", b"..", b"+=", b"-=", b"*=",
    b"/=", b"%=", b"^=", b"->", b"+", b"-", b"*", b"/", b"%", b"^", b"#", b"<", b">", b"=", b"(",
    b")", b"{", b"}", b"[", b"]", b";", b":", b",", b".", b"|", b"&", b"?",
];

const SYMBOL_KINDS: [TokenKind; 40] = [
    TokenKind::TripleDot,
    TokenKind::DoubleDotEqual,
    TokenKind::DoubleSlashEqual,
    TokenKind::DoubleSlash,
    TokenKind::EqualEqual,
    TokenKind::NotEqual,
    TokenKind::LessEqual,
    TokenKind::GreaterEqual,
    TokenKind::DoubleColon,
    TokenKind::DoubleDot,
    TokenKind::PlusEqual,
    TokenKind::MinusEqual,
    TokenKind::StarEqual,
    TokenKind::SlashEqual,
    TokenKind::PercentEqual,
    TokenKind::CaretEqual,
    TokenKind::Arrow,
    TokenKind::Plus,
    TokenKind::Minus,
    TokenKind::Star,
    TokenKind::Slash,
    TokenKind::Percent,
    TokenKind::Caret,
    TokenKind::Hash,
    TokenKind::Less,
    TokenKind::Greater,
    TokenKind::Equal,
    TokenKind::OpenParen,
    TokenKind::CloseParen,
    TokenKind::OpenBrace,
    TokenKind::CloseBrace,
    TokenKind::OpenBracket,
    TokenKind::CloseBracket,
    TokenKind::Semicolon,
    TokenKind::Colon,
    TokenKind::Comma,
    TokenKind::Dot,
    TokenKind::Pipe,
    TokenKind::Ampersand,
    TokenKind::Question,
];

const SYMBOL_LENS: [usize; 40] = [
    3, 3, 3, 2, 2, 2, 2, 2, 2, 2, 2, 2, 2, 2, 2, 2, 2, 1, 1, 1, 1, 1, 1, 1, 1, 1, 1, 1, 1, 1, 1, 1,
    1, 1, 1, 1, 1, 1, 1, 1,
];

// A symbol, with its length.
#[derive(Clone, Copy)]
pub(crate) struct Symbol {
    pub kind: TokenKind,
    pub len: usize,
}

// The longest symbol at the front.
pub(crate) fn symbol_at(bytes: &[u8]) -> Option<Symbol>
    ensures { result ≡ option_map (λ e. record { kind = e.1; len = length e.0 }) (symbol_at bytes.now) }
{
    let place = symbol_place(bytes)?;
    Some(Symbol {
        kind: symbol_kind(place),
        len: symbol_len(place),
    })
}

fn symbol_kind(place: usize) -> TokenKind
    requires { place < 40 }
    ensures { slice_get (map (λ e. e.1) symbols) place ≡ Some result }
{
    SYMBOL_KINDS[place]
}

fn symbol_len(place: usize) -> usize
    requires { place < 40 }
    ensures { slice_get (map (λ e. length e.0) symbols) place ≡ Some result }
{
    SYMBOL_LENS[place]
}

// The place of the first symbol in the table with which some bytes begin.
fn symbol_place(bytes: &[u8]) -> Option<usize>
    ensures value { result ≡ position (starts_with nat_eq bytes.now) (map (λ e. e.0) symbols) }
    ensures within { IfSome result (λ place. place < 40) }
{
    first_beginning(&SYMBOLS, bytes)
}

// The place in a table of the first text with which some bytes begin.
fn first_beginning(table: &[&[u8]], bytes: &[u8]) -> Option<usize>
    ensures value { result ≡ position (λ text. starts_with nat_eq bytes.now text.now) table.now }
    ensures within { IfSome result (λ place. place < length table.now) }
{
    table.iter().position(|text| bytes.starts_with(*text))
}
