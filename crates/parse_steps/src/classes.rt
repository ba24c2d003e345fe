//! What a token begins, by its place.

ghost use Rattle.std.specs.Prelude.{◌≡◌, ◌<◌, ◌^◌, length, OnSome};
ghost use Rattle.syntax_tree.specs.Places.{kind_at};
ghost use Rattle.parse_steps.specs.Classes.{name_of, middle_of, end_of, beginning, suffix, arguments, opening};

use byte_text::StrId;
use syntax_tree::{Token, TokenKind};
use type_skip::kind_at;

/// What a token begins as the first of an expression without operators.
#[derive(Clone, Copy)]
pub enum Beginning {
    /// A node without parts.
    Leaf,
    /// An interpolated string without an expression.
    Whole,
    Pieces(StrId),
    Function,
    Table,
    Name(StrId),
    Paren,
    Choice,
    Nothing,
}

/// What a token begins behind a part of a prefix.
#[derive(Clone, Copy)]
pub enum Suffix {
    Member,
    Index,
    Method,
    Call,
    Nothing,
}

/// What a token begins as the first of arguments.
#[derive(Clone, Copy)]
pub enum Arguments {
    Paren,
    Table,
    Text(StrId),
    Nothing,
}

/// What a token begins as the first of a statement.
#[derive(Clone, Copy)]
pub enum Opening {
    /// It ends the block, as does the end of the text.
    Ends,
    Return,
    Break,
    Do,
    While,
    Repeat,
    If,
    For,
    Function,
    Local,
    Name(StrId),
    Paren,
    Nothing,
}

/// The name at a place, where one stands.
pub fn name_at(tokens: &[Token], at: usize) -> Option<StrId>
    ensures value { result ≡ name_of (kind_at tokens.now at) }
    ensures within { OnSome result (at < length tokens.now) }
    ensures few { length tokens.now < 2 ^ 63 }
{
    match kind_at(tokens, at) {
        Some(TokenKind::Name(name)) => Some(name),
        _ => None,
    }
}

/// The text of a piece of an interpolated string between two expressions, where one stands.
pub fn middle_at(tokens: &[Token], at: usize) -> Option<StrId>
    ensures value { result ≡ middle_of (kind_at tokens.now at) }
    ensures within { OnSome result (at < length tokens.now) }
    ensures few { length tokens.now < 2 ^ 63 }
{
    match kind_at(tokens, at) {
        Some(TokenKind::InterpMid(text)) => Some(text),
        _ => None,
    }
}

/// The text of the last piece of an interpolated string, where one stands.
pub fn end_at(tokens: &[Token], at: usize) -> Option<StrId>
    ensures value { result ≡ end_of (kind_at tokens.now at) }
    ensures within { OnSome result (at < length tokens.now) }
    ensures few { length tokens.now < 2 ^ 63 }
{
    match kind_at(tokens, at) {
        Some(TokenKind::InterpEnd(text)) => Some(text),
        _ => None,
    }
}

/// What the token at a place begins as the first of an expression without operators.
pub fn beginning_at(tokens: &[Token], at: usize) -> Beginning
    ensures { result ≡ beginning (kind_at tokens.now at) }
{
    match kind_at(tokens, at) {
        Some(
            TokenKind::Nil
            | TokenKind::True
            | TokenKind::False
            | TokenKind::Number(_)
            | TokenKind::Str(_)
            | TokenKind::TripleDot,
        ) => Beginning::Leaf,
        Some(TokenKind::InterpWhole(_)) => Beginning::Whole,
        Some(TokenKind::InterpBegin(text)) => Beginning::Pieces(text),
        Some(TokenKind::Function) => Beginning::Function,
        Some(TokenKind::OpenBrace) => Beginning::Table,
        Some(TokenKind::Name(name)) => Beginning::Name(name),
        Some(TokenKind::OpenParen) => Beginning::Paren,
        Some(TokenKind::If) => Beginning::Choice,
        _ => Beginning::Nothing,
    }
}

/// What the token at a place begins behind a part of a prefix.
pub fn suffix_at(tokens: &[Token], at: usize) -> Suffix
    ensures value { result ≡ suffix (kind_at tokens.now at) }
    ensures few { length tokens.now < 2 ^ 63 }
{
    match kind_at(tokens, at) {
        Some(TokenKind::Dot) => Suffix::Member,
        Some(TokenKind::OpenBracket) => Suffix::Index,
        Some(TokenKind::Colon) => Suffix::Method,
        Some(TokenKind::OpenParen | TokenKind::OpenBrace | TokenKind::Str(_)) => Suffix::Call,
        _ => Suffix::Nothing,
    }
}

/// What the token at a place begins as the first of arguments.
pub fn arguments_at(tokens: &[Token], at: usize) -> Arguments
    ensures value { result ≡ arguments (kind_at tokens.now at) }
    ensures few { length tokens.now < 2 ^ 63 }
{
    match kind_at(tokens, at) {
        Some(TokenKind::OpenParen) => Arguments::Paren,
        Some(TokenKind::OpenBrace) => Arguments::Table,
        Some(TokenKind::Str(text)) => Arguments::Text(text),
        _ => Arguments::Nothing,
    }
}

/// What the token at a place begins as the first of a statement.
pub fn opening_at(tokens: &[Token], at: usize) -> Opening
    ensures { result ≡ opening (kind_at tokens.now at) }
{
    match kind_at(tokens, at) {
        None | Some(TokenKind::End | TokenKind::Else | TokenKind::ElseIf | TokenKind::Until) => {
            Opening::Ends
        }
        Some(TokenKind::Return) => Opening::Return,
        Some(TokenKind::Break) => Opening::Break,
        Some(TokenKind::Do) => Opening::Do,
        Some(TokenKind::While) => Opening::While,
        Some(TokenKind::Repeat) => Opening::Repeat,
        Some(TokenKind::If) => Opening::If,
        Some(TokenKind::For) => Opening::For,
        Some(TokenKind::Function) => Opening::Function,
        Some(TokenKind::Local) => Opening::Local,
        Some(TokenKind::Name(name)) => Opening::Name(name),
        Some(TokenKind::OpenParen) => Opening::Paren,
        _ => Opening::Nothing,
    }
}
