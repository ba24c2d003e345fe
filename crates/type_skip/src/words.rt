//! Reserved words and symbols by their places.

ghost use Rattle.std.specs.Prelude.{◌≡◌, ◌<◌, ◌^◌, length, Some, OnSome, IsTrue, IsFalse};
ghost use Rattle.syntax_tree.specs.Places.{kind_at, Has, Lacks};
ghost use Rattle.type_skip.specs.Words.{is_word, token_of};

use syntax_tree::{Token, TokenKind};

/// The reserved words and symbols that the grammar names, but for the operators.
#[derive(Clone, Copy, PartialEq, Eq)]
pub enum Word {
    Do,
    Else,
    ElseIf,
    End,
    Function,
    Greater,
    If,
    In,
    Less,
    Then,
    Until,
    Arrow,
    Caret,
    CloseBrace,
    CloseBracket,
    CloseParen,
    Colon,
    Comma,
    Dot,
    DoubleColon,
    DoubleDot,
    Equal,
    OpenBrace,
    OpenBracket,
    OpenParen,
    Question,
    Semicolon,
    TripleDot,
}

/// The kind of the token at a place, if there is one.
pub fn kind_at(tokens: &[Token], at: usize) -> Option<TokenKind>
    ensures kind { result ≡ kind_at tokens.now at }
    ensures within { OnSome result (at < length tokens.now) }
    ensures few { length tokens.now < 2 ^ 63 }
{
    match tokens.get(at) {
        Some(token) => Some(token.kind),
        None => None,
    }
}

/// Whether a word stands at a place.
pub fn stands(tokens: &[Token], at: usize, word: Word) -> bool
    ensures value { result ≡ is_word word (kind_at tokens.now at) }
    ensures there { IsTrue result → Has tokens.now at (token_of word) }
    ensures absent { IsFalse result → Lacks tokens.now at (token_of word) }
    ensures within { IsTrue result → at < length tokens.now }
    ensures few { length tokens.now < 2 ^ 63 }
{
    match kind_at(tokens, at) {
        Some(kind) => is_word(kind, word),
        None => false,
    }
}

fn is_word(kind: TokenKind, word: Word) -> bool
    ensures { result ≡ is_word word (Some kind) }
{
    match word {
        Word::Do => matches!(kind, TokenKind::Do),
        Word::Else => matches!(kind, TokenKind::Else),
        Word::ElseIf => matches!(kind, TokenKind::ElseIf),
        Word::End => matches!(kind, TokenKind::End),
        Word::Function => matches!(kind, TokenKind::Function),
        Word::Greater => matches!(kind, TokenKind::Greater),
        Word::If => matches!(kind, TokenKind::If),
        Word::In => matches!(kind, TokenKind::In),
        Word::Less => matches!(kind, TokenKind::Less),
        Word::Then => matches!(kind, TokenKind::Then),
        Word::Until => matches!(kind, TokenKind::Until),
        Word::Arrow => matches!(kind, TokenKind::Arrow),
        Word::Caret => matches!(kind, TokenKind::Caret),
        Word::CloseBrace => matches!(kind, TokenKind::CloseBrace),
        Word::CloseBracket => matches!(kind, TokenKind::CloseBracket),
        Word::CloseParen => matches!(kind, TokenKind::CloseParen),
        Word::Colon => matches!(kind, TokenKind::Colon),
        Word::Comma => matches!(kind, TokenKind::Comma),
        Word::Dot => matches!(kind, TokenKind::Dot),
        Word::DoubleColon => matches!(kind, TokenKind::DoubleColon),
        Word::DoubleDot => matches!(kind, TokenKind::DoubleDot),
        Word::Equal => matches!(kind, TokenKind::Equal),
        Word::OpenBrace => matches!(kind, TokenKind::OpenBrace),
        Word::OpenBracket => matches!(kind, TokenKind::OpenBracket),
        Word::OpenParen => matches!(kind, TokenKind::OpenParen),
        Word::Question => matches!(kind, TokenKind::Question),
        Word::Semicolon => matches!(kind, TokenKind::Semicolon),
        Word::TripleDot => matches!(kind, TokenKind::TripleDot),
    }
}
