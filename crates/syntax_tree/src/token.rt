//! Tokens.

use byte_text::StrId;
use whole_num::Whole;

/// One token of a text, and where it stands.
///
/// Offsets are in bytes from 0, lines count from 1 and end at a line feed.
#[derive(Clone, Copy)]
pub struct Token {
    pub kind: TokenKind,
    /// The offset of the first byte.
    pub at: usize,
    /// The offset behind the last byte.
    pub end: usize,
    /// The line of the first byte.
    pub line: usize,
    /// The line of the last byte.
    pub last: usize,
}

/// What a token is. Texts stand in the interner that the text was read with.
#[derive(Clone, Copy)]
pub enum TokenKind {
    Name(StrId),
    Number(Whole),
    Str(StrId),
    /// The first piece of an interpolated string, up to its first expression.
    InterpBegin(StrId),
    /// A piece between two expressions.
    InterpMid(StrId),
    /// The last piece.
    InterpEnd(StrId),
    /// An interpolated string without an expression.
    InterpWhole(StrId),

    And,
    Break,
    Do,
    Else,
    ElseIf,
    End,
    False,
    For,
    Function,
    If,
    In,
    Local,
    Nil,
    Not,
    Or,
    Repeat,
    Return,
    Then,
    True,
    Until,
    While,

    Plus,
    Minus,
    Star,
    Slash,
    DoubleSlash,
    Percent,
    Caret,
    Hash,
    EqualEqual,
    NotEqual,
    LessEqual,
    GreaterEqual,
    Less,
    Greater,
    Equal,
    OpenParen,
    CloseParen,
    OpenBrace,
    CloseBrace,
    OpenBracket,
    CloseBracket,
    Semicolon,
    Colon,
    DoubleColon,
    Comma,
    Dot,
    DoubleDot,
    TripleDot,
    PlusEqual,
    MinusEqual,
    StarEqual,
    SlashEqual,
    DoubleSlashEqual,
    PercentEqual,
    CaretEqual,
    DoubleDotEqual,
    Arrow,
    Pipe,
    Ampersand,
    Question,
}
