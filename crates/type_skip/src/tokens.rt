//! Tokens by their places.

ghost use Rattle.std.specs.Prelude.{◌≡◌, ◌+◌, ◌<◌, ◌^◌, length, Some, OnSome, IsTrue, IsFalse};
ghost use Rattle.syntax_tree.specs.Places.{kind_at, is_name, Has, Lacks, Optional};
ghost use Rattle.syntax_tree.specs.Types.{is_bar, is_literal, is_separator, is_label, opens_typeof, IsMarks};
ghost use Rattle.syntax_tree.specs.declared.token.TokenKind.TheVariants.{TripleDot};

use crate::words::{Word, kind_at, stands};
use byte_text::StrId;
use syntax_tree::{Token, TokenKind};

/// Whether a `|` or a `&` stands there.
pub(crate) fn is_bar(tokens: &[Token], at: usize) -> bool
    ensures value { result ≡ is_bar (kind_at tokens.now at) }
    ensures within { IsTrue result → at < length tokens.now }
    ensures few { length tokens.now < 2 ^ 63 }
{
    matches!(
        kind_at(tokens, at),
        Some(TokenKind::Pipe | TokenKind::Ampersand)
    )
}

/// Whether a `,` or a `;` stands there.
pub(crate) fn is_separator(tokens: &[Token], at: usize) -> bool
    ensures value { result ≡ is_separator (kind_at tokens.now at) }
    ensures within { IsTrue result → at < length tokens.now }
    ensures few { length tokens.now < 2 ^ 63 }
{
    matches!(
        kind_at(tokens, at),
        Some(TokenKind::Comma | TokenKind::Semicolon)
    )
}

/// Whether `nil`, `true`, `false` or a string stands there.
pub(crate) fn is_literal(tokens: &[Token], at: usize) -> bool
    ensures value { result ≡ is_literal (kind_at tokens.now at) }
    ensures within { IsTrue result → at < length tokens.now }
    ensures few { length tokens.now < 2 ^ 63 }
{
    matches!(
        kind_at(tokens, at),
        Some(TokenKind::Nil | TokenKind::True | TokenKind::False | TokenKind::Str(_))
    )
}

/// Whether a name stands there.
pub(crate) fn is_name(tokens: &[Token], at: usize) -> bool
    ensures value { result ≡ is_name (kind_at tokens.now at) }
    ensures within { IsTrue result → at < length tokens.now }
    ensures few { length tokens.now < 2 ^ 63 }
{
    matches!(kind_at(tokens, at), Some(TokenKind::Name(_)))
}

/// Whether a name with a `:` behind it stands there.
pub(crate) fn is_label(tokens: &[Token], at: usize) -> bool
    ensures value { result ≡ is_label tokens.now at }
    ensures within { IsTrue result → at + 1 < length tokens.now }
    ensures few { length tokens.now < 2 ^ 63 }
{
    match kind_at(tokens, at) {
        Some(TokenKind::Name(_)) => matches!(kind_at(tokens, at + 1), Some(TokenKind::Colon)),
        _ => false,
    }
}

/// Whether `typeof` and a `(` stand there.
pub(crate) fn opens_typeof(tokens: &[Token], at: usize) -> bool
    ensures value { result ≡ opens_typeof tokens.now at }
    ensures within { IsTrue result → at + 1 < length tokens.now }
    ensures few { length tokens.now < 2 ^ 63 }
{
    match kind_at(tokens, at) {
        Some(TokenKind::Name(name)) if name == StrId::TYPEOF => {
            matches!(kind_at(tokens, at + 1), Some(TokenKind::OpenParen))
        }
        _ => false,
    }
}

/// The place behind the `?` that stand there.
pub(crate) fn marks_end(tokens: &[Token], at: usize) -> usize
    ensures { IsMarks tokens.now at result }
{
    let mut at = at;
    while stands(tokens, at, Word::Question) {
        at += 1;
    }
    at
}

/// The place behind a `...`, where one stands.
pub(crate) fn dots_end(tokens: &[Token], at: usize) -> usize
    ensures { Optional tokens.now TripleDot at result }
{
    if stands(tokens, at, Word::TripleDot) {
        at + 1
    } else {
        at
    }
}
