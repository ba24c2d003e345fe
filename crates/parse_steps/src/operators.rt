//! Operators by their places.

ghost use Rattle.std.specs.Prelude.{◌≡◌, ◌<◌, ◌^◌, length, OnSome};
ghost use Rattle.syntax_tree.specs.Places.{kind_at};
ghost use Rattle.syntax_tree.specs.Operators.{operator, unary_operator, compound_operator};
ghost use Rattle.parse_steps.specs.Levels.{rank_of};

use crate::levels::Rank;
use syntax_tree::{BinOp, Token, TokenKind, UnOp};
use type_skip::kind_at;

/// The binary operator of a level at a place, where one stands.
pub fn operator_at(tokens: &[Token], at: usize, rank: Rank) -> Option<BinOp>
    ensures value { result ≡ operator (rank_of rank) (kind_at tokens.now at) }
    ensures within { OnSome result (at < length tokens.now) }
    ensures few { length tokens.now < 2 ^ 63 }
{
    match kind_at(tokens, at) {
        Some(kind) => operator(kind, rank),
        None => None,
    }
}

fn operator(kind: TokenKind, rank: Rank) -> Option<BinOp>
    ensures { result ≡ operator (rank_of rank) (Some kind) }
{
    match rank {
        Rank::Ors => match kind {
            TokenKind::Or => Some(BinOp::Or),
            _ => None,
        },
        Rank::Ands => match kind {
            TokenKind::And => Some(BinOp::And),
            _ => None,
        },
        Rank::Comparisons => comparison(kind),
        Rank::Sums => match kind {
            TokenKind::Plus => Some(BinOp::Add),
            TokenKind::Minus => Some(BinOp::Sub),
            _ => None,
        },
        Rank::Products => match kind {
            TokenKind::Star => Some(BinOp::Mul),
            TokenKind::Slash => Some(BinOp::Div),
            TokenKind::DoubleSlash => Some(BinOp::Idiv),
            TokenKind::Percent => Some(BinOp::Mod),
            _ => None,
        },
    }
}

fn comparison(kind: TokenKind) -> Option<BinOp>
    ensures { result ≡ operator (rank_of Rank.Comparisons) (Some kind) }
{
    match kind {
        TokenKind::Less => Some(BinOp::Lt),
        TokenKind::Greater => Some(BinOp::Gt),
        TokenKind::LessEqual => Some(BinOp::Le),
        TokenKind::GreaterEqual => Some(BinOp::Ge),
        TokenKind::NotEqual => Some(BinOp::Ne),
        TokenKind::EqualEqual => Some(BinOp::Eq),
        _ => None,
    }
}

/// The operator before one operand at a place, where one stands.
pub fn unary_at(tokens: &[Token], at: usize) -> Option<UnOp>
    ensures value { result ≡ unary_operator (kind_at tokens.now at) }
    ensures within { OnSome result (at < length tokens.now) }
    ensures few { length tokens.now < 2 ^ 63 }
{
    match kind_at(tokens, at) {
        Some(TokenKind::Not) => Some(UnOp::Not),
        Some(TokenKind::Hash) => Some(UnOp::Len),
        Some(TokenKind::Minus) => Some(UnOp::Minus),
        _ => None,
    }
}

/// The operator of a compound assignment at a place, where one stands.
pub fn compound_at(tokens: &[Token], at: usize) -> Option<BinOp>
    ensures value { result ≡ compound_operator (kind_at tokens.now at) }
    ensures within { OnSome result (at < length tokens.now) }
    ensures few { length tokens.now < 2 ^ 63 }
{
    match kind_at(tokens, at) {
        Some(TokenKind::PlusEqual) => Some(BinOp::Add),
        Some(TokenKind::MinusEqual) => Some(BinOp::Sub),
        Some(TokenKind::StarEqual) => Some(BinOp::Mul),
        Some(TokenKind::SlashEqual) => Some(BinOp::Div),
        Some(TokenKind::DoubleSlashEqual) => Some(BinOp::Idiv),
        Some(TokenKind::PercentEqual) => Some(BinOp::Mod),
        Some(TokenKind::CaretEqual) => Some(BinOp::Pow),
        Some(TokenKind::DoubleDotEqual) => Some(BinOp::Concat),
        _ => None,
    }
}
