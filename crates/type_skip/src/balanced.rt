//! Balanced tokens.

ghost use Rattle.std.specs.Prelude.{◌≡◌, ◌+◌, ◌<◌, ◌^◌, length, Some, IsTrue};
ghost use Rattle.syntax_tree.specs.Places.{kind_at};
ghost use Rattle.syntax_tree.specs.Types.{is_closer};
ghost use Rattle.type_skip.specs.Reading.{Reads};
ghost use Rattle.type_skip.specs.Inner.{IsClosedBalanced};
ghost use Rattle.type_skip.specs.Balance.{class_of, turn_of};
ghost use Rattle.type_skip.specs.Words.{token_of, is_word};

use crate::fault::{Fault, opened};
use crate::words::{Word, kind_at};
use syntax_tree::{Token, TokenKind};

/// What a token is among balanced ones.
#[derive(Clone, Copy)]
pub(crate) enum Class {
    Plain,
    /// It begins, goes on with or ends an interpolated string with expressions.
    Begin,
    Mid,
    End,
    /// A bracket that opens, with the one that closes what it opens.
    Open(Word),
    Close(Word),
    /// There is no token.
    Nothing,
}

/// How balanced tokens go on.
#[derive(Clone, Copy)]
pub(crate) enum Turn {
    /// A token is passed; so many interpolated strings are not at their end then.
    Pass(usize),
    /// A bracket opens, which this one closes.
    Nest(Word),
    /// The bracket around the tokens closes.
    Done,
    /// No balanced tokens go on so.
    Stuck,
}

/// The place behind the bracket that closes balanced tokens.
pub(crate) fn balanced_end(
    tokens: &[Token],
    at: usize,
    close: Word,
    room: usize,
) -> Result<usize, Fault>
    requires { IsTrue (is_closer (Some (token_of close))) }
    ensures { Reads (IsClosedBalanced (token_of close)) tokens.now room at result }
{
    let mut at = at;
    let mut strings = 0;
    loop {
        match next_turn(class_at(tokens, at), strings, close) {
            Turn::Pass(now) => {
                strings = now;
                at += 1;
            }
            Turn::Nest(inner) => at = balanced_end(tokens, at + 1, inner, opened(at, room)?)?,
            Turn::Done => return Ok(at + 1),
            Turn::Stuck => return Err(Fault::Unexpected(at)),
        }
    }
}

/// What the token at a place is.
fn class_at(tokens: &[Token], at: usize) -> Class
    ensures value { result ≡ class_of (kind_at tokens.now at) }
    ensures few { length tokens.now < 2 ^ 63 }
{
    match kind_at(tokens, at) {
        Some(kind) => class_of(kind),
        None => Class::Nothing,
    }
}

fn class_of(kind: TokenKind) -> Class
    ensures { result ≡ class_of (Some kind) }
{
    match kind {
        TokenKind::OpenParen => Class::Open(Word::CloseParen),
        TokenKind::OpenBracket => Class::Open(Word::CloseBracket),
        TokenKind::OpenBrace => Class::Open(Word::CloseBrace),
        TokenKind::CloseParen => Class::Close(Word::CloseParen),
        TokenKind::CloseBracket => Class::Close(Word::CloseBracket),
        TokenKind::CloseBrace => Class::Close(Word::CloseBrace),
        TokenKind::InterpBegin(_) => Class::Begin,
        TokenKind::InterpMid(_) => Class::Mid,
        TokenKind::InterpEnd(_) => Class::End,
        _ => Class::Plain,
    }
}

/// How balanced tokens go on, where so many interpolated strings are not at their end.
fn next_turn(class: Class, strings: usize, close: Word) -> Turn
    requires { strings + 1 < 2 ^ 64 }
    ensures { result ≡ turn_of class strings close }
{
    match class {
        Class::Plain => Turn::Pass(strings),
        Class::Begin => Turn::Pass(strings + 1),
        Class::Mid if strings == 0 => Turn::Stuck,
        Class::Mid => Turn::Pass(strings),
        Class::End if strings == 0 => Turn::Stuck,
        Class::End => Turn::Pass(strings - 1),
        Class::Open(inner) => Turn::Nest(inner),
        Class::Close(bracket) if strings == 0 && is_same(bracket, close) => Turn::Done,
        Class::Close(_) | Class::Nothing => Turn::Stuck,
    }
}

/// Whether two symbols are the same.
fn is_same(a: Word, b: Word) -> bool
    ensures { result ≡ is_word a (Some (token_of b)) }
{
    a == b
}
