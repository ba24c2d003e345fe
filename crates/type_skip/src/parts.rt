//! Where the parts of a type end.
//!
//! Each function takes the place where its part begins, and how many brackets may be opened in it.

ghost use Rattle.std.specs.Prelude.{◌≡◌, ℕ, ◌+◌, ◌<◌, ◌^◌, ◌⊎◌, Some, IsTrue, IsFalse};
ghost use Rattle.syntax_tree.specs.Places.{kind_at, Has, Lacks, is_name};
ghost use Rattle.syntax_tree.specs.Types.{IsType, IsAtom, IsArguments, IsItem, IsField, IsGeneric, IsDefault, opens_typeof};
ghost use Rattle.syntax_tree.specs.declared.token.TokenKind.TheVariants.{OpenBrace, Less, OpenParen};
ghost use Rattle.type_skip.specs.Reading.{ends_type, Reads};
ghost use Rattle.type_skip.specs.Inner.{ReadsAs, IsStep, IsHead, IsOpened, IsEntered, IsMemberAt, IsBehindBar, IsClosedItems, IsClosedItemList, IsClosedFields, IsClosedGenerics};
ghost use Rattle.type_skip.specs.Words.{token_of};

use crate::balanced::balanced_end;
use crate::fault::{Fault, closed, opened};
use crate::tokens::{
    dots_end, is_bar, is_label, is_literal, is_name, is_separator, marks_end, opens_typeof,
};
use crate::words::{Word, stands};
use syntax_tree::Token;

/// What the beginning of an atom leads to.
#[derive(Clone, Copy)]
pub(crate) enum Step {
    /// The atom ends here.
    Ended(usize),
    /// A `...` was read; a part begins here, and the atom ends where it does.
    Part(usize),
    /// Parameters and a `->` were read; a type begins here, and the atom ends where it does.
    Result(usize),
}

/// The place behind the type that begins at a place, in which at most `room` brackets are open at once.
#[cycle(parts)]
pub fn type_end(tokens: &[Token], at: usize, room: usize) -> Result<usize, Fault>
    ensures { Reads IsType tokens.now room at result }
{
    let mut at = behind_bar(tokens, at);
    loop {
        match atom(tokens, at, room)? {
            Step::Part(next) => at = next,
            Step::Result(next) => at = behind_bar(tokens, next),
            Step::Ended(next) => {
                at = marks_end(tokens, next);
                if !is_bar(tokens, at) {
                    return Ok(at);
                }
                at += 1;
            }
        }
    }
}

/// The place behind a `|` or a `&`, where one stands.
fn behind_bar(tokens: &[Token], at: usize) -> usize
    ensures { IsBehindBar tokens.now at result }
{
    if is_bar(tokens, at) { at + 1 } else { at }
}

/// What an atom begins with, up to a `...` or a `->` where it goes on.
#[cycle(parts)]
fn atom(tokens: &[Token], at: usize, room: usize) -> Result<Step, Fault>
    ensures { ReadsAs (IsStep tokens.now room at) IsAtom tokens.now room at result }
{
    if is_literal(tokens, at) {
        return Ok(Step::Ended(at + 1));
    }
    if stands(tokens, at, Word::TripleDot) {
        return Ok(Step::Part(at + 1));
    }
    if opens_typeof(tokens, at) {
        return Ok(Step::Ended(typeof_end(tokens, at, room)?));
    }
    if is_name(tokens, at) {
        return Ok(Step::Ended(name_end(tokens, at, room)?));
    }
    if stands(tokens, at, Word::OpenBrace) {
        return Ok(Step::Ended(table_end(tokens, at, room)?));
    }
    if stands(tokens, at, Word::Less) || stands(tokens, at, Word::OpenParen) {
        return function_step(tokens, at, room);
    }
    Err(Fault::Unexpected(at))
}

/// What generics or parameters lead to.
#[cycle(parts)]
fn function_step(tokens: &[Token], at: usize, room: usize) -> Result<Step, Fault>
    requires { Has tokens.now at Less ⊎ Has tokens.now at OpenParen }
    ensures { ReadsAs (IsStep tokens.now room at) IsAtom tokens.now room at result }
{
    let end = head_end(tokens, at, room)?;
    if stands(tokens, end, Word::Arrow) {
        Ok(Step::Result(end + 1))
    } else {
        Ok(Step::Ended(end))
    }
}

/// Where a `typeof` with its parentheses ends.
fn typeof_end(tokens: &[Token], at: usize, room: usize) -> Result<usize, Fault>
    requires there { IsTrue (opens_typeof tokens.now at) }
    requires short { at + 2 < 2 ^ 64 }
    ensures { Reads IsAtom tokens.now room at result }
{
    let inner = opened(at + 1, room)?;
    balanced_end(tokens, at + 2, Word::CloseParen, inner)
}

/// Where a name with its arguments ends.
#[cycle(parts)]
fn name_end(tokens: &[Token], at: usize, room: usize) -> Result<usize, Fault>
    requires name { IsTrue (is_name (kind_at tokens.now at)) }
    requires no_typeof { IsFalse (opens_typeof tokens.now at) }
    ensures { Reads IsAtom tokens.now room at result }
{
    let member = member_end(tokens, at + 1)?;
    let end = arguments_end(tokens, member, room)?;
    Ok(dots_end(tokens, end))
}

/// The place behind a `.` and a name, where a `.` stands.
fn member_end(tokens: &[Token], at: usize) -> Result<usize, Fault>
    ensures { (room : ℕ) → Reads IsMemberAt tokens.now room at result }
{
    if !stands(tokens, at, Word::Dot) {
        return Ok(at);
    }
    if !is_name(tokens, at + 1) {
        return Err(Fault::Unexpected(at + 1));
    }
    Ok(at + 2)
}

/// The place behind a name's arguments, where a `<` stands.
#[cycle(parts)]
fn arguments_end(tokens: &[Token], at: usize, room: usize) -> Result<usize, Fault>
    ensures { Reads IsArguments tokens.now room at result }
{
    if !stands(tokens, at, Word::Less) {
        return Ok(at);
    }
    let inner = opened(at, room)?;
    items_end(tokens, at + 1, Word::Greater, inner)
}

/// Where a table ends, which begins with a `{`.
#[cycle(parts)]
fn table_end(tokens: &[Token], at: usize, room: usize) -> Result<usize, Fault>
    requires there { Has tokens.now at OpenBrace }
    requires short { at + 1 < 2 ^ 64 }
    ensures { Reads IsAtom tokens.now room at result }
{
    let inner = opened(at, room)?;
    fields_end(tokens, at + 1, inner)
}

/// Where generics and parameters end.
#[cycle(parts)]
fn head_end(tokens: &[Token], at: usize, room: usize) -> Result<usize, Fault>
    requires { Has tokens.now at Less ⊎ Has tokens.now at OpenParen }
    ensures { ReadsAs (IsHead tokens.now room at) IsAtom tokens.now room at result }
{
    let inner = opened(at, room)?;
    let begin = generics_end(tokens, at, inner)?;
    items_end(tokens, begin, Word::CloseParen, inner)
}

/// The place behind the bracket that closes items.
#[cycle(parts)]
fn items_end(tokens: &[Token], at: usize, close: Word, room: usize) -> Result<usize, Fault>
    requires { IsTrue (ends_type (Some (token_of close))) }
    ensures { Reads (IsClosedItems (token_of close)) tokens.now room at result }
{
    if stands(tokens, at, close) {
        return Ok(at + 1);
    }
    item_list_end(tokens, at, close, room)
}

/// The place behind the bracket that closes a list of items.
#[cycle(parts)]
fn item_list_end(tokens: &[Token], at: usize, close: Word, room: usize) -> Result<usize, Fault>
    requires { IsTrue (ends_type (Some (token_of close))) }
    ensures { Reads (IsClosedItemList (token_of close)) tokens.now room at result }
{
    let mut begin = at;
    loop {
        let end = item_end(tokens, begin, room)?;
        if !stands(tokens, end, Word::Comma) {
            return closed(tokens, end, close);
        }
        begin = end + 1;
    }
}

/// Where an item ends.
#[cycle(parts)]
fn item_end(tokens: &[Token], at: usize, room: usize) -> Result<usize, Fault>
    ensures { Reads IsItem tokens.now room at result }
{
    if is_label(tokens, at) {
        type_end(tokens, at + 2, room)
    } else {
        type_end(tokens, at, room)
    }
}

/// The place behind the brace that closes a list of fields.
#[cycle(parts)]
fn fields_end(tokens: &[Token], at: usize, room: usize) -> Result<usize, Fault>
    ensures { Reads IsClosedFields tokens.now room at result }
{
    let mut begin = at;
    while !stands(tokens, begin, Word::CloseBrace) {
        let end = field_end(tokens, begin, room)?;
        if !is_separator(tokens, end) {
            return closed(tokens, end, Word::CloseBrace);
        }
        begin = end + 1;
    }
    Ok(begin + 1)
}

/// Where a field ends.
#[cycle(parts)]
fn field_end(tokens: &[Token], at: usize, room: usize) -> Result<usize, Fault>
    ensures { Reads IsField tokens.now room at result }
{
    if !stands(tokens, at, Word::OpenBracket) {
        return item_end(tokens, at, room);
    }
    let inner = opened(at, room)?;
    let key = type_end(tokens, at + 1, inner)?;
    let bracket = closed(tokens, key, Word::CloseBracket)?;
    let value = closed(tokens, bracket, Word::Colon)?;
    type_end(tokens, value, room)
}

/// The place behind generics and a `(`.
#[cycle(parts)]
fn generics_end(tokens: &[Token], at: usize, room: usize) -> Result<usize, Fault>
    requires { Has tokens.now at Less ⊎ Has tokens.now at OpenParen }
    ensures { ReadsAs (IsOpened tokens.now room at) IsEntered tokens.now (room + 1) at result }
{
    if stands(tokens, at, Word::OpenParen) {
        return Ok(at + 1);
    }
    generic_list_end(tokens, at + 1, room)
}

/// The place behind a list of generics, the `>` that closes it and a `(`.
#[cycle(parts)]
fn generic_list_end(tokens: &[Token], at: usize, room: usize) -> Result<usize, Fault>
    ensures { Reads IsClosedGenerics tokens.now room at result }
{
    let mut begin = at;
    loop {
        let end = generic_end(tokens, begin, room)?;
        if !stands(tokens, end, Word::Comma) {
            let open = closed(tokens, end, Word::Greater)?;
            return closed(tokens, open, Word::OpenParen);
        }
        begin = end + 1;
    }
}

/// Where a generic ends.
#[cycle(parts)]
fn generic_end(tokens: &[Token], at: usize, room: usize) -> Result<usize, Fault>
    ensures { Reads IsGeneric tokens.now room at result }
{
    if !is_name(tokens, at) {
        return Err(Fault::Unexpected(at));
    }
    default_end(tokens, dots_end(tokens, at + 1), room)
}

/// The place behind a `=` and a type, where a `=` stands.
#[cycle(parts)]
fn default_end(tokens: &[Token], at: usize, room: usize) -> Result<usize, Fault>
    ensures { Reads IsDefault tokens.now room at result }
{
    if stands(tokens, at, Word::Equal) {
        type_end(tokens, at + 1, room)
    } else {
        Ok(at)
    }
}
