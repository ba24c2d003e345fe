//! `format`.

ghost use Rattle.std.specs.Prelude.{◌≡◌, ◌<◌, ◌++◌, false, length, List, map, option_map, IfOk};
ghost use Rattle.lib_arguments.specs.Checks.{Checks, most_arguments};
ghost use Rattle.lib_arguments.specs.Rows.{Runs};
ghost use Rattle.lib_string.specs.Answering.{AnswersOrEnds};
ghost use Rattle.lib_string.specs.Directives.{field_of};
ghost use Rattle.lib_string.specs.Formats.{asks, FillsIn, MayAsk};
ghost use Rattle.lib_string.specs.Reading.{AddsTexts, MayUseAll};
ghost use Rattle.luau_tables.specs.Answers.{meant_continue, Answered};
ghost use Rattle.luau_tables.specs.Worlds.{IsWorld, MayUseIn, store_in};
ghost use Rattle.luau_tables.specs.declared.globals.LibWorld.{LibWorld};
ghost use Rattle.value_model.specs.CoreRows as core;
ghost use Rattle.value_model.specs.FormatRows as row;
ghost use Rattle.value_model.specs.Parts.{bytes_at, meant};
ghost use Rattle.value_model.specs.Values as model;
ghost use Rattle.value_model.specs.Waits.{Elsewise};
ghost use Rattle.value_model.specs.declared.value.Value.{Value};
ghost use Rattle.value_model.specs.declared.value.Value.TheVariants.{Str};

use crate::arguments::text_at;
use crate::asking::{Asking, directive_into};
use crate::directive::{Field, Piece, read_piece};
use crate::filling::{append, fit_into};
use crate::giving::give_text;
use byte_text::{Bytes, StrId};
use lib_arguments::Ending;
use luau_tables::{LibAnswer, LibWorld};
use resource::OutOfMemory;
use std::alloc::Global;
use value_model::{Builtin, Continue, RunErr, Value};

// A string has at most so many bytes.
const LONGEST_STRING: usize = 16_777_216;

/// `format`.
pub(crate) fn format(
    alloc: Global,
    args: &[Value],
    world: &mut LibWorld,
    results: &mut Vec<Value>,
) -> Result<LibAnswer, Ending>
    requires world { IsWorld world.old }
    requires args { MayUseAll world.old args.now }
    ensures answers { AnswersOrEnds world.old world.new results.old.items results.new.items result (row.format_row (map (meant world.old.names) args.now) (store_in world.old)) }
    ensures adds { AddsTexts world.old world.new }
{
    let text = match text_at(alloc, Builtin::StringFormat, 0, args, world) {
        Ok(text) => text,
        Err(ending) => return Err(ending),
    };
    match copied(alloc, world.names.bytes(text)) {
        Ok(format) => {
            let out = Vec::new(alloc);
            fill_from(alloc, format.as_slice(), 1, args, world, out, results)
        }
        Err(OutOfMemory) => Err(Ending::OutOfMemory),
    }
}

/// Goes on behind a directive whose text was asked for.
pub(crate) fn format_on(
    alloc: Global,
    then: &Continue,
    answer: Value,
    world: &mut LibWorld,
    results: &mut Vec<Value>,
) -> Result<LibAnswer, Ending>
    requires world { IsWorld world.old }
    requires place { then.now.at < length then.now.args.items }
    requires args { MayUseAll world.old then.now.args.items }
    requires answer { MayUseIn world.old answer }
    ensures answers { AnswersOrEnds world.old world.new results.old.items results.new.items result (core.text_given (meant world.old.names answer) (row.format_goes_on (meant_continue world.old.names then.now) (store_in world.old))) }
    ensures adds { AddsTexts world.old world.new }
{
    let given = match text_given(answer) {
        Ok(given) => given,
        Err(ending) => return Err(ending),
    };
    let args = then.args.as_slice();
    let text = match text_at(alloc, Builtin::StringFormat, 0, args, world) {
        Ok(text) => text,
        Err(ending) => return Err(ending),
    };
    let format = match copied(alloc, world.names.bytes(text)) {
        Ok(format) => format,
        Err(OutOfMemory) => return Err(Ending::OutOfMemory),
    };
    match directive_for(then.at, format.as_slice()) {
        Some((field, behind)) => match filled(alloc, then.text.as_slice(), field, given, world) {
            Ok(out) => fill_from(alloc, behind, then.at + 1, args, world, out, results),
            Err(OutOfMemory) => Err(Ending::OutOfMemory),
        },
        None => Err(Ending::RunError(RunErr::InvalidDirective)),
    }
}

// What `__tostring` gave has to be a string.
fn text_given(answer: Value) -> Result<StrId, Ending>
    ensures checks { (texts : List model.Bytes) → Checks texts (λ id. bytes_at texts id.0) (core.text_given (meant texts answer)) result }
    ensures text { IfOk result (λ id. answer ≡ Str id) }
{
    match answer {
        Value::Str(id) => Ok(id),
        _ => Err(Ending::RunError(RunErr::NotStringByTostring)),
    }
}

// A copy of some bytes.
fn copied(alloc: Global, bytes: &[u8]) -> Result<Vec<u8>, OutOfMemory>
    ensures { IfOk result (λ v. v.items ≡ bytes.now) }
{
    Ok(Vec::from_slice(alloc, bytes)?)
}

// The text so far, with the text that a directive was given.
fn filled(
    alloc: Global,
    before: &[u8],
    field: Field,
    given: StrId,
    world: &LibWorld,
) -> Result<Vec<u8>, OutOfMemory>
    requires { given.0 < length world.now.names }
    ensures { IfOk result (λ v. v.items ≡ before.now ++ row.fitted (field_of field) false (bytes_at world.now.names given.0)) }
{
    let mut out = copied(alloc, before)?;
    fit_into(field, false, world.names.bytes(given), &mut out)?;
    Ok(out)
}

// The directive for an argument, and what stands behind it.
fn directive_for(at: usize, format: &[u8]) -> Option<(Field, &[u8])>
    ensures { option_map (λ d. (field_of d.0, row.pieces_of d.1.now)) result ≡ row.directive_for at (row.pieces_of format.now) }
{
    let mut left = format;
    let mut at = at;
    while let Some((byte, rest)) = left.split_first() {
        let (piece, behind) = read_piece(*byte, rest);
        left = behind;
        if let Piece::Directive(field) = piece {
            if at == 1 {
                return Some((field, left));
            }
            at = at.saturating_sub(1);
        }
    }
    None
}

// Fills the pieces of a format in, from the argument at a place on, and answers.
fn fill_from(
    alloc: Global,
    format: &[u8],
    at: usize,
    args: &[Value],
    world: &mut LibWorld,
    out: Vec<u8>,
    results: &mut Vec<Value>,
) -> Result<LibAnswer, Ending>
    requires place { at < most_arguments }
    requires world { IsWorld world.old }
    requires args { MayUseAll world.old args.now }
    ensures answers { AnswersOrEnds world.old world.new results.old.items results.new.items result (row.formats (store_in world.old) (map (meant world.old.names) args.now) (row.pieces_of format.now) at out.items) }
    ensures adds { AddsTexts world.old world.new }
{
    let mut out = out;
    match fill_pieces(alloc, format, at, args, world, &mut out) {
        Ok((_, None)) => match give_filled(out.as_slice(), world, results) {
            Ok(()) => Ok(LibAnswer::Values),
            Err(ending) => Err(ending),
        },
        Ok((at, Some(asking))) => match call_back(alloc, asking, at, args, out.as_slice()) {
            Ok(answer) => Ok(answer),
            Err(OutOfMemory) => Err(Ending::OutOfMemory),
        },
        Err(ending) => Err(ending),
    }
}

// Fills the pieces of a format in up to its end, or up to a value whose `__tostring` has to be called, with the place of that.
fn fill_pieces(
    alloc: Global,
    format: &[u8],
    at: usize,
    args: &[Value],
    world: &LibWorld,
    out: &mut Vec<u8>,
) -> Result<(usize, Option<Asking>), Ending>
    requires place { at < most_arguments }
    requires world { IsWorld world.now }
    requires args { MayUseAll world.now args.now }
    ensures { FillsIn world.now args.now format.now at out.old.items out.new.items result }
{
    let mut left = format;
    let mut at = at;
    while let Some((byte, rest)) = left.split_first() {
        let (piece, behind) = read_piece(*byte, rest);
        left = behind;
        match piece {
            Piece::Plain(byte) => {
                if append(&[byte], out).is_err() {
                    return Err(Ending::OutOfMemory);
                }
            }
            Piece::Directive(field) => {
                match directive_into(alloc, field, at, args, world, out) {
                    Ok(None) => at += 1,
                    Ok(Some(asking)) => return Ok((at, Some(asking))),
                    Err(ending) => return Err(ending),
                }
            }
            Piece::Malformed => return Err(Ending::RunError(RunErr::InvalidDirective)),
        }
    }
    Ok((at, None))
}

// Gives the text, which may be too long.
fn give_filled(bytes: &[u8], world: &mut LibWorld, results: &mut Vec<Value>) -> Result<(), Ending>
    requires { IsWorld world.old }
    ensures runs { Runs world.old world.new results.old.items results.new.items result (row.format_done (store_in world.old) bytes.now) }
    ensures adds { AddsTexts world.old world.new }
{
    if bytes.len() > LONGEST_STRING {
        return Err(Ending::RunError(RunErr::StringTooLarge));
    }
    give_text(bytes, world, results)
}

// The call of `__tostring`, and what is left to do behind it.
fn call_back(
    alloc: Global,
    asking: Asking,
    at: usize,
    args: &[Value],
    bytes: &[u8],
) -> Result<LibAnswer, OutOfMemory>
    ensures { (w : LibWorld) (rs : List Value) → MayAsk w asking → MayUseAll w args.now → IfOk result (λ answer. Answered w w rs rs answer Elsewise (asks w args.now at bytes.now asking)) }
{
    let mut given = Vec::new(alloc);
    given.push(asking.value)?;
    let args = Vec::from_slice(alloc, args)?;
    let text = Bytes::from_slice(alloc, bytes)?;
    Ok(LibAnswer::CallBack {
        callee: asking.handler,
        args: given,
        then: Continue {
            builtin: Builtin::StringFormat,
            args,
            at,
            text,
        },
    })
}
