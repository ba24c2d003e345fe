//! `rep`.

ghost use Rattle.std.specs.List.{repeat};
ghost use Rattle.std.specs.Prelude.{◌≡◌, ◌<◌, length, map, IfOk};
ghost use Rattle.lib_arguments.specs.Rows.{Runs};
ghost use Rattle.lib_string.specs.Reading.{AddsTexts, MayUseAll};
ghost use Rattle.luau_tables.specs.Worlds.{IsWorld, store_in};
ghost use Rattle.value_model.specs.Parts.{bytes_at, meant};
ghost use Rattle.value_model.specs.StringRows as row;

use crate::arguments::{number_at, text_at};
use crate::giving::{give_made, give_text};
use byte_text::StrId;
use lib_arguments::Ending;
use luau_tables::LibWorld;
use resource::OutOfMemory;
use std::alloc::Global;
use value_model::{Builtin, RunErr, Value};
use whole_num::Whole;

// A string has at most so many bytes.
const LONGEST_STRING: usize = 16_777_216;

/// `rep`.
pub(crate) fn rep(
    alloc: Global,
    args: &[Value],
    world: &mut LibWorld,
    results: &mut Vec<Value>,
) -> Result<(), Ending>
    requires world { IsWorld world.old }
    requires args { MayUseAll world.old args.now }
    ensures runs { Runs world.old world.new results.old.items results.new.items result (row.rep_row (map (meant world.old.names) args.now) (store_in world.old)) }
    ensures adds { AddsTexts world.old world.new }
{
    let text = match text_at(alloc, Builtin::StringRep, 0, args, world) {
        Ok(text) => text,
        Err(ending) => return Err(ending),
    };
    let count = match number_at(Builtin::StringRep, 1, args, world) {
        Ok(count) => count,
        Err(ending) => return Err(ending),
    };
    rep_text(alloc, text, natural(count), world, results)
}

// The number, or 0 where it is below 0.
fn natural(number: Whole) -> usize
    ensures { result ≡ row.natural number }
{
    number.get().max(0) as usize
}

// Gives a text so many times over.
fn rep_text(
    alloc: Global,
    text: StrId,
    count: usize,
    world: &mut LibWorld,
    results: &mut Vec<Value>,
) -> Result<(), Ending>
    requires world { IsWorld world.old }
    requires text { text.0 < length world.old.names }
    ensures runs { Runs world.old world.new results.old.items results.new.items result (row.rep_text (store_in world.old) (bytes_at world.old.names text.0) count) }
    ensures adds { AddsTexts world.old world.new }
{
    let bytes = world.names.bytes(text);
    if bytes.is_empty() {
        return give_text(b"", world, results);
    }
    if count > LONGEST_STRING / bytes.len() {
        return Err(Ending::RunError(RunErr::StringTooLarge));
    }
    give_made(repeated(alloc, bytes, count), world, results)
}

// The bytes so many times over.
fn repeated(alloc: Global, bytes: &[u8], count: usize) -> Result<Vec<u8>, OutOfMemory>
    ensures { IfOk result (λ v. v.items ≡ repeat count bytes.now) }
{
    Ok(bytes.repeat(alloc, count)?)
}
