//! Functions of whole texts: `len`, `sub`, `lower`, `upper` and `reverse`.

ghost use Rattle.std.specs.Char.{to_ascii_lowercase, to_ascii_uppercase};
ghost use Rattle.std.specs.Prelude.{◌≡◌, ◌<◌, length, map, pos, reverse, IfOk};
ghost use Rattle.lib_arguments.specs.Rows.{Runs};
ghost use Rattle.lib_string.specs.Changes.{changed};
ghost use Rattle.lib_string.specs.Reading.{AddsTexts, MayUseAll};
ghost use Rattle.luau_tables.specs.Worlds.{IsWorld, store_in};
ghost use Rattle.value_model.specs.Parts.{bytes_at, meant};
ghost use Rattle.value_model.specs.StringRows as row;

use crate::arguments::{number_at, number_or, text_at};
use crate::giving::{give_made, give_number, whole};
use crate::positions::bytes_between;
use byte_text::StrId;
use lib_arguments::Ending;
use luau_tables::LibWorld;
use resource::OutOfMemory;
use std::alloc::Global;
use value_model::{Builtin, Value};
use whole_num::Whole;

/// `len`.
pub(crate) fn len(
    alloc: Global,
    args: &[Value],
    world: &mut LibWorld,
    results: &mut Vec<Value>,
) -> Result<(), Ending>
    requires world { IsWorld world.old }
    requires args { MayUseAll world.old args.now }
    ensures runs { Runs world.old world.new results.old.items results.new.items result (row.len_row (map (meant world.old.names) args.now) (store_in world.old)) }
    ensures adds { AddsTexts world.old world.new }
{
    let text = match text_at(alloc, Builtin::StringLen, 0, args, world) {
        Ok(text) => text,
        Err(ending) => return Err(ending),
    };
    give_number(length_of(text, world), world, results)
}

// How many bytes a text has.
fn length_of(text: StrId, world: &LibWorld) -> Whole
    requires world { IsWorld world.now }
    requires text { text.0 < length world.now.names }
    ensures { result ≡ pos (length (bytes_at world.now.names text.0)) }
{
    whole(world.names.bytes(text).len() as i64)
}

/// `sub`.
pub(crate) fn sub(
    alloc: Global,
    args: &[Value],
    world: &mut LibWorld,
    results: &mut Vec<Value>,
) -> Result<(), Ending>
    requires world { IsWorld world.old }
    requires args { MayUseAll world.old args.now }
    ensures runs { Runs world.old world.new results.old.items results.new.items result (row.sub_row (map (meant world.old.names) args.now) (store_in world.old)) }
    ensures adds { AddsTexts world.old world.new }
{
    let text = match text_at(alloc, Builtin::StringSub, 0, args, world) {
        Ok(text) => text,
        Err(ending) => return Err(ending),
    };
    let first = match number_at(Builtin::StringSub, 1, args, world) {
        Ok(first) => first,
        Err(ending) => return Err(ending),
    };
    let last = match number_or(Builtin::StringSub, 2, args, whole(-1), world) {
        Ok(last) => last,
        Err(ending) => return Err(ending),
    };
    give_made(part_of(alloc, text, first, last, world), world, results)
}

// A copy of the bytes of a text between two positions.
fn part_of(
    alloc: Global,
    text: StrId,
    first: Whole,
    last: Whole,
    world: &LibWorld,
) -> Result<Vec<u8>, OutOfMemory>
    requires world { IsWorld world.now }
    requires text { text.0 < length world.now.names }
    ensures { IfOk result (λ v. v.items ≡ row.bytes_between (bytes_at world.now.names text.0) first last) }
{
    let part = bytes_between(world.names.bytes(text), first, last);
    Ok(Vec::from_slice(alloc, part)?)
}

/// `lower`, `upper` and `reverse`.
pub(crate) fn change(
    alloc: Global,
    f: Builtin,
    args: &[Value],
    world: &mut LibWorld,
    results: &mut Vec<Value>,
) -> Result<(), Ending>
    requires world { IsWorld world.old }
    requires args { MayUseAll world.old args.now }
    ensures runs { Runs world.old world.new results.old.items results.new.items result (row.of_text f (changed f) (map (meant world.old.names) args.now) (store_in world.old)) }
    ensures adds { AddsTexts world.old world.new }
{
    let text = match text_at(alloc, f, 0, args, world) {
        Ok(text) => text,
        Err(ending) => return Err(ending),
    };
    give_made(changed(alloc, f, world.names.bytes(text)), world, results)
}

// The text that a function makes of another one.
fn changed(alloc: Global, f: Builtin, bytes: &[u8]) -> Result<Vec<u8>, OutOfMemory>
    ensures { IfOk result (λ v. v.items ≡ changed f bytes.now) }
{
    match f {
        Builtin::StringLower => lower(alloc, bytes),
        Builtin::StringUpper => upper(alloc, bytes),
        _ => mirrored(alloc, bytes),
    }
}

fn lower(alloc: Global, bytes: &[u8]) -> Result<Vec<u8>, OutOfMemory>
    ensures { IfOk result (λ v. v.items ≡ map to_ascii_lowercase bytes.now) }
{
    Ok(bytes.to_ascii_lowercase(alloc)?)
}

fn upper(alloc: Global, bytes: &[u8]) -> Result<Vec<u8>, OutOfMemory>
    ensures { IfOk result (λ v. v.items ≡ map to_ascii_uppercase bytes.now) }
{
    Ok(bytes.to_ascii_uppercase(alloc)?)
}

fn mirrored(alloc: Global, bytes: &[u8]) -> Result<Vec<u8>, OutOfMemory>
    ensures { IfOk result (λ v. v.items ≡ reverse bytes.now) }
{
    Ok(bytes.iter().rev().copied().collect(alloc)?)
}
