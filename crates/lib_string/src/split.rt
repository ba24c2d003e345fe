//! `split`.

ghost use Rattle.std.specs.List.{AllByRecursion};
ghost use Rattle.std.specs.Prelude.{◌≡◌, ◌<◌, ◌+◌, ◌++◌, ◌∷◌, [], List, length, map, pos, false, IfOk, OnOk};
ghost use Rattle.lib_arguments.specs.Rows.{Runs};
ghost use Rattle.lib_string.specs.Pieces.{texts_at, AreTextsOf};
ghost use Rattle.lib_string.specs.Reading.{AddsTexts, MayUseAll};
ghost use Rattle.luau_tables.specs.Own.{AreTexts};
ghost use Rattle.luau_tables.specs.Worlds.{IsWorld, Extends, Keeps, MayUseIn, store_in};
ghost use Rattle.value_arena.specs.Arenas.{table_at};
ghost use Rattle.value_model.specs.Parts.{bytes_at, meant, table_ref};
ghost use Rattle.value_model.specs.Store.{empty_table, next_table, with_new_table, with_table};
ghost use Rattle.value_model.specs.Store as store;
ghost use Rattle.value_model.specs.StringRows as row;
ghost use Rattle.value_model.specs.Tables.{put, put_all};
ghost use Rattle.value_model.specs.Values as model;
ghost use Rattle.value_model.specs.declared.value.Value.TheVariants.{Table};

use crate::arguments::{text_at, text_or};
use bstr::ByteSlice;
use byte_text::{Interner, StrId};
use lib_arguments::{Ending, give, text_value};
use luau_tables::{LibWorld, write};
use resource::OutOfMemory;
use std::alloc::Global;
use value_model::{Builtin, TableId, Value};
use whole_num::Whole;

/// `split`.
pub(crate) fn split(
    alloc: Global,
    args: &[Value],
    world: &mut LibWorld,
    results: &mut Vec<Value>,
) -> Result<(), Ending>
    requires world { IsWorld world.old }
    requires args { MayUseAll world.old args.now }
    ensures runs { Runs world.old world.new results.old.items results.new.items result (row.split_row (map (meant world.old.names) args.now) (store_in world.old)) }
    ensures keeps { Keeps world.old world.new }
{
    let text = match text_at(alloc, Builtin::StringSplit, 0, args, world) {
        Ok(text) => text,
        Err(ending) => return Err(ending),
    };
    let separator = match text_or(alloc, Builtin::StringSplit, 1, args, b",", world) {
        Ok(separator) => separator,
        Err(ending) => return Err(ending),
    };
    match split_at(alloc, text, separator, world) {
        Ok(table) => give(results, Value::Table(table)),
        Err(OutOfMemory) => Err(Ending::OutOfMemory),
    }
}

// A new table of the pieces of a text.
fn split_at(
    alloc: Global,
    text: StrId,
    separator: StrId,
    world: &mut LibWorld,
) -> Result<TableId, OutOfMemory>
    requires world { IsWorld world.old }
    requires text { text.0 < length world.old.names }
    requires separator { separator.0 < length world.old.names }
    ensures table { IfOk result (λ t. (table_ref t ≡ next_table (store_in world.old)) × MayUseIn world.new (Table t)) }
    ensures store { OnOk result (store_in world.new ≡ with_new_table (store_in world.old)
        (put_all empty_table (pos 1) (map (λ piece. model.Text piece) (row.split_at (bytes_at world.old.names separator.0) (bytes_at world.old.names text.0))))) }
    ensures keeps { Keeps world.old world.new }
{
    let pieces = pieces_of(alloc, text, separator, &mut world.names)?;
    table_of(pieces.as_slice(), world)
}

// The pieces of a text.
fn pieces_of(
    alloc: Global,
    text: StrId,
    separator: StrId,
    names: &mut Interner,
) -> Result<Vec<StrId>, OutOfMemory>
    requires text { text.0 < length names.old }
    requires separator { separator.0 < length names.old }
    ensures pieces { IfOk result (λ v. AreTextsOf names.new v.items (row.split_at (bytes_at names.old separator.0) (bytes_at names.old text.0))) }
    ensures extends { Extends names.old names.new }
    ensures texts { AreTexts names.old → AreTexts names.new }
{
    let bytes = Vec::from_slice(alloc, names.bytes(text))?;
    let parting = Vec::from_slice(alloc, names.bytes(separator))?;
    if parting.is_empty() {
        single_bytes(alloc, bytes.as_slice(), names)
    } else {
        between(alloc, bytes.as_slice(), parting.as_slice(), names)
    }
}

// Each byte as a text of its own.
fn single_bytes(
    alloc: Global,
    bytes: &[u8],
    names: &mut Interner,
) -> Result<Vec<StrId>, OutOfMemory>
    ensures pieces { IfOk result (λ v. AreTextsOf names.new v.items (map (λ b. b ∷ []) bytes.now)) }
    ensures extends { Extends names.old names.new }
    ensures texts { AreTexts names.old → AreTexts names.new }
{
    let mut pieces = Vec::new(alloc);
    for byte in bytes {
        push_text(&[*byte], names, &mut pieces)?;
    }
    Ok(pieces)
}

// The pieces between separators.
fn between(
    alloc: Global,
    bytes: &[u8],
    separator: &[u8],
    names: &mut Interner,
) -> Result<Vec<StrId>, OutOfMemory>
    requires { 0 < length separator.now }
    ensures pieces { IfOk result (λ v. AreTextsOf names.new v.items (row.pieces separator.now 0 [] bytes.now)) }
    ensures extends { Extends names.old names.new }
    ensures texts { AreTexts names.old → AreTexts names.new }
{
    let mut pieces = Vec::new(alloc);
    for piece in bytes.split_str(separator) {
        push_text(piece, names, &mut pieces)?;
    }
    Ok(pieces)
}

// Appends the number of a text.
fn push_text(bytes: &[u8], names: &mut Interner, pieces: &mut Vec<StrId>) -> Result<(), OutOfMemory>
    ensures pieces { (before : List model.Bytes) → AreTextsOf names.old pieces.old.items before → OnOk result (AreTextsOf names.new pieces.new.items (before ++ bytes.now ∷ [])) }
    ensures extends { Extends names.old names.new }
    ensures texts { AreTexts names.old → AreTexts names.new }
{
    let id = text_value(names, bytes)?;
    pieces.push(id)?;
    Ok(())
}

// A new table of texts, under the numbers from 1 on.
fn table_of(texts: &[StrId], world: &mut LibWorld) -> Result<TableId, OutOfMemory>
    requires world { IsWorld world.old }
    requires texts { AllByRecursion (λ id. id.0 < length world.old.names) texts.now }
    ensures table { IfOk result (λ t. (table_ref t ≡ next_table (store_in world.old)) × MayUseIn world.new (Table t)) }
    ensures store { OnOk result (store_in world.new ≡ with_new_table (store_in world.old) (put_all empty_table (pos 1) (texts_at world.old.names texts.now))) }
    ensures keeps { Keeps world.old world.new }
{
    let id = world.arena.new_table(world.owner)?;
    for (i, text) in texts.iter().enumerate() {
        put_item(id, i, Value::Str(*text), world)?;
    }
    Ok(id)
}

// Writes a value under the number behind a place.
fn put_item(
    id: TableId,
    place: usize,
    value: Value,
    world: &mut LibWorld,
) -> Result<(), OutOfMemory>
    requires world { IsWorld world.old }
    requires table { MayUseIn world.old (Table id) }
    requires thawed { (table_at world.old.arena id).is_frozen ≡ false }
    requires value { MayUseIn world.old value }
    ensures store { OnOk result (store_in world.new ≡ with_table (store_in world.old) (table_ref id)
        (put (store.table_at (store_in world.old) (table_ref id)) (model.Number (pos (place + 1))) (meant world.old.names value))) }
    ensures thawed { OnOk result ((table_at world.new.arena id).is_frozen ≡ false) }
    ensures names { world.new.names ≡ world.old.names }
    ensures keeps { Keeps world.old world.new }
{
    let key = key_behind(place)?;
    match write(&mut world.arena, id, Value::Num(key), value) {
        Ok(()) => Ok(()),
        Err(_) => Err(OutOfMemory),
    }
}

// The number behind a place. One too great for a whole number wants memory.
fn key_behind(place: usize) -> Result<Whole, OutOfMemory>
    ensures { IfOk result (λ key. key ≡ pos (place + 1)) }
{
    match i64::try_from(place) {
        Ok(place) => match place.checked_add(1).and_then(Whole::new) {
            Some(key) => Ok(key),
            None => Err(OutOfMemory),
        },
        Err(_) => Err(OutOfMemory),
    }
}
