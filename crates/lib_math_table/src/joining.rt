//! `table.concat`.

ghost use Rattle.std.specs.Prelude.{◌≡◌, ◌+◌, ◌<◌, ◌≤ℤ◌, ◌+ℤ◌, ◌^◌, [], List, length, map, pos, None, OnOk, IfOk};
ghost use Rattle.std.specs.List.{AllByRecursion};
ghost use Rattle.whole_num.specs.Whole.{IsWhole};
ghost use Rattle.value_model.specs.Answers as model;
ghost use Rattle.value_model.specs.Errors as error;
ghost use Rattle.value_model.specs.Metamethods.{as_text};
ghost use Rattle.value_model.specs.Parts.{bytes_at, meant, table_ref};
ghost use Rattle.value_model.specs.Store as store;
ghost use Rattle.value_model.specs.StringRows.{count_between};
ghost use Rattle.value_model.specs.TableRows as table;
ghost use Rattle.value_model.specs.Values.{Bytes, kind_of};
ghost use Rattle.value_model.specs.declared.value.Value.TheVariants as value;
ghost use Rattle.luau_tables.specs.Own.{HasText};
ghost use Rattle.luau_tables.specs.Part.{OfTable};
ghost use Rattle.luau_tables.specs.Worlds.{IsWorld, Keeps, MayUseIn, store_in};
ghost use Rattle.lib_arguments.specs.Checks.{Fails};
ghost use Rattle.lib_arguments.specs.Rows.{Runs};
ghost use Rattle.table_lists.specs.Lists.{items};
ghost use Rattle.lib_math_table.specs.Joined.{appended, joined_from, parted, AddsText, GivesText, JoinsOrFails};

use crate::unpacking::one;
use byte_text::{Interner, StrId};
use lib_arguments::{Ending, give_text, number_or, table_at, text_or};
use luau_tables::LibWorld;
use resource::OutOfMemory;
use std::alloc::Global;
use table_lists::{count_between, end_of};
use value_arena::Table;
use value_model::{Builtin, RunErr, TableId, Value};
use whole_num::{Whole, print_into};

// A string has at most so many bytes.
const LONGEST_STRING: usize = 16_777_216;

pub(crate) fn concat(
    args: &[Value],
    world: &mut LibWorld,
    results: &mut Vec<Value>,
) -> Result<(), Ending>
    requires world { IsWorld world.old }
    requires args { AllByRecursion (MayUseIn world.old) args.now }
    ensures runs { Runs world.old world.new results.old.items results.new.items result (table.concat_row (map (meant world.old.names) args.now) (store_in world.old)) }
    ensures keeps { Keeps world.old world.new }
{
    let t = match table_at(Builtin::TableConcat, 0, args) {
        Ok(t) => t,
        Err(e) => return Err(e),
    };
    let alloc = *results.allocator();
    match text_or(alloc, Builtin::TableConcat, 1, &mut world.names, args, b"") {
        Ok(separator) => concat_with(t, separator, args, world, results),
        Err(e) => Err(e),
    }
}

// Gives the texts of the elements between two numbers, with a separator between them.
fn concat_with(
    t: TableId,
    separator: StrId,
    args: &[Value],
    world: &mut LibWorld,
    results: &mut Vec<Value>,
) -> Result<(), Ending>
    requires world { IsWorld world.old }
    requires table { MayUseIn world.old (value.Table t) }
    requires separator { separator.0 < length world.old.names }
    requires args { AllByRecursion (MayUseIn world.old) args.now }
    ensures runs { Runs world.old world.new results.old.items results.new.items result (joined_from (store_in world.old) (table_ref t) (bytes_at world.old.names separator.0) (map (meant world.old.names) args.now)) }
    ensures keeps { Keeps world.old world.new }
{
    let first = match number_or(Builtin::TableConcat, 2, &world.names, args, one()) {
        Ok(n) => n,
        Err(e) => return Err(e),
    };
    let end = end_of(world.arena.table(t));
    let last = match number_or(Builtin::TableConcat, 3, &world.names, args, end) {
        Ok(n) => n,
        Err(e) => return Err(e),
    };
    match joined(*results.allocator(), world, t, separator, first, last) {
        Ok(text) => give_text(text.as_slice(), world, results),
        Err(e) => Err(e),
    }
}

// The texts of the elements between two numbers, with a separator between them.
fn joined(
    alloc: Global,
    world: &LibWorld,
    t: TableId,
    separator: StrId,
    first: Whole,
    last: Whole,
) -> Result<Vec<u8>, Ending>
    requires world { IsWorld world.now }
    requires table { MayUseIn world.now (value.Table t) }
    requires separator { separator.0 < length world.now.names }
    ensures { GivesText world.now.names (store_in world.now) (λ text. text.items) (table.joins (store_in world.now) (store.table_at (store_in world.now) (table_ref t)) (bytes_at world.now.names separator.0) first (count_between first last) None) result }
{
    let names = &world.names;
    let table = world.arena.table(t);
    let count = count_between(first, last);
    let mut text = Vec::new(alloc);
    match join(
        names,
        table,
        names.bytes(separator),
        first,
        count,
        &mut text,
    ) {
        Ok(()) => {}
        Err(e) => return Err(e),
    }
    if text.len() > LONGEST_STRING {
        return Err(Ending::RunError(RunErr::StringTooLarge));
    }
    Ok(text)
}

// Writes the texts of so many elements from one on, with the separator between them. Once the text is too long nothing more is
// appended, and the other elements are looked at all the same.
fn join(
    names: &Interner,
    table: &Table,
    separator: &[u8],
    first: Whole,
    count: usize,
    text: &mut Vec<u8>,
) -> Result<(), Ending>
    requires texts { OfTable (HasText names.now) table.now }
    requires within { (first +ℤ pos count) ≤ℤ pos (2 ^ 53 + 1) }
    requires empty { text.old.items ≡ [] }
    ensures { JoinsOrFails names.now separator.now first (map (meant names.now) (items table.now first count)) text.new.items result }
{
    for step in 0..count {
        match part(step == 0, separator, text) {
            Ok(()) => {}
            Err(OutOfMemory) => return Err(Ending::OutOfMemory),
        }
        let k = first.get() + step as i64;
        let v = table.item(k);
        match add_value(names, &v, text) {
            Ok(true) => {}
            Ok(false) => return Err(invalid_element(&v, k)),
            Err(OutOfMemory) => return Err(Ending::OutOfMemory),
        }
    }
    Ok(())
}

// An element that is neither a string nor a number.
fn invalid_element(v: &Value, k: i64) -> Ending
    requires { IsWhole k }
    ensures { (texts : List Bytes) → Fails texts (model.ErrsWith (error.InvalidElement (kind_of (meant texts v.now)) k)) result }
{
    match Whole::new(k) {
        Some(place) => Ending::RunError(RunErr::InvalidElement {
            got: v.kind(),
            place,
        }),
        None => unreachable!(),
    }
}

// Appends bytes, unless the text is too long.
fn add(text: &mut Vec<u8>, bytes: &[u8]) -> Result<(), OutOfMemory>
    ensures { OnOk result (text.new.items ≡ appended text.old.items bytes.now) }
{
    if text.len() <= LONGEST_STRING {
        text.extend_from_slice(bytes)?;
    }
    Ok(())
}

// Appends the separator, but before the first element.
fn part(is_first: bool, separator: &[u8], text: &mut Vec<u8>) -> Result<(), OutOfMemory>
    ensures { OnOk result (text.new.items ≡ parted is_first separator.now text.old.items) }
{
    if is_first {
        return Ok(());
    }
    add(text, separator)
}

// Appends the text of a value, if it has one.
fn add_value(names: &Interner, v: &Value, text: &mut Vec<u8>) -> Result<bool, OutOfMemory>
    requires { HasText names.now v.now }
    ensures { IfOk result (λ b. AddsText (as_text (meant names.now v.now)) text.old.items text.new.items b) }
{
    match v {
        Value::Str(id) => {
            add(text, names.bytes(*id))?;
            Ok(true)
        }
        Value::Num(n) => {
            if text.len() <= LONGEST_STRING {
                print_into(*n, text)?;
            }
            Ok(true)
        }
        _ => Ok(false),
    }
}
