//! What import constants lead to when a script is loaded. Its environment is empty then, so each path begins in the global table.

ghost use Rattle.std.specs.Prelude.{◌≡◌, IfOk, IfSome, map};
ghost use Rattle.std.specs.List.{AllByRecursion};
ghost use Rattle.luau_tables.specs.Worlds.{IsWorld, MayUseIn};
ghost use Rattle.machine_load.specs.Imports as spec;
ghost use Rattle.luau_tables.specs.Rules as rule;
ghost use Rattle.value_arena.specs.Arenas.{table_at};
ghost use Rattle.value_model.specs.declared.value.Value.TheVariants.{Str, Table};

use byte_text::StrId;
use luau_tables::LibWorld;
use op_words::Const;
use resource::OutOfMemory;
use sqlite_items::Items;
use std::alloc::Global;
use value_model::{TableId, Value};

/// What each of a function's constants holds as an import: the value that its names lead to, or nothing.
pub(crate) fn imports(
    alloc: Global,
    world: &LibWorld,
    constants: &[Const],
    values: &[Value],
) -> Result<Items<Option<Value>>, OutOfMemory>
    requires { IsWorld world.now }
    ensures found { IfOk result (λ found. found ≡ map (spec.import_of world.now values.now) constants.now) }
    ensures usable { IfOk result (λ found. AllByRecursion (λ o. IfSome o (MayUseIn world.now)) found) }
{
    let mut found = Items::new(alloc);
    for constant in constants {
        found.push(import_of(world, values, *constant))?;
    }
    Ok(found)
}

// What a constant holds as an import.
fn import_of(world: &LibWorld, values: &[Value], constant: Const) -> Option<Value>
    requires { IsWorld world.now }
    ensures value { result ≡ spec.import_of world.now values.now constant }
    ensures usable { IfSome result (MayUseIn world.now) }
{
    match constant {
        Const::Import(word) => held(world, values, word),
        _ => None,
    }
}

// What the import of a word holds.
fn held(world: &LibWorld, values: &[Value], word: u32) -> Option<Value>
    requires { IsWorld world.now }
    ensures value { result ≡ spec.held world.now values.now word }
    ensures usable { IfSome result (MayUseIn world.now) }
{
    let first = name_at(values, word / (1 << 20) % (1 << 10));
    let second = name_at(values, word / (1 << 10) % (1 << 10));
    let third = name_at(values, word % (1 << 10));
    match word / (1 << 30) {
        0 => None,
        1 => one_name(world, first),
        2 => two_names(world, first, second),
        _ => three_names(world, first, second, third),
    }
}

// The text that a constant is.
fn name_at(values: &[Value], index: u32) -> Option<StrId>
    ensures { result ≡ spec.name_at values.now index }
{
    match values.get(index as usize) {
        Some(Value::Str(name)) => Some(*name),
        _ => None,
    }
}

// What a path of one name leads to.
fn one_name(world: &LibWorld, first: Option<StrId>) -> Option<Value>
    requires { IsWorld world.now }
    ensures value { result ≡ spec.one_name world.now first }
    ensures usable { IfSome result (MayUseIn world.now) }
{
    match first {
        Some(first) => from_globals(world, first, &[]),
        None => None,
    }
}

// What a path of two names leads to.
fn two_names(world: &LibWorld, first: Option<StrId>, second: Option<StrId>) -> Option<Value>
    requires { IsWorld world.now }
    ensures value { result ≡ spec.two_names world.now first second }
    ensures usable { IfSome result (MayUseIn world.now) }
{
    match (first, second) {
        (Some(first), Some(second)) => from_globals(world, first, &[second]),
        _ => None,
    }
}

// What a path of three names leads to.
fn three_names(
    world: &LibWorld,
    first: Option<StrId>,
    second: Option<StrId>,
    third: Option<StrId>,
) -> Option<Value>
    requires { IsWorld world.now }
    ensures value { result ≡ spec.three_names world.now first second third }
    ensures usable { IfSome result (MayUseIn world.now) }
{
    match (first, second, third) {
        (Some(first), Some(second), Some(third)) => from_globals(world, first, &[second, third]),
        _ => None,
    }
}

// What names lead to from the global table on.
fn from_globals(world: &LibWorld, name: StrId, names: &[StrId]) -> Option<Value>
    requires { IsWorld world.now }
    ensures value { result ≡ spec.from_globals world.now name names.now }
    ensures usable { IfSome result (MayUseIn world.now) }
{
    let first = get(world, world.globals.table, name);
    led(world, first, names)
}

// What names lead to from a value on, through frozen tables.
fn led(world: &LibWorld, from: Value, names: &[StrId]) -> Option<Value>
    requires world { IsWorld world.now }
    requires usable { MayUseIn world.now from }
    ensures value { result ≡ spec.led world.now from names.now }
    ensures usable { IfSome result (MayUseIn world.now) }
{
    match from {
        Value::Nil => None,
        Value::Table(table) => match names.split_first() {
            Some((name, rest)) => {
                if world.arena.table(table).is_frozen() {
                    led(world, get(world, table, *name), rest)
                } else {
                    None
                }
            }
            None => Some(from),
        },
        _ => { if names.is_empty() { Some(from) } else { None } }
    }
}

// The value under a name.
fn get(world: &LibWorld, table: TableId, name: StrId) -> Value
    requires world { IsWorld world.now }
    requires table { MayUseIn world.now (Table table) }
    ensures value { result ≡ rule.get (table_at world.now.arena table) (Str name) }
    ensures usable { MayUseIn world.now result }
{
    world.arena.table(table).value(Value::Str(name))
}
