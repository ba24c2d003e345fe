//! `table.create` and `table.pack`.

ghost use Rattle.std.specs.Prelude.{◌≡◌, ◌^◌, ◌≤◌, pos, Some, IfSome, length, map, slice_get, codes};
ghost use Rattle.std.specs.List.{AllByRecursion};
ghost use Rattle.value_model.specs.Parts.{meant};
ghost use Rattle.value_model.specs.StringRows as string;
ghost use Rattle.value_model.specs.TableRows as table;
ghost use Rattle.luau_tables.specs.Worlds.{IsWorld, Keeps, MayUseIn, store_in};
ghost use Rattle.lib_arguments.specs.Rows.{Runs};

use crate::moving::MOST_ELEMENTS;
use crate::unpacking::one;
use byte_text::StrId;
use lib_arguments::{Ending, argument_or_nil, give, number_at, text_value};
use luau_tables::LibWorld;
use resource::OutOfMemory;
use table_lists::{fill, is_nil, put_all_and};
use value_model::{Builtin, RunErr, Value};
use whole_num::Whole;

pub(crate) fn create(
    args: &[Value],
    world: &mut LibWorld,
    results: &mut Vec<Value>,
) -> Result<(), Ending>
    requires world { IsWorld world.old }
    requires args { AllByRecursion (MayUseIn world.old) args.now }
    ensures runs { Runs world.old world.new results.old.items results.new.items result (table.create_row (map (meant world.old.names) args.now) (store_in world.old)) }
    ensures keeps { Keeps world.old world.new }
{
    let n = match number_at(Builtin::TableCreate, 0, &world.names, args) {
        Ok(n) => n,
        Err(e) => return Err(e),
    };
    let count = natural(n);
    if count > MOST_ELEMENTS {
        return Err(Ending::RunError(RunErr::TooManyValues));
    }
    filled(count, argument_or_nil(args, 1), world, results)
}

// A number that is not below 0, and 0 for those that are.
fn natural(n: Whole) -> usize
    ensures { result ≡ string.natural n }
{
    let n = n.get();
    if n < 0 { 0 } else { n as usize }
}

// Gives a new table with so many elements, unless the value is nil.
fn filled(
    count: usize,
    v: Value,
    world: &mut LibWorld,
    results: &mut Vec<Value>,
) -> Result<(), Ending>
    requires world { IsWorld world.old }
    requires value { MayUseIn world.old v }
    requires count { count ≤ table.most_elements }
    ensures runs { Runs world.old world.new results.old.items results.new.items result (string.new_table (store_in world.old) (table.filled_table count (meant world.old.names v))) }
    ensures keeps { Keeps world.old world.new }
{
    let filling = &v;
    let t = match world.arena.new_table(world.owner) {
        Ok(t) => t,
        Err(OutOfMemory) => return Err(Ending::OutOfMemory),
    };
    if is_nil(filling) {
        return give(results, Value::Table(t));
    }
    match fill(world.arena.table_mut(t), count, *filling) {
        Ok(()) => give(results, Value::Table(t)),
        Err(OutOfMemory) => Err(Ending::OutOfMemory),
    }
}

pub(crate) fn pack(
    args: &[Value],
    world: &mut LibWorld,
    results: &mut Vec<Value>,
) -> Result<(), Ending>
    requires world { IsWorld world.old }
    requires args { AllByRecursion (MayUseIn world.old) args.now }
    ensures runs { Runs world.old world.new results.old.items results.new.items result (table.pack_row (map (meant world.old.names) args.now) (store_in world.old)) }
    ensures keeps { Keeps world.old world.new }
{
    match text_value(&mut world.names, b"n") {
        Ok(n) => packed(n, args, world, results),
        Err(OutOfMemory) => Err(Ending::OutOfMemory),
    }
}

// Gives a new table of values, with their number under the key `n`. More values than there are whole numbers want memory.
fn packed(
    n: StrId,
    values: &[Value],
    world: &mut LibWorld,
    results: &mut Vec<Value>,
) -> Result<(), Ending>
    requires world { IsWorld world.old }
    requires values { AllByRecursion (MayUseIn world.old) values.now }
    requires n { slice_get world.old.names n.0 ≡ Some (codes "n") }
    ensures runs { Runs world.old world.new results.old.items results.new.items result (table.pack_row (map (meant world.old.names) values.now) (store_in world.old)) }
    ensures keeps { Keeps world.old world.new }
{
    let count = match count_of(values) {
        Some(count) => count,
        None => return Err(Ending::OutOfMemory),
    };
    let t = match world.arena.new_table(world.owner) {
        Ok(t) => t,
        Err(OutOfMemory) => return Err(Ending::OutOfMemory),
    };
    match put_all_and(
        world.arena.table_mut(t),
        one(),
        values,
        Value::Str(n),
        Value::Num(count),
    ) {
        Ok(()) => give(results, Value::Table(t)),
        Err(OutOfMemory) => Err(Ending::OutOfMemory),
    }
}

// How many values there are, where that is a whole number.
fn count_of(values: &[Value]) -> Option<Whole>
    ensures count { IfSome result (λ n. n ≡ pos (length values.now)) }
    ensures few { IfSome result (λ _. length values.now ≤ 2 ^ 53) }
{
    if values.len() > Whole::GREATEST as usize {
        return None;
    }
    Whole::new(values.len() as i64)
}
