//! `table.insert` and `table.remove`.

ghost use Rattle.std.specs.Prelude.{◌≡◌, ◌+ℤ◌, ◌-ℤ◌, ◌≤ℤ◌, ◌&&◌, int_le, List, map, pos};
ghost use Rattle.std.specs.List.{AllByRecursion};
ghost use Rattle.luau_tables.specs.Rules as rule;
ghost use Rattle.value_arena.specs.Arenas.{table_at};
ghost use Rattle.value_model.specs.Parts.{meant, table_ref};
ghost use Rattle.value_model.specs.TableRows as table;
ghost use Rattle.value_model.specs.declared.value.Value.{Value};
ghost use Rattle.value_model.specs.declared.value.Value.TheVariants.{Table};
ghost use Rattle.luau_tables.specs.Worlds.{IsWorld, Keeps, MayUseIn, store_in};
ghost use Rattle.lib_arguments.specs.Rows.{Runs};

use crate::unpacking::one;
use lib_arguments::{Ending, any_at, give, number_at, number_or, out_of_range, table_at};
use luau_tables::LibWorld;
use resource::OutOfMemory;
use table_lists::{count_between, end_of, put};
use value_model::{Builtin, RunErr, TableId, Value};
use whole_num::Whole;

pub(crate) fn insert(args: &[Value], world: &mut LibWorld) -> Result<(), Ending>
    requires world { IsWorld world.old }
    requires args { AllByRecursion (MayUseIn world.old) args.now }
    ensures runs { (rs : List Value) → Runs world.old world.new rs rs result (table.insert_row (map (meant world.old.names) args.now) (store_in world.old)) }
    ensures keeps { Keeps world.old world.new }
{
    let t = match table_at(Builtin::TableInsert, 0, args) {
        Ok(t) => t,
        Err(e) => return Err(e),
    };
    match args.get(2) {
        None => match any_at(Builtin::TableInsert, 1, args) {
            Ok(v) => append(t, v, world),
            Err(e) => Err(e),
        },
        Some(v) => match number_at(Builtin::TableInsert, 1, &world.names, args) {
            Ok(k) => insert_at(t, k, *v, world),
            Err(e) => Err(e),
        },
    }
}

// Puts a value behind the border.
fn append(t: TableId, v: Value, world: &mut LibWorld) -> Result<(), Ending>
    requires world { IsWorld world.old }
    requires table { MayUseIn world.old (Table t) }
    requires value { MayUseIn world.old v }
    ensures runs { (rs : List Value) → Runs world.old world.new rs rs result (table.append (store_in world.old) (table_ref t) (meant world.old.names v)) }
    ensures keeps { Keeps world.old world.new }
{
    if world.arena.table(t).is_frozen() {
        return Err(Ending::RunError(RunErr::ReadonlyTable));
    }
    let k = match end_of(world.arena.table(t)).add(one()) {
        Ok(k) => k,
        Err(stop) => return Err(Ending::Stop(stop)),
    };
    match put(world.arena.table_mut(t), Value::Num(k), v) {
        Ok(()) => Ok(()),
        Err(OutOfMemory) => Err(Ending::OutOfMemory),
    }
}

// Whether a number is at least 1 and at most one behind another.
fn is_place(k: Whole, end: Whole) -> bool
    ensures { result ≡ (int_le (pos 1) k && int_le k (end +ℤ pos 1)) }
{
    1 <= k.get() && k.get() <= end.get() + 1
}

// Puts a value in its place, from which the others move up.
fn insert_at(t: TableId, k: Whole, v: Value, world: &mut LibWorld) -> Result<(), Ending>
    requires world { IsWorld world.old }
    requires table { MayUseIn world.old (Table t) }
    requires value { MayUseIn world.old v }
    ensures runs { (rs : List Value) → Runs world.old world.new rs rs result (table.insert_at (store_in world.old) (table_ref t) (meant world.old.names v) k) }
    ensures keeps { Keeps world.old world.new }
{
    let end = end_of(world.arena.table(t));
    if !is_place(k, end) {
        return Err(out_of_range(Builtin::TableInsert, 1));
    }
    if world.arena.table(t).is_frozen() {
        return Err(Ending::RunError(RunErr::ReadonlyTable));
    }
    if let Err(stop) = end.add(one()) {
        return Err(Ending::Stop(stop));
    }
    let count = count_between(k, end);
    match table_lists::insert(world.arena.table_mut(t), k, count, v) {
        Ok(()) => Ok(()),
        Err(OutOfMemory) => Err(Ending::OutOfMemory),
    }
}

pub(crate) fn remove(
    args: &[Value],
    world: &mut LibWorld,
    results: &mut Vec<Value>,
) -> Result<(), Ending>
    requires world { IsWorld world.old }
    requires args { AllByRecursion (MayUseIn world.old) args.now }
    ensures runs { Runs world.old world.new results.old.items results.new.items result (table.remove_row (map (meant world.old.names) args.now) (store_in world.old)) }
    ensures keeps { Keeps world.old world.new }
{
    let t = match table_at(Builtin::TableRemove, 0, args) {
        Ok(t) => t,
        Err(e) => return Err(e),
    };
    let end = end_of(world.arena.table(t));
    match number_or(Builtin::TableRemove, 1, &world.names, args, end) {
        Ok(k) => remove_at(t, k, end, world, results),
        Err(e) => Err(e),
    }
}

// Whether a number is at least 1 and at most another.
fn is_element(k: Whole, end: Whole) -> bool
    ensures { result ≡ (int_le (pos 1) k && int_le k end) }
{
    1 <= k.get() && k.get() <= end.get()
}

// How many whole numbers follow one up to another that is not below it.
fn count_behind(k: Whole, end: Whole) -> usize
    requires { k ≤ℤ end }
    ensures { pos result ≡ end -ℤ k }
{
    (end.get() - k.get()) as usize
}

// Takes out the element in a place, to which the others move down. The border is known.
fn remove_at(
    t: TableId,
    k: Whole,
    end: Whole,
    world: &mut LibWorld,
    results: &mut Vec<Value>,
) -> Result<(), Ending>
    requires world { IsWorld world.old }
    requires table { MayUseIn world.old (Table t) }
    requires border { end ≡ pos (rule.border (table_at world.old.arena t)) }
    ensures runs { Runs world.old world.new results.old.items results.new.items result (table.remove_at (store_in world.old) (table_ref t) k) }
    ensures keeps { Keeps world.old world.new }
{
    if world.arena.table(t).is_frozen() {
        return Err(Ending::RunError(RunErr::ReadonlyTable));
    }
    if !is_element(k, end) {
        return give(results, Value::Nil);
    }
    let v = world.arena.table(t).value(Value::Num(k));
    let count = count_behind(k, end);
    match table_lists::remove(world.arena.table_mut(t), k, count) {
        Ok(()) => give(results, v),
        Err(OutOfMemory) => Err(Ending::OutOfMemory),
    }
}
