//! `table.move`.

ghost use Rattle.std.specs.Prelude.{◌≡◌, ◌⊎◌, List, map, nat_le, slice_index_or, IfOk};
ghost use Rattle.std.specs.List.{AllByRecursion};
ghost use Rattle.value_model.specs.Parts.{meant, table_ref};
ghost use Rattle.value_model.specs.StringRows.{count_between};
ghost use Rattle.value_model.specs.TableRows as table;
ghost use Rattle.value_model.specs.Arguments as row;
ghost use Rattle.value_model.specs.Values.{Bytes};
ghost use Rattle.value_model.specs.declared.value.Value.TheVariants.{Nil, Table};
ghost use Rattle.luau_tables.specs.Worlds.{IsWorld, Keeps, MayUseIn, store_in};
ghost use Rattle.lib_arguments.specs.Checks.{Checks};
ghost use Rattle.lib_arguments.specs.Rows.{Runs};
ghost use Rattle.lib_math_table.specs.Targets.{targets};

use lib_arguments::{Ending, argument_or_nil, give, number_at, table_at, table_from};
use luau_tables::LibWorld;
use resource::OutOfMemory;
use table_lists::{count_between, items, put_all};
use value_model::{Builtin, RunErr, TableId, Value};
use whole_num::{Stop, Whole};

// A table is made with at most so many elements, and as many are moved.
pub(crate) const MOST_ELEMENTS: usize = 16_777_216;

pub(crate) fn move_items(
    args: &[Value],
    world: &mut LibWorld,
    results: &mut Vec<Value>,
) -> Result<(), Ending>
    requires world { IsWorld world.old }
    requires args { AllByRecursion (MayUseIn world.old) args.now }
    ensures runs { Runs world.old world.new results.old.items results.new.items result (table.move_row (map (meant world.old.names) args.now) (store_in world.old)) }
    ensures keeps { Keeps world.old world.new }
{
    let t = match table_at(Builtin::TableMove, 0, args) {
        Ok(t) => t,
        Err(e) => return Err(e),
    };
    let first = match number_at(Builtin::TableMove, 1, &world.names, args) {
        Ok(n) => n,
        Err(e) => return Err(e),
    };
    let last = match number_at(Builtin::TableMove, 2, &world.names, args) {
        Ok(n) => n,
        Err(e) => return Err(e),
    };
    let at = match number_at(Builtin::TableMove, 3, &world.names, args) {
        Ok(n) => n,
        Err(e) => return Err(e),
    };
    let to = match target(t, args) {
        Ok(u) => u,
        Err(e) => return Err(e),
    };
    move_to(t, first, last, to, at, world, results)
}

// The table that elements go into: the first one where none is given.
fn target(t: TableId, args: &[Value]) -> Result<TableId, Ending>
    ensures checks { (texts : List Bytes) → Checks texts table_ref (targets (table_ref t) (row.argument_or_nil (map (meant texts) args.now) 4)) result }
    ensures there { IfOk result (λ u. (u ≡ t) ⊎ (slice_index_or args.now 4 Nil ≡ Table u)) }
{
    match argument_or_nil(args, 4) {
        Value::Nil => Ok(t),
        v => table_from(Builtin::TableMove, 4, v),
    }
}

// Moves the elements between two numbers.
fn move_to(
    t: TableId,
    first: Whole,
    last: Whole,
    to: TableId,
    at: Whole,
    world: &mut LibWorld,
    results: &mut Vec<Value>,
) -> Result<(), Ending>
    requires world { IsWorld world.old }
    requires from { MayUseIn world.old (Table t) }
    requires to { MayUseIn world.old (Table to) }
    ensures runs { Runs world.old world.new results.old.items results.new.items result (table.moves (store_in world.old) (table_ref t) (table_ref to) first at (count_between first last) (nat_le (count_between first last) table.most_elements)) }
    ensures keeps { Keeps world.old world.new }
{
    let count = count_between(first, last);
    if count > MOST_ELEMENTS {
        return Err(Ending::RunError(RunErr::TooManyValues));
    }
    if world.arena.table(to).is_frozen() {
        return Err(Ending::RunError(RunErr::ReadonlyTable));
    }
    if count == 0 {
        return give(results, Value::Table(to));
    }
    if at.get() + (count as i64 - 1) > Whole::GREATEST {
        return Err(Ending::Stop(Stop::OutOfRange));
    }
    let values = match items(*results.allocator(), world.arena.table(t), first, count) {
        Ok(values) => values,
        Err(OutOfMemory) => return Err(Ending::OutOfMemory),
    };
    match put_all(world.arena.table_mut(to), at, values.as_slice()) {
        Ok(()) => give(results, Value::Table(to)),
        Err(OutOfMemory) => Err(Ending::OutOfMemory),
    }
}
