//! `table.clone`.

ghost use Rattle.std.specs.Prelude.{◌≡◌, map};
ghost use Rattle.value_model.specs.CoreRows as core;
ghost use Rattle.value_model.specs.StringRows as string;
ghost use Rattle.value_model.specs.Store as store;
ghost use Rattle.value_model.specs.declared.value.Value.TheVariants.{Table};
ghost use Rattle.std.specs.List.{AllByRecursion};
ghost use Rattle.value_model.specs.Parts.{meant, table_ref};
ghost use Rattle.value_model.specs.TableRows as table;
ghost use Rattle.luau_tables.specs.Worlds.{IsWorld, Keeps, MayUseIn, store_in};
ghost use Rattle.lib_arguments.specs.Rows.{Runs};

use lib_arguments::{Ending, give, table_at};
use luau_tables::LibWorld;
use resource::OutOfMemory;
use table_lists::{entries, is_nil, put_entries};
use value_model::{Builtin, RunErr, TableId, Value};

pub(crate) fn clone_table(
    args: &[Value],
    world: &mut LibWorld,
    results: &mut Vec<Value>,
) -> Result<(), Ending>
    requires world { IsWorld world.old }
    requires args { AllByRecursion (MayUseIn world.old) args.now }
    ensures runs { Runs world.old world.new results.old.items results.new.items result (table.clone_row (map (meant world.old.names) args.now) (store_in world.old)) }
    ensures keeps { Keeps world.old world.new }
{
    let t = match table_at(Builtin::TableClone, 0, args) {
        Ok(t) => t,
        Err(e) => return Err(e),
    };
    if is_protected(world, t) {
        return Err(Ending::RunError(RunErr::ProtectedMetatable));
    }
    give_copy(t, world, results)
}

// Whether a table has a metatable with `__metatable`.
fn is_protected(world: &LibWorld, t: TableId) -> bool
    requires world { IsWorld world.now }
    requires table { MayUseIn world.now (Table t) }
    ensures { result ≡ core.is_protected (store_in world.now) (table_ref t) }
{
    match world.arena.table(t).meta() {
        Some(meta) => {
            !is_nil(
                &world
                    .arena
                    .table(meta)
                    .value(Value::Str(world.globals.meta.metatable)),
            )
        }
        None => false,
    }
}

// Gives a new table with the entries of another that are not nil, and its metatable.
fn give_copy(t: TableId, world: &mut LibWorld, results: &mut Vec<Value>) -> Result<(), Ending>
    requires world { IsWorld world.old }
    requires table { MayUseIn world.old (Table t) }
    ensures runs { Runs world.old world.new results.old.items results.new.items result (string.new_table (store_in world.old) (table.copy_of (store.table_at (store_in world.old) (table_ref t)))) }
    ensures keeps { Keeps world.old world.new }
{
    let kept = match entries(*results.allocator(), world.arena.table(t)) {
        Ok(kept) => kept,
        Err(OutOfMemory) => return Err(Ending::OutOfMemory),
    };
    let meta = world.arena.table(t).meta();
    let copy = match world.arena.new_table(world.owner) {
        Ok(copy) => copy,
        Err(OutOfMemory) => return Err(Ending::OutOfMemory),
    };
    match put_entries(world.arena.table_mut(copy), kept.as_slice(), meta) {
        Ok(()) => give(results, Value::Table(copy)),
        Err(OutOfMemory) => Err(Ending::OutOfMemory),
    }
}
