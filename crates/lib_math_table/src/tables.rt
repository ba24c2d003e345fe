//! `table.clear`, `freeze` and `isfrozen`.

ghost use Rattle.std.specs.Prelude.{List, map};
ghost use Rattle.std.specs.List.{AllByRecursion};
ghost use Rattle.value_model.specs.TableRows as table;
ghost use Rattle.value_model.specs.Parts.{meant};
ghost use Rattle.value_model.specs.declared.value.Value.{Value};
ghost use Rattle.luau_tables.specs.Worlds.{IsWorld, Keeps, MayUseIn, store_in};
ghost use Rattle.lib_arguments.specs.Rows.{Runs};

use lib_arguments::{Ending, give, table_at};
use luau_tables::LibWorld;
use value_model::{Builtin, RunErr, Value};

pub(crate) fn isfrozen(
    args: &[Value],
    world: &LibWorld,
    results: &mut Vec<Value>,
) -> Result<(), Ending>
    requires world { IsWorld world.now }
    requires args { AllByRecursion (MayUseIn world.now) args.now }
    ensures { Runs world.now world.now results.old.items results.new.items result (table.isfrozen_row (map (meant world.now.names) args.now) (store_in world.now)) }
{
    let t = match table_at(Builtin::TableIsfrozen, 0, args) {
        Ok(t) => t,
        Err(e) => return Err(e),
    };
    give(results, Value::Bool(world.arena.table(t).is_frozen()))
}

pub(crate) fn freeze(
    args: &[Value],
    world: &mut LibWorld,
    results: &mut Vec<Value>,
) -> Result<(), Ending>
    requires world { IsWorld world.old }
    requires args { AllByRecursion (MayUseIn world.old) args.now }
    ensures runs { Runs world.old world.new results.old.items results.new.items result (table.freeze_row (map (meant world.old.names) args.now) (store_in world.old)) }
    ensures keeps { Keeps world.old world.new }
{
    let t = match table_at(Builtin::TableFreeze, 0, args) {
        Ok(t) => t,
        Err(e) => return Err(e),
    };
    world.arena.freeze(t);
    give(results, Value::Table(t))
}

pub(crate) fn clear(args: &[Value], world: &mut LibWorld) -> Result<(), Ending>
    requires world { IsWorld world.old }
    requires args { AllByRecursion (MayUseIn world.old) args.now }
    ensures runs { (rs : List Value) → Runs world.old world.new rs rs result (table.clear_row (map (meant world.old.names) args.now) (store_in world.old)) }
    ensures keeps { Keeps world.old world.new }
{
    let t = match table_at(Builtin::TableClear, 0, args) {
        Ok(t) => t,
        Err(e) => return Err(e),
    };
    if world.arena.table(t).is_frozen() {
        return Err(Ending::RunError(RunErr::ReadonlyTable));
    }
    table_lists::clear(world.arena.table_mut(t));
    Ok(())
}
