//! `table.find`.

ghost use Rattle.std.specs.Prelude.{map};
ghost use Rattle.std.specs.List.{AllByRecursion};
ghost use Rattle.value_model.specs.Parts.{meant};
ghost use Rattle.value_model.specs.TableRows as table;
ghost use Rattle.luau_tables.specs.Worlds.{IsWorld, MayUseIn, store_in};
ghost use Rattle.lib_arguments.specs.Rows.{Runs};

use crate::unpacking::one;
use lib_arguments::{Ending, any_at, give, number_or, table_at};
use luau_tables::LibWorld;
use value_model::{Builtin, Value};

pub(crate) fn find(args: &[Value], world: &LibWorld, results: &mut Vec<Value>) -> Result<(), Ending>
    requires world { IsWorld world.now }
    requires args { AllByRecursion (MayUseIn world.now) args.now }
    ensures { Runs world.now world.now results.old.items results.new.items result (table.find_row (map (meant world.now.names) args.now) (store_in world.now)) }
{
    let t = match table_at(Builtin::TableFind, 0, args) {
        Ok(t) => t,
        Err(e) => return Err(e),
    };
    let v = match any_at(Builtin::TableFind, 1, args) {
        Ok(v) => v,
        Err(e) => return Err(e),
    };
    let first = match number_or(Builtin::TableFind, 2, &world.names, args, one()) {
        Ok(n) => n,
        Err(e) => return Err(e),
    };
    match table_lists::find(world.arena.table(t), v, first) {
        Some(k) => give(results, Value::Num(k)),
        None => give(results, Value::Nil),
    }
}
