//! `table.unpack`.

ghost use Rattle.std.specs.Prelude.{◌≡◌, map, pos};
ghost use Rattle.std.specs.List.{AllByRecursion};
ghost use Rattle.value_model.specs.Parts.{meant};
ghost use Rattle.value_model.specs.TableRows as table;
ghost use Rattle.luau_tables.specs.Worlds.{IsWorld, MayUseIn, store_in};
ghost use Rattle.lib_arguments.specs.Rows.{Runs};

use lib_arguments::{Ending, give_all, number_or, table_at};
use luau_tables::LibWorld;
use resource::OutOfMemory;
use table_lists::{count_between, end_of, items};
use value_model::{Builtin, RunErr, Value};
use whole_num::Whole;

// A call gives at most so many values.
const MOST_VALUES: usize = 8000;

/// The number 1.
pub(crate) fn one() -> Whole
    ensures { result ≡ pos 1 }
{
    match Whole::new(1) {
        Some(number) => number,
        None => unreachable!(),
    }
}

pub(crate) fn unpack(
    args: &[Value],
    world: &LibWorld,
    results: &mut Vec<Value>,
) -> Result<(), Ending>
    requires world { IsWorld world.now }
    requires args { AllByRecursion (MayUseIn world.now) args.now }
    ensures { Runs world.now world.now results.old.items results.new.items result (table.unpack_row (map (meant world.now.names) args.now) (store_in world.now)) }
{
    let t = match table_at(Builtin::TableUnpack, 0, args) {
        Ok(t) => t,
        Err(e) => return Err(e),
    };
    let table = world.arena.table(t);
    let first = match number_or(Builtin::TableUnpack, 1, &world.names, args, one()) {
        Ok(n) => n,
        Err(e) => return Err(e),
    };
    let last = match number_or(Builtin::TableUnpack, 2, &world.names, args, end_of(table)) {
        Ok(n) => n,
        Err(e) => return Err(e),
    };
    let count = count_between(first, last);
    if count > MOST_VALUES {
        return Err(Ending::RunError(RunErr::TooManyValues));
    }
    match items(*results.allocator(), table, first, count) {
        Ok(values) => give_all(results, values.as_slice()),
        Err(OutOfMemory) => Err(Ending::OutOfMemory),
    }
}
