//! Raw access.

ghost use Rattle.std.specs.Prelude.{map};
ghost use Rattle.std.specs.List.{AllByRecursion};
ghost use Rattle.value_model.specs.CoreRows as core;
ghost use Rattle.value_model.specs.Parts.{meant};
ghost use Rattle.luau_tables.specs.Worlds.{IsWorld, Keeps, MayUseIn, store_in};
ghost use Rattle.lib_arguments.specs.Rows.{Runs};

use lib_arguments::{Ending, any_at, give, give_count, invalid, table_at, wanted};
use luau_tables::{LibWorld, SetErr, write};
use value_model::{Builtin, Kind, RunErr, Value, Wanted};

pub(crate) fn rawequal(
    args: &[Value],
    world: &LibWorld,
    results: &mut Vec<Value>,
) -> Result<(), Ending>
    requires world { IsWorld world.now }
    requires args { AllByRecursion (MayUseIn world.now) args.now }
    ensures { Runs world.now world.now results.old.items results.new.items result (core.rawequal_row (map (meant world.now.names) args.now) (store_in world.now)) }
{
    let a = match any_at(Builtin::Rawequal, 0, args) {
        Ok(a) => a,
        Err(e) => return Err(e),
    };
    let b = match any_at(Builtin::Rawequal, 1, args) {
        Ok(b) => b,
        Err(e) => return Err(e),
    };
    give(results, Value::Bool(a == b))
}

pub(crate) fn rawget(
    args: &[Value],
    world: &LibWorld,
    results: &mut Vec<Value>,
) -> Result<(), Ending>
    requires world { IsWorld world.now }
    requires args { AllByRecursion (MayUseIn world.now) args.now }
    ensures { Runs world.now world.now results.old.items results.new.items result (core.rawget_row (map (meant world.now.names) args.now) (store_in world.now)) }
{
    let t = match table_at(Builtin::Rawget, 0, args) {
        Ok(t) => t,
        Err(e) => return Err(e),
    };
    let key = match any_at(Builtin::Rawget, 1, args) {
        Ok(key) => key,
        Err(e) => return Err(e),
    };
    give(results, world.arena.table(t).value(key))
}

pub(crate) fn rawlen(
    args: &[Value],
    world: &LibWorld,
    results: &mut Vec<Value>,
) -> Result<(), Ending>
    requires world { IsWorld world.now }
    requires args { AllByRecursion (MayUseIn world.now) args.now }
    ensures { Runs world.now world.now results.old.items results.new.items result (core.rawlen_row (map (meant world.now.names) args.now) (store_in world.now)) }
{
    let v = match wanted(Builtin::Rawlen, 0, Wanted::OfKind(Kind::Table), args) {
        Ok(v) => v,
        Err(e) => return Err(e),
    };
    match v {
        Value::Table(t) => give_count(results, world.arena.table(t).border()),
        Value::Str(id) => give_count(results, world.names.bytes(id).len()),
        _ => Err(invalid(Builtin::Rawlen, 0, Wanted::OfKind(Kind::Table), &v)),
    }
}

pub(crate) fn rawset(
    args: &[Value],
    world: &mut LibWorld,
    results: &mut Vec<Value>,
) -> Result<(), Ending>
    requires world { IsWorld world.old }
    requires args { AllByRecursion (MayUseIn world.old) args.now }
    ensures runs { Runs world.old world.new results.old.items results.new.items result (core.rawset_row (map (meant world.old.names) args.now) (store_in world.old)) }
    ensures keeps { Keeps world.old world.new }
{
    let t = match table_at(Builtin::Rawset, 0, args) {
        Ok(t) => t,
        Err(e) => return Err(e),
    };
    let key = match any_at(Builtin::Rawset, 1, args) {
        Ok(key) => key,
        Err(e) => return Err(e),
    };
    let v = match any_at(Builtin::Rawset, 2, args) {
        Ok(v) => v,
        Err(e) => return Err(e),
    };
    match write(&mut world.arena, t, key, v) {
        Ok(()) => give(results, Value::Table(t)),
        Err(SetErr::Frozen) => Err(Ending::RunError(RunErr::ReadonlyTable)),
        Err(SetErr::NilKey) => Err(Ending::RunError(RunErr::NilKey)),
        Err(SetErr::OutOfMemory) => Err(Ending::OutOfMemory),
    }
}
