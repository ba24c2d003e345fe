//! Metatables.

ghost use Rattle.std.specs.Prelude.{◌≡◌, List, map, codes, IfOk, option_map};
ghost use Rattle.std.specs.List.{AllByRecursion};
ghost use Rattle.value_model.specs.CoreRows as core;
ghost use Rattle.value_model.specs.Parts.{meant};
ghost use Rattle.luau_tables.specs.Worlds.{IsWorld, Keeps, MayUseIn, store_in};
ghost use Rattle.lib_arguments.specs.Rows.{Runs};
ghost use Rattle.luau_tables.specs.Part.{OfSome};
ghost use Rattle.value_model.specs.Metamethods as model;
ghost use Rattle.value_model.specs.Parts.{table_ref};
ghost use Rattle.value_model.specs.Values.{Bytes};
ghost use Rattle.value_model.specs.declared.value.Value.TheVariants.{Table};
ghost use Rattle.lib_arguments.specs.Checks.{Checks};
ghost use Rattle.value_arena.specs.Tables.{is_nil};
ghost use Rattle.lib_core.specs.MetaGiven.{meta_row};

use lib_arguments::{Ending, any_at, give, metatable, said_by, table_at, table_from, wanted};
use luau_tables::{LibWorld, MetaErr, set_meta};
use value_model::{Builtin, Kind, RunErr, TableId, Value, Wanted};

// What a metatable says under `__metatable`.
fn hidden_by(world: &LibWorld, meta: Option<TableId>) -> Value
    requires world { IsWorld world.now }
    requires meta { OfSome (λ m. MayUseIn world.now (Table m)) meta }
    ensures meant { meant world.now.names result ≡ model.said_by (store_in world.now) (option_map table_ref meta) (codes "__metatable") }
    ensures usable { MayUseIn world.now result }
{
    said_by(world, meta, world.globals.meta.metatable)
}

// What is shown of a metatable.
fn shown(world: &LibWorld, meta: Option<TableId>) -> Value
    requires world { IsWorld world.now }
    requires meta { OfSome (λ m. MayUseIn world.now (Table m)) meta }
    ensures meant { meant world.now.names result ≡ core.metatable_value (store_in world.now) (option_map table_ref meta) }
    ensures usable { MayUseIn world.now result }
{
    match meta {
        Some(m) => match hidden_by(world, meta) {
            Value::Nil => Value::Table(m),
            hidden => hidden,
        },
        None => Value::Nil,
    }
}

pub(crate) fn getmetatable(
    args: &[Value],
    world: &LibWorld,
    results: &mut Vec<Value>,
) -> Result<(), Ending>
    requires world { IsWorld world.now }
    requires args { AllByRecursion (MayUseIn world.now) args.now }
    ensures { Runs world.now world.now results.old.items results.new.items result (core.getmetatable_row (map (meant world.now.names) args.now) (store_in world.now)) }
{
    let v = match any_at(Builtin::Getmetatable, 0, args) {
        Ok(v) => v,
        Err(e) => return Err(e),
    };
    give(results, shown(world, metatable(world, &v)))
}

pub(crate) fn setmetatable(
    args: &[Value],
    world: &mut LibWorld,
    results: &mut Vec<Value>,
) -> Result<(), Ending>
    requires world { IsWorld world.old }
    requires args { AllByRecursion (MayUseIn world.old) args.now }
    ensures runs { Runs world.old world.new results.old.items results.new.items result (core.setmetatable_row (map (meant world.old.names) args.now) (store_in world.old)) }
    ensures keeps { Keeps world.old world.new }
{
    let t = match table_at(Builtin::Setmetatable, 0, args) {
        Ok(t) => t,
        Err(e) => return Err(e),
    };
    let given = match wanted(Builtin::Setmetatable, 1, Wanted::OfKind(Kind::Table), args) {
        Ok(given) => given,
        Err(e) => return Err(e),
    };
    let meta = match meta_given(given) {
        Ok(meta) => meta,
        Err(e) => return Err(e),
    };
    if is_protected(world, t) {
        return Err(Ending::RunError(RunErr::ProtectedMetatable));
    }
    match set_meta(&mut world.arena, t, meta) {
        Ok(()) => give(results, Value::Table(t)),
        Err(MetaErr::Frozen) => Err(Ending::RunError(RunErr::ReadonlyTable)),
    }
}

// The metatable that an argument asks for: none for nil.
fn meta_given(v: Value) -> Result<Option<TableId>, Ending>
    ensures checks { (texts : List Bytes) → Checks texts (λ m. option_map table_ref m) (meta_row (meant texts v)) result }
    ensures there { IfOk result (λ m. OfSome (λ m. v ≡ Table m) m) }
{
    match v {
        Value::Nil => Ok(None),
        v => match table_from(Builtin::Setmetatable, 1, v) {
            Ok(m) => Ok(Some(m)),
            Err(e) => Err(e),
        },
    }
}

// Whether the metatable of a table has `__metatable`.
fn is_protected(world: &LibWorld, t: TableId) -> bool
    requires world { IsWorld world.now }
    requires table { MayUseIn world.now (Table t) }
    ensures { result ≡ core.is_protected (store_in world.now) (table_ref t) }
{
    let hidden = hidden_by(world, world.arena.table(t).meta());
    !is_nil(&hidden)
}

// Whether a value is nil.
fn is_nil(v: &Value) -> bool
    ensures { result ≡ is_nil v.now }
{
    matches!(v, Value::Nil)
}
