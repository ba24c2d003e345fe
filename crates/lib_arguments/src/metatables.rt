//! Metatables of values, and what they say under a name.

ghost use Rattle.std.specs.Prelude.{◌≡◌, ◌<◌, codes, length, option_map};
ghost use Rattle.luau_tables.specs.Part.{OfSome};
ghost use Rattle.luau_tables.specs.Worlds.{IsWorld, MayUseIn, store_in};
ghost use Rattle.value_model.specs.CoreRows as core;
ghost use Rattle.value_model.specs.Metamethods as model;
ghost use Rattle.value_model.specs.Parts.{bytes_at, meant, table_ref};
ghost use Rattle.value_model.specs.declared.value.Value.TheVariants.{Table};

use byte_text::StrId;
use luau_tables::LibWorld;
use value_model::{TableId, Value};

/// What the metatable of a value says under `__tostring`, or nil.
pub fn tostring_of(world: &LibWorld, v: &Value) -> Value
    requires world { IsWorld world.now }
    requires v { MayUseIn world.now v.now }
    ensures meant { meant world.now.names result ≡ model.metamethod (store_in world.now) (meant world.now.names v.now) (codes "__tostring") }
    ensures usable { MayUseIn world.now result }
{
    said_by(world, metatable(world, v), world.globals.meta.tostring)
}

/// The metatable of a value.
pub fn metatable(world: &LibWorld, v: &Value) -> Option<TableId>
    requires world { IsWorld world.now }
    requires v { MayUseIn world.now v.now }
    ensures meant { option_map table_ref result ≡ core.metatable_of (store_in world.now) (meant world.now.names v.now) }
    ensures usable { OfSome (λ m. MayUseIn world.now (Table m)) result }
{
    match *v {
        Value::Table(t) => world.arena.table(t).meta(),
        Value::Str(_) => Some(world.globals.string_meta),
        _ => None,
    }
}

/// What a metatable says under a name; nil where there is none.
pub fn said_by(world: &LibWorld, meta: Option<TableId>, name: StrId) -> Value
    requires world { IsWorld world.now }
    requires meta { OfSome (λ m. MayUseIn world.now (Table m)) meta }
    requires name { name.0 < length world.now.names }
    ensures meant { meant world.now.names result ≡ model.said_by (store_in world.now) (option_map table_ref meta) (bytes_at world.now.names name.0) }
    ensures usable { MayUseIn world.now result }
{
    match meta {
        Some(m) => world.arena.table(m).value(Value::Str(name)),
        None => Value::Nil,
    }
}
