//! Metamethods, and what their choice looks at.

ghost use Rattle.std.specs.Prelude.{◌≡◌};
ghost use Rattle.luau_tables.specs.Own.{IsThere};
ghost use Rattle.meta_ops.specs.OnIds as kept;
ghost use Rattle.value_arena.specs.Arenas.{HasTable, table_at};
ghost use Rattle.value_arena.specs.Owning.{IsOwned};

use byte_text::StrId;
use luau_tables::Globals;
use value_arena::Arena;
use value_model::{Kind, TableId, Value};

/// Whether a value is nil.
#[inline(always)]
pub(crate) fn is_nil(v: &Value) -> bool
    ensures { result ≡ kept.is_nil v.now }
{
    matches!(v, Value::Nil)
}

/// Whether a value is a function, of any sort.
pub(crate) fn is_function(v: &Value) -> bool
    ensures { result ≡ kept.is_function v.now }
{
    matches!(
        v,
        Value::Closure(_) | Value::Native(_) | Value::Host(_) | Value::Wrap(_)
    )
}

/// The kind of a value.
pub(crate) fn kind_of(v: &Value) -> Kind
    ensures { result ≡ kept.kind_of v.now }
{
    v.kind()
}

/// What a table says under a name.
pub(crate) fn said_by(arena: &Arena, m: TableId, name: StrId) -> Value
    requires { HasTable arena.now m }
    ensures { result ≡ kept.said_by_table arena.now m name }
{
    arena.table(m).value(Value::Str(name))
}

/// What the metatable of a table says under a name; nil where it has none.
pub(crate) fn said_of_table(arena: &Arena, t: TableId, name: StrId) -> Value
    requires owned { IsOwned arena.now }
    requires there { HasTable arena.now t }
    ensures { result ≡ kept.said_by arena.now (table_at arena.now t).meta name }
{
    match arena.table(t).meta() {
        Some(m) => said_by(arena, m, name),
        None => Value::Nil,
    }
}

/// What the metatable of a value says under a name; nil where it has none.
#[tactic(auto, unfolding(crate::specs::OnIds::metamethod))]
pub(crate) fn metamethod(arena: &Arena, globals: &Globals, v: &Value, name: StrId) -> Value
    requires owned { IsOwned arena.now }
    requires strings { HasTable arena.now globals.now.string_meta }
    requires there { IsThere arena.now v.now }
    ensures { result ≡ kept.metamethod arena.now globals.now v.now name }
{
    match v {
        Value::Table(t) => said_of_table(arena, *t, name),
        Value::Str(_) => said_by(arena, globals.string_meta, name),
        _ => Value::Nil,
    }
}

/// Of two operands the first one's metamethod, else the second's.
pub(crate) fn metamethod_of_two(
    arena: &Arena,
    globals: &Globals,
    a: &Value,
    b: &Value,
    name: StrId,
) -> Value
    requires owned { IsOwned arena.now }
    requires strings { HasTable arena.now globals.now.string_meta }
    requires a { IsThere arena.now a.now }
    requires b { IsThere arena.now b.now }
    ensures { result ≡ kept.metamethod_of_two arena.now globals.now a.now b.now name }
{
    let first = metamethod(arena, globals, a, name);
    if is_nil(&first) {
        metamethod(arena, globals, b, name)
    } else {
        first
    }
}
