//! Tables that nobody owns, as they are made.

ghost use Rattle.std.specs.Prelude.{◌≡◌, ℕ, ◌++◌, ◌∷◌, [], List, length, map, false, slice_get, slice_index_or, slice_set, IfOk, OnOk, Some};
ghost use Rattle.byte_text.specs.Texts.{AreDistinct};
ghost use Rattle.frozen_libs.specs.Functions.{with_functions};
ghost use Rattle.frozen_libs.specs.Made.{ArePaths, Holds, IsOpen, IsShared, shared_id};
ghost use Rattle.luau_tables.specs.Own.{AreTexts};
ghost use Rattle.luau_tables.specs.Worlds.{Extends};
ghost use Rattle.value_arena.specs.Tables.{is_nil};
ghost use Rattle.value_model.specs.Fresh.{fixed};
ghost use Rattle.value_model.specs.Parts.{meant, table_ref};
ghost use Rattle.value_model.specs.Store.{TableOf, empty_table};
ghost use Rattle.value_model.specs.Tables.{put};
ghost use Rattle.value_model.specs.Values as m;
ghost use Rattle.value_model.specs.Values.{Bytes, TableRef, Text};
ghost use Rattle.value_model.specs.declared.value.Value.TheVariants.{Table};

use byte_text::{Interner, StrId};
use lib_arguments::text_value;
use luau_tables::write;
use resource::OutOfMemory;
use value_arena::Arena;
use value_model::{Builtin, Owner, TableId, Value};

// A new table, which is empty.
pub(crate) fn new_table(arena: &mut Arena) -> Result<TableId, OutOfMemory>
    ensures writable { IfOk result (IsOpen arena.new) }
    ensures made { (texts : List Bytes) (ts : List TableOf) → Holds texts arena.old ts → IfOk result (λ t. (t ≡ shared_id (length ts)) × Holds texts arena.new (ts ++ empty_table ∷ [])) }
{
    arena.new_table(Owner::Frozen)
}

// Writes a value under a key.
pub(crate) fn put(arena: &mut Arena, t: TableId, key: Value, v: Value) -> Result<(), OutOfMemory>
    requires writable { IsOpen arena.old t }
    requires key { is_nil key ≡ false }
    ensures writable { OnOk result (IsOpen arena.new t) }
    ensures made { (texts : List Bytes) (ts : List TableOf) → AreDistinct texts → Holds texts arena.old ts → IsShared texts (length ts) key → IsShared texts (length ts) v → OnOk result (Holds texts arena.new (slice_set ts t.place (put (slice_index_or ts t.place empty_table) (meant texts key) (meant texts v)))) }
{
    match write(arena, t, key, v) {
        Ok(()) => Ok(()),
        Err(_) => Err(OutOfMemory),
    }
}

// Writes a value under a name, and gives the name's number.
pub(crate) fn put_named(
    arena: &mut Arena,
    names: &mut Interner,
    t: TableId,
    name: &[u8],
    v: Value,
) -> Result<StrId, OutOfMemory>
    requires writable { IsOpen arena.old t }
    requires texts { AreTexts names.old }
    ensures writable { OnOk result (IsOpen arena.new t) }
    ensures made { (ts : List TableOf) → Holds names.old arena.old ts → IsShared names.old (length ts) v → OnOk result (Holds names.new arena.new (slice_set ts t.place (put (slice_index_or ts t.place empty_table) (Text name.now) (meant names.old v)))) }
    ensures number { IfOk result (λ id. slice_get names.new id.0 ≡ Some name.now) }
    ensures extends { Extends names.old names.new }
    ensures texts { AreTexts names.new }
{
    let id = text_value(names, name)?;
    put(arena, t, Value::Str(id), v)?;
    Ok(id)
}

// Writes a table under a name, which is its path.
pub(crate) fn put_table(
    arena: &mut Arena,
    names: &mut Interner,
    paths: &mut Vec<(TableId, StrId)>,
    t: TableId,
    name: &[u8],
    table: TableId,
) -> Result<(), OutOfMemory>
    requires writable { IsOpen arena.old t }
    requires texts { AreTexts names.old }
    ensures writable { OnOk result (IsOpen arena.new t) }
    ensures made { (ts : List TableOf) → Holds names.old arena.old ts → IsShared names.old (length ts) (Table table) → OnOk result (Holds names.new arena.new (slice_set ts t.place (put (slice_index_or ts t.place empty_table) (Text name.now) (m.Table (table_ref table))))) }
    ensures paths { (qs : List (TableRef × Bytes)) → ArePaths names.old paths.old.items qs → OnOk result (ArePaths names.new paths.new.items (qs ++ (table_ref table, name.now) ∷ [])) }
    ensures extends { Extends names.old names.new }
    ensures texts { AreTexts names.new }
{
    let path = put_named(arena, names, t, name, Value::Table(table))?;
    paths.push((table, path))?;
    Ok(())
}

// Writes functions under their names.
pub(crate) fn put_functions(
    arena: &mut Arena,
    names: &mut Interner,
    t: TableId,
    functions: &[(&str, Builtin)],
) -> Result<(), OutOfMemory>
    requires writable { IsOpen arena.old t }
    requires texts { AreTexts names.old }
    ensures writable { OnOk result (IsOpen arena.new t) }
    ensures made { (ts : List TableOf) → Holds names.old arena.old ts → OnOk result (Holds names.new arena.new (slice_set ts t.place (with_functions (slice_index_or ts t.place empty_table) (map (λ f. (f.0.now, f.1)) functions.now)))) }
    ensures extends { Extends names.old names.new }
    ensures texts { AreTexts names.new }
{
    for function in functions {
        put_named(
            arena,
            names,
            t,
            function.0.as_bytes(),
            Value::Native(function.1),
        )?;
    }
    Ok(())
}

// Freezes a table.
pub(crate) fn freeze(arena: &mut Arena, t: TableId)
    requires { IsOpen arena.old t }
    ensures { (texts : List Bytes) (ts : List TableOf) → Holds texts arena.old ts → Holds texts arena.new (slice_set ts t.place (fixed (slice_index_or ts t.place empty_table))) }
{
    arena.freeze(t);
}

// A new table of functions, which is frozen.
pub(crate) fn library(
    arena: &mut Arena,
    names: &mut Interner,
    functions: &[(&str, Builtin)],
) -> Result<TableId, OutOfMemory>
    requires { AreTexts names.old }
    ensures made { (ts : List TableOf) → Holds names.old arena.old ts → IfOk result (λ t. (t ≡ shared_id (length ts)) × Holds names.new arena.new (ts ++ fixed (with_functions empty_table (map (λ f. (f.0.now, f.1)) functions.now)) ∷ [])) }
    ensures extends { Extends names.old names.new }
    ensures texts { AreTexts names.new }
{
    let table = new_table(arena)?;
    put_functions(arena, names, table, functions)?;
    freeze(arena, table);
    Ok(table)
}
