//! Writing.

ghost use Rattle.std.specs.Prelude.{◌≡◌, ◌+◌, OnOk, OnErr, IfErr, Err, None, false, true};
ghost use Rattle.luau_tables.specs.Causes.{Answers};
ghost use Rattle.luau_tables.specs.Rules as rule;
ghost use Rattle.value_arena.specs.Arenas.{HasTable, table_at, with_table};
ghost use Rattle.value_arena.specs.Growing.{Grows};
ghost use Rattle.value_arena.specs.Tables.{is_nil, place_of};

use crate::refusal::{MetaErr, SetErr, is_nil};
use resource::{OutOfMemory, Steps};
use std::sync::ledger::Ledger;
use value_arena::{Arena, Table};
use value_model::{TableId, Value};

/// Writes the value under a key, in the key's place or under a new key at the end. Nil under a key that was never inserted
/// appends nothing. One step.
///
/// A frozen table is refused before a nil key. Only a value that is not nil under a key that was never inserted takes memory.
/// After a refusal the arena is as before.
pub fn set<L: Ledger>(
    arena: &mut Arena,
    t: TableId,
    key: Value,
    v: Value,
    steps: &mut Steps<L>,
) -> Result<(), SetErr>
    requires { HasTable arena.old t }
    ensures answers { Answers (table_at arena.old t).is_frozen (is_nil key) result }
    ensures ok { OnOk result (arena.new ≡ with_table arena.old t (rule.put (table_at arena.old t) key v)) }
    ensures err { OnErr result (arena.new ≡ arena.old) }
    ensures memory { result ≡ Err SetErr.OutOfMemory → (place_of key (table_at arena.old t).entries ≡ None) × (is_nil v ≡ false) }
    ensures grows { Grows arena.old arena.new }
    ensures ticks { steps.new ≡ steps.old + 1 }
{
    steps.tick();
    write(arena, t, key, v)
}

/// Writes as `set` does, and counts no step.
#[inline]
pub fn write(arena: &mut Arena, t: TableId, key: Value, v: Value) -> Result<(), SetErr>
    requires { HasTable arena.old t }
    ensures answers { Answers (table_at arena.old t).is_frozen (is_nil key) result }
    ensures ok { OnOk result (arena.new ≡ with_table arena.old t (rule.put (table_at arena.old t) key v)) }
    ensures err { OnErr result (arena.new ≡ arena.old) }
    ensures memory { result ≡ Err SetErr.OutOfMemory → (place_of key (table_at arena.old t).entries ≡ None) × (is_nil v ≡ false) }
    ensures grows { Grows arena.old arena.new }
{
    refuse(arena.table(t), &key)?;
    put(arena.table_mut(t), key, v)
}

// Refuses what may not be written.
fn refuse(table: &Table, key: &Value) -> Result<(), SetErr>
    ensures answers { Answers table.now.is_frozen (is_nil key.now) result }
    ensures err { IfErr result (λ e. (e ≡ SetErr.OutOfMemory) → ⊥) }
{
    if table.is_frozen() {
        return Err(SetErr::Frozen);
    }
    if is_nil(key) {
        return Err(SetErr::NilKey);
    }
    Ok(())
}

// Writes the value under a key that is not nil.
fn put(table: &mut Table, key: Value, v: Value) -> Result<(), SetErr>
    requires { is_nil key ≡ false }
    ensures ok { OnOk result (table.new ≡ rule.put table.old key v) }
    ensures err { OnErr result (table.new ≡ table.old) }
    ensures memory { IfErr result (λ e. (e ≡ SetErr.OutOfMemory) × (place_of key table.old.entries ≡ None) × (is_nil v ≡ false)) }
{
    let sought = &key;
    if let Some(place) = table.place(*sought) {
        table.write(place, v);
        return Ok(());
    }
    if is_nil(&v) {
        return Ok(());
    }
    match table.push(*sought, v) {
        Ok(()) => Ok(()),
        Err(OutOfMemory) => Err(SetErr::OutOfMemory),
    }
}

/// Sets the metatable. A frozen table is refused, and is as before.
pub fn set_meta(arena: &mut Arena, t: TableId, meta: Option<TableId>) -> Result<(), MetaErr>
    requires { HasTable arena.old t }
    ensures frozen { OnErr result ((table_at arena.old t).is_frozen ≡ true) }
    ensures ok { OnOk result (((table_at arena.old t).is_frozen ≡ false) × (arena.new ≡ with_table arena.old t (record (table_at arena.old t) { meta = meta }))) }
    ensures err { OnErr result (arena.new ≡ arena.old) }
    ensures grows { Grows arena.old arena.new }
{
    if arena.table(t).is_frozen() {
        return Err(MetaErr::Frozen);
    }
    arena.table_mut(t).put_meta(meta);
    Ok(())
}
