//! Writing under a key.

ghost use Rattle.std.specs.Prelude.{◌≡◌, ◌+◌, ◌-◌, ◌≤◌, OnErr, IfOk};
ghost use Rattle.luau_tables.specs.Own.{IsThere, MayUse};
ghost use Rattle.meta_ops.specs.OnIds as kept;
ghost use Rattle.meta_ops.specs.Outcomes.{Stores};
ghost use Rattle.value_arena.specs.Arenas.{HasTable, table_at};
ghost use Rattle.value_arena.specs.Growing.{Grows};
ghost use Rattle.value_arena.specs.Owning.{IsOwned};

use crate::indexing::{TABLES, as_table, index_error};
use crate::metamethod::{is_function, is_nil, said_by};
use crate::outcome::{Outcome, call_three};
use luau_tables::{Globals, SetErr, set};
use resource::{OutOfMemory, Steps};
use std::sync::ledger::Ledger;
use value_arena::Arena;
use value_model::{RunErr, TableId, Value};

// What a table leads to that is asked for a place to write to.
#[derive(Clone, Copy)]
pub(crate) enum StoreLink {
    // It is itself written.
    Here,
    Calls(Outcome),
    Onward(Value),
}

// Where a value is written.
#[derive(Clone, Copy)]
pub(crate) enum Target {
    Into(TableId),
    NoTable(Outcome),
}

/// A value stored under a key: the outcome, and how many tables were asked, each of which is one step.
///
/// A table that has a value under the key that is not nil, or no `__newindex` in its metatable, is itself written, unless it is
/// frozen or the key is nil. Else a function is called with the table, the key and the value, and any other value is stored into
/// in turn. What is no table is a run error, and so is a link after 100. Nothing but the table that is written changes; after want of
/// memory the arena is as before.
pub fn newindex<L: Ledger>(
    arena: &mut Arena,
    globals: &Globals,
    base: Value,
    key: Value,
    v: Value,
    steps: &mut Steps<L>,
) -> Result<(Outcome, u8), OutOfMemory>
    requires owned { IsOwned arena.old }
    requires there { IsThere arena.old base }
    // In the part of each script that may use the operands, the outcome, the number and the store are those of the definition.
    ensures stores { IfOk result (λ found. Stores globals.now arena.old arena.new base key v found.0 found.1) }
    ensures err { OnErr result (arena.new ≡ arena.old) }
    ensures grows { Grows arena.old arena.new }
    ensures ticks { IfOk result (λ found. steps.new ≡ steps.old + found.1) }
{
    let (first, sought, stored) = (&base, &key, &v);
    let (target, asked) = writes_into(arena, globals, first, sought, stored, steps);
    match target {
        Target::NoTable(outcome) => Ok((outcome, asked)),
        Target::Into(t) => {
            let outcome = written(arena, t, sought, stored, steps)?;
            Ok((outcome, asked))
        }
    }
}

// A value is written into a table.
fn written<L: Ledger>(
    arena: &mut Arena,
    t: TableId,
    key: &Value,
    v: &Value,
    steps: &mut Steps<L>,
) -> Result<Outcome, OutOfMemory>
    requires { HasTable arena.old t }
    ensures written { IfOk result (λ outcome. (outcome ≡ kept.write_outcome (table_at arena.old t).is_frozen (kept.is_nil key.now)) × (arena.new ≡ kept.write_arena arena.old t key.now v.now outcome)) }
    ensures err { OnErr result (arena.new ≡ arena.old) }
    ensures grows { Grows arena.old arena.new }
    ensures ticks { steps.new ≡ steps.old + 1 }
{
    match set(arena, t, *key, *v, steps) {
        Ok(()) => Ok(Outcome::Done(Value::Nil)),
        Err(SetErr::Frozen) => Ok(Outcome::RunError(RunErr::ReadonlyTable)),
        Err(SetErr::NilKey) => Ok(Outcome::RunError(RunErr::NilKey)),
        Err(SetErr::OutOfMemory) => Err(OutOfMemory),
    }
}

// Where the metatable speaks of `__newindex`.
fn by_newindex(t: TableId, key: &Value, v: &Value, handler: &Value) -> StoreLink
    ensures { result ≡ kept.by_newindex t key.now v.now handler.now }
{
    if is_nil(handler) {
        StoreLink::Here
    } else if is_function(handler) {
        StoreLink::Calls(call_three(handler, &Value::Table(t), key, v))
    } else {
        StoreLink::Onward(*handler)
    }
}

// One table is asked for a place to write to.
fn newindex_asked(arena: &Arena, globals: &Globals, t: TableId, key: &Value, v: &Value) -> StoreLink
    requires owned { IsOwned arena.now }
    requires there { HasTable arena.now t }
    ensures { result ≡ kept.newindex_asked arena.now globals.now t key.now v.now }
{
    let table = arena.table(t);
    match table.meta() {
        None => StoreLink::Here,
        Some(m) => {
            if is_nil(&table.value(*key)) {
                by_newindex(t, key, v, &said_by(arena, m, globals.meta.newindex))
            } else {
                StoreLink::Here
            }
        }
    }
}

// Where the value is written. Each table asked is one step, but for the one that is written.
fn writes_into<L: Ledger>(
    arena: &Arena,
    globals: &Globals,
    first: &Value,
    key: &Value,
    v: &Value,
    steps: &mut Steps<L>,
) -> (Target, u8)
    requires owned { IsOwned arena.now }
    requires there { IsThere arena.now first.now }
    ensures value { result ≡ kept.newindex_along 101 arena.now globals.now key.now v.now 0 first.now }
    ensures there { kept.OfTarget (HasTable arena.now) result.0 }
    ensures ticks { steps.new + kept.unpaid result.0 ≡ steps.old + result.1 }
{
    let mut base = *first;
    for asked in 0..TABLES {
        let Some(t) = as_table(&base) else {
            return (
                Target::NoTable(Outcome::RunError(index_error(&base, key))),
                asked,
            );
        };
        match newindex_asked(arena, globals, t, key, v) {
            StoreLink::Here => return (Target::Into(t), asked + 1),
            StoreLink::Calls(outcome) => {
                steps.tick();
                return (Target::NoTable(outcome), asked + 1);
            }
            StoreLink::Onward(next) => {
                steps.tick();
                base = next;
            }
        }
    }
    (
        Target::NoTable(Outcome::RunError(RunErr::NewindexChain)),
        TABLES,
    )
}
