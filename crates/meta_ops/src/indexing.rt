//! Reading under a key.

ghost use Rattle.std.specs.Prelude.{◌≡◌, ◌+◌, ◌-◌, ◌≤◌, suc};
ghost use Rattle.luau_tables.specs.Own.{IsThere, MayUse};
ghost use Rattle.meta_ops.specs.OnIds as kept;
ghost use Rattle.meta_ops.specs.Outcomes.{Chooses};
ghost use Rattle.value_arena.specs.Arenas.{HasTable, table_at};
ghost use Rattle.value_arena.specs.Owning.{IsOwned};
ghost use Rattle.value_model.specs.Choices.{Index};
ghost use Rattle.value_model.specs.Parts.{meant};

use crate::metamethod::{is_function, is_nil, kind_of, said_by, said_of_table};
use crate::outcome::{Link, Outcome, call_two};
use luau_tables::{Globals, get};
use resource::Steps;
use std::sync::ledger::Ledger;
use value_arena::Arena;
use value_model::{RunErr, TableId, Value};

// A chain of metatables has so many tables at most: the first one, and one for each of 100 links.
pub(crate) const TABLES: u8 = 101;

/// The run error of indexing what cannot be indexed.
pub(crate) fn index_error(base: &Value, key: &Value) -> RunErr
    ensures { result ≡ kept.index_error base.now key.now }
{
    match key {
        Value::Str(name) => RunErr::IndexWithName {
            base: kind_of(base),
            key: *name,
        },
        _ => RunErr::IndexWith {
            base: kind_of(base),
            key: kind_of(key),
        },
    }
}

// The table that is asked where a value is indexed: for a string that of the metatable of strings.
fn indexed_table(arena: &Arena, globals: &Globals, base: &Value) -> Option<TableId>
    requires { HasTable arena.now globals.now.string_meta }
    ensures { result ≡ kept.indexed_table arena.now globals.now base.now }
{
    match base {
        Value::Table(t) => Some(*t),
        Value::Str(_) => as_table(&said_by(arena, globals.string_meta, globals.meta.index)),
        _ => None,
    }
}

/// The table that a value is.
pub(crate) fn as_table(v: &Value) -> Option<TableId>
    ensures { result ≡ kept.as_table v.now }
{
    match v {
        Value::Table(t) => Some(*t),
        _ => None,
    }
}

// Where the table has no value under the key: nil, a call, or a link.
fn by_index(arena: &Arena, globals: &Globals, t: TableId, key: &Value) -> Link
    requires owned { IsOwned arena.now }
    requires there { HasTable arena.now t }
    ensures { result ≡ kept.by_index t key.now (kept.said_by arena.now (table_at arena.now t).meta globals.now.meta.index) }
{
    let handler = said_of_table(arena, t, globals.meta.index);
    if is_nil(&handler) {
        Link::Ends(Outcome::Done(Value::Nil))
    } else if is_function(&handler) {
        Link::Ends(call_two(&handler, &Value::Table(t), key))
    } else {
        Link::To(handler)
    }
}

// One table is asked for the key. One step.
fn index_asked<L: Ledger>(
    arena: &Arena,
    globals: &Globals,
    t: TableId,
    key: &Value,
    steps: &mut Steps<L>,
) -> Link
    requires owned { IsOwned arena.now }
    requires there { HasTable arena.now t }
    ensures link { result ≡ kept.index_asked arena.now globals.now t key.now }
    ensures ticks { steps.new ≡ steps.old + 1 }
{
    let found = get(arena, t, *key, steps);
    if is_nil(&found) {
        by_index(arena, globals, t, key)
    } else {
        Link::Ends(Outcome::Done(found))
    }
}

// The value is indexed, after so many tables were asked.
fn along<L: Ledger>(
    arena: &Arena,
    globals: &Globals,
    first: &Value,
    key: &Value,
    from: u8,
    steps: &mut Steps<L>,
) -> (Outcome, u8)
    requires owned { IsOwned arena.now }
    requires strings { HasTable arena.now globals.now.string_meta }
    requires there { IsThere arena.now first.now }
    requires from { from ≤ 101 }
    ensures value { result ≡ kept.index_along (101 - from) arena.now globals.now key.now from first.now }
    ensures ticks { steps.new + from ≡ steps.old + result.1 }
{
    let mut base = *first;
    for asked in from..TABLES {
        let Some(t) = indexed_table(arena, globals, &base) else {
            return (Outcome::RunError(index_error(&base, key)), asked);
        };
        match index_asked(arena, globals, t, key, steps) {
            Link::Ends(outcome) => return (outcome, asked + 1),
            Link::To(next) => base = next,
        }
    }
    (Outcome::RunError(RunErr::IndexChain), TABLES)
}

// The table was asked and has no value under the key.
fn beyond<L: Ledger>(
    arena: &Arena,
    globals: &Globals,
    t: TableId,
    key: &Value,
    steps: &mut Steps<L>,
) -> (Outcome, u8)
    requires owned { IsOwned arena.now }
    requires strings { HasTable arena.now globals.now.string_meta }
    requires there { HasTable arena.now t }
    ensures value { result ≡ kept.after_link (kept.index_along 100 arena.now globals.now key.now) 1 (kept.by_index t key.now (kept.said_by arena.now (table_at arena.now t).meta globals.now.meta.index)) }
    ensures ticks { steps.new + 1 ≡ steps.old + result.1 }
{
    match by_index(arena, globals, t, key) {
        Link::Ends(outcome) => (outcome, 1),
        Link::To(next) => along(arena, globals, &next, key, 1, steps),
    }
}

// The value that is indexed may be a table that has one under the key: then this is one look-up.
#[inline(always)]
fn found_or_beyond<L: Ledger>(
    arena: &Arena,
    globals: &Globals,
    base: &Value,
    key: &Value,
    steps: &mut Steps<L>,
) -> (Outcome, u8)
    requires owned { IsOwned arena.now }
    requires strings { HasTable arena.now globals.now.string_meta }
    requires there { IsThere arena.now base.now }
    ensures value { result ≡ kept.index_along 101 arena.now globals.now key.now 0 base.now }
    ensures ticks { steps.new ≡ steps.old + result.1 }
{
    match base {
        Value::Table(t) => {
            let found = get(arena, *t, *key, steps);
            if is_nil(&found) {
                beyond(arena, globals, *t, key, steps)
            } else {
                (Outcome::Done(found), 1)
            }
        }
        _ => along(arena, globals, base, key, 0, steps),
    }
}

/// A value read under a key: the outcome, and how many tables were asked, each of which is one step.
///
/// A table gives the value under the key where that is not nil. Else `__index` in its metatable decides: where there is none the
/// outcome is nil, a function is called with the table and the key, and any other value is indexed in turn. A string is indexed
/// through the metatable of strings. Any other value is a run error, and so is a link after 100.
#[inline]
pub fn index<L: Ledger>(
    arena: &Arena,
    globals: &Globals,
    base: Value,
    key: Value,
    steps: &mut Steps<L>,
) -> (Outcome, u8)
    requires owned { IsOwned arena.now }
    requires strings { HasTable arena.now globals.now.string_meta }
    requires base { IsThere arena.now base }
    // In the part of each script that may use the operands, the outcome and the number are those of the definition.
    ensures chooses { Chooses globals.now arena.now (λ texts w. MayUse texts arena.now w base × MayUse texts arena.now w key) (λ texts. Index (meant texts base) (meant texts key)) result.0 result.1 }
    ensures ticks { steps.new ≡ steps.old + result.1 }
{
    let (value, sought) = (&base, &key);
    found_or_beyond(arena, globals, value, sought, steps)
}
