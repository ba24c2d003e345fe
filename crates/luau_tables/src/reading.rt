//! Reading.

ghost use Rattle.std.specs.Prelude.{◌≡◌, ◌+◌, length, drop, MatchResult, None, Some};
ghost use Rattle.luau_tables.specs.Rules as rule;
ghost use Rattle.value_arena.specs.Arenas.{HasTable, table_at};

use crate::refusal::{NextErr, is_nil};
use resource::Steps;
use std::sync::ledger::Ledger;
use value_arena::{Arena, Table};
use value_model::{TableId, Value};

/// The value under a key, or nil. One step.
#[inline]
pub fn get<L: Ledger>(arena: &Arena, t: TableId, key: Value, steps: &mut Steps<L>) -> Value
    requires { HasTable arena.now t }
    ensures value { result ≡ rule.get (table_at arena.now t) key }
    ensures ticks { steps.new ≡ steps.old + 1 }
{
    steps.tick();
    arena.table(t).value(key)
}

/// The first entry behind a key whose value is not nil, in the order in which keys were first inserted; from the front for the
/// key nil. There is none where only values that are nil follow. A key that is not nil and was never inserted is refused.
pub fn next(arena: &Arena, t: TableId, key: Value) -> Result<Option<(Value, Value)>, NextErr>
    requires { HasTable arena.now t }
    ensures { MatchResult result (λ entry. rule.next (table_at arena.now t) key ≡ Some entry) (λ _. rule.next (table_at arena.now t) key ≡ None) }
{
    let table = arena.table(t);
    if is_nil(&key) {
        return Ok(first_from(table, 0));
    }
    match table.place(key) {
        Some(place) => Ok(first_from(table, place + 1)),
        None => Err(NextErr::UnknownKey),
    }
}

// The first entry from a place on whose value is not nil.
fn first_from(table: &Table, place: usize) -> Option<(Value, Value)>
    ensures { result ≡ rule.first (drop place table.now.entries) }
{
    for at in place..table.len() {
        let entry = table.at(at);
        if !is_nil(&entry.1) {
            return Some(entry);
        }
    }
    None
}

/// The border: the least number from 0 on such that there is nil under the next whole number.
pub fn border(arena: &Arena, t: TableId) -> usize
    requires { HasTable arena.now t }
    ensures { result ≡ rule.border (table_at arena.now t) }
{
    arena.table(t).border()
}

/// Whether a table is frozen.
pub fn frozen(arena: &Arena, t: TableId) -> bool
    requires { HasTable arena.now t }
    ensures { result ≡ (table_at arena.now t).is_frozen }
{
    arena.table(t).is_frozen()
}
