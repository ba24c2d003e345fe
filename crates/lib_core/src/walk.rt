//! Walks.

ghost use Rattle.std.specs.Prelude.{◌≡◌, ◌+ℤ◌, map, pos};
ghost use Rattle.std.specs.List.{AllByRecursion};
ghost use Rattle.value_model.specs.CoreRows as core;
ghost use Rattle.value_model.specs.Parts.{meant};
ghost use Rattle.value_model.specs.declared.value.Value.TheVariants.{Num};
ghost use Rattle.luau_tables.specs.Worlds.{IsWorld, Keeps, MayUseIn, store_in};
ghost use Rattle.lib_arguments.specs.Rows.{Runs};
ghost use Rattle.lib_core.specs.Items.{GivesItem};

use lib_arguments::{Ending, argument_or_nil, give, give_all, number_at, table_at};
use luau_tables::{LibWorld, NextErr, next};
use value_model::{Builtin, RunErr, Value};
use whole_num::Whole;

pub(crate) fn next_entry(
    args: &[Value],
    world: &LibWorld,
    results: &mut Vec<Value>,
) -> Result<(), Ending>
    requires world { IsWorld world.now }
    requires args { AllByRecursion (MayUseIn world.now) args.now }
    ensures { Runs world.now world.now results.old.items results.new.items result (core.next_row (map (meant world.now.names) args.now) (store_in world.now)) }
{
    let t = match table_at(Builtin::Next, 0, args) {
        Ok(t) => t,
        Err(e) => return Err(e),
    };
    match next(&world.arena, t, argument_or_nil(args, 1)) {
        Ok(Some((key, v))) => give_all(results, &[key, v]),
        Ok(None) => give(results, Value::Nil),
        Err(NextErr::UnknownKey) => Err(Ending::RunError(RunErr::UnknownKey)),
    }
}

pub(crate) fn pairs(
    args: &[Value],
    world: &LibWorld,
    results: &mut Vec<Value>,
) -> Result<(), Ending>
    requires world { IsWorld world.now }
    requires args { AllByRecursion (MayUseIn world.now) args.now }
    ensures { Runs world.now world.now results.old.items results.new.items result (core.pairs_row (map (meant world.now.names) args.now) (store_in world.now)) }
{
    let t = match table_at(Builtin::Pairs, 0, args) {
        Ok(t) => t,
        Err(e) => return Err(e),
    };
    give_all(
        results,
        &[Value::Native(Builtin::Next), Value::Table(t), Value::Nil],
    )
}

pub(crate) fn ipairs(
    args: &[Value],
    world: &LibWorld,
    results: &mut Vec<Value>,
) -> Result<(), Ending>
    requires world { IsWorld world.now }
    requires args { AllByRecursion (MayUseIn world.now) args.now }
    ensures { Runs world.now world.now results.old.items results.new.items result (core.ipairs_row (map (meant world.now.names) args.now) (store_in world.now)) }
{
    let t = match table_at(Builtin::Ipairs, 0, args) {
        Ok(t) => t,
        Err(e) => return Err(e),
    };
    let zero = zero();
    give_all(
        results,
        &[
            Value::Native(Builtin::IpairsIterator),
            Value::Table(t),
            zero,
        ],
    )
}

pub(crate) fn ipairs_iterator(
    args: &[Value],
    world: &LibWorld,
    results: &mut Vec<Value>,
) -> Result<(), Ending>
    requires world { IsWorld world.now }
    requires args { AllByRecursion (MayUseIn world.now) args.now }
    ensures { Runs world.now world.now results.old.items results.new.items result (core.ipairs_iterator_row (map (meant world.now.names) args.now) (store_in world.now)) }
{
    let t = match table_at(Builtin::IpairsIterator, 0, args) {
        Ok(t) => t,
        Err(e) => return Err(e),
    };
    let last = match number_at(Builtin::IpairsIterator, 1, &world.names, args) {
        Ok(last) => last,
        Err(e) => return Err(e),
    };
    let next = after(last);
    let item = world.arena.table(t).item(next);
    match Whole::new(next) {
        Some(k) => give_item(k, item, results),
        None => give(results, Value::Nil),
    }
}

// The number after a number.
fn after(number: Whole) -> i64
    ensures { result ≡ number +ℤ pos 1 }
{
    number.get() + 1
}

// Gives a place and the item there; nil alone where that is nil.
fn give_item(k: Whole, item: Value, results: &mut Vec<Value>) -> Result<(), Ending>
    ensures { GivesItem results.old.items results.new.items k item result }
{
    match item {
        Value::Nil => give(results, Value::Nil),
        item => give_all(results, &[Value::Num(k), item]),
    }
}

// 0.
fn zero() -> Value
    ensures { result ≡ Num (pos 0) }
{
    match Whole::new(0) {
        Some(number) => Value::Num(number),
        None => unreachable!(),
    }
}
