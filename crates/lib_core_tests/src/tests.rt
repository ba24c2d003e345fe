ghost use Rattle.std.specs.Prelude.{◌<◌, length};
ghost use Rattle.std.specs.List.{AllByRecursion};
ghost use Rattle.lib_core.specs.Builtins.{IsAsker, IsCore};
ghost use Rattle.luau_tables.specs.Worlds.{IsWorld, Keeps, MayUseIn};
ghost use Rattle.value_model.specs.declared.value.Value.TheVariants.{Table};

use crate::given::{Given, is_asker, is_core, value_of, values_of};
use crate::rows::{ASKED, BASES, GOING, KINDS, METATABLES, NUMBERS, RAW, SELECT, TEXTS, WALKS};
use crate::shown::answer_into;
use first_world::{add_table, first_world};
use lib_core::{call, go_on};
use luau_tables::{LibAnswer, LibWorld};
use std::process::Abort;
use std::test::Fail;
use value_model::{Builtin, Continue, TableId, Value};

// Appends what a row's call gives.
fn row_into(
    rt: &impl AllocGlobal,
    row: &(Builtin, &[Given], &str),
    world: &mut LibWorld,
    own: TableId,
    out: &mut Vec<u8>,
) -> Result<(), Fail>
    requires builtin { IsCore row.now.0 }
    requires world { IsWorld world.old }
    requires own { MayUseIn world.old (Table own) }
    ensures { Keeps world.old world.new }
{
    let mut results = Vec::new(rt.alloc());
    let args = values_of(rt, row.1, world, own)?;
    let answer = call(rt.alloc(), row.0, args.as_slice(), world, &mut results)?;
    answer_into(&answer, results.as_slice(), world, out)
}

// Makes the calls of rows in turn, and compares what each gives.
fn make_calls(
    rt: &(impl AllocGlobal + Abort),
    rows: &[(Builtin, &[Given], &str)],
    world: &mut LibWorld,
    own: TableId,
) -> Result<(), Fail>
    requires world { IsWorld world.old }
    requires own { MayUseIn world.old (Table own) }
    ensures { Keeps world.old world.new }
{
    for row in rows {
        let mut text = Vec::new(rt.alloc());
        assert!(rt; is_core(row.0));
        row_into(rt, row, world, own, &mut text)?;
        assert_eq!(rt; text.as_slice(), row.2.as_bytes());
    }
    Ok(())
}

// The same in a new world.
fn make_first_calls(
    rt: &(impl AllocGlobal + Abort),
    rows: &[(Builtin, &[Given], &str)],
) -> Result<(), Fail> {
    let mut world = first_world(rt.alloc())?;
    let own = add_table(&mut world)?;
    make_calls(rt, rows, &mut world, own)
}

fn kinds(rt: &(impl AllocGlobal + Abort)) -> Result<(), Fail> {
    make_first_calls(rt, &KINDS)
}

fn texts(rt: &(impl AllocGlobal + Abort)) -> Result<(), Fail> {
    make_first_calls(rt, &TEXTS)
}

fn numbers(rt: &(impl AllocGlobal + Abort)) -> Result<(), Fail> {
    make_first_calls(rt, &NUMBERS)
}

fn bases(rt: &(impl AllocGlobal + Abort)) -> Result<(), Fail> {
    make_first_calls(rt, &BASES)
}

fn select(rt: &(impl AllocGlobal + Abort)) -> Result<(), Fail> {
    make_first_calls(rt, &SELECT)
}

fn raw(rt: &(impl AllocGlobal + Abort)) -> Result<(), Fail> {
    make_first_calls(rt, &RAW)
}

fn walks(rt: &(impl AllocGlobal + Abort)) -> Result<(), Fail> {
    make_first_calls(rt, &WALKS)
}

fn metatables(rt: &(impl AllocGlobal + Abort)) -> Result<(), Fail> {
    make_first_calls(rt, &METATABLES)
}

#[test]
fn calls(rt: HostRuntime) -> Result<(), Fail> {
    kinds(&rt)?;
    texts(&rt)?;
    numbers(&rt)?;
    bases(&rt)?;
    select(&rt)?;
    raw(&rt)?;
    walks(&rt)?;
    metatables(&rt)
}

// Appends what a function gives that has asked for a text, by the value that it gets.
fn gone_on(
    rt: &impl AllocGlobal,
    then: Continue,
    given: &Given,
    world: &mut LibWorld,
    own: TableId,
    out: &mut Vec<u8>,
) -> Result<(), Fail>
    requires builtin { IsAsker then.builtin }
    requires place { then.at < length then.args.items }
    requires world { IsWorld world.old }
    requires own { MayUseIn world.old (Table own) }
    requires args { AllByRecursion (MayUseIn world.old) then.args.items }
    ensures { Keeps world.old world.new }
{
    let mut results = Vec::new(rt.alloc());
    let given = value_of(given, world, own)?;
    let answer = go_on(rt.alloc(), then, given, world, &mut results)?;
    answer_into(&answer, results.as_slice(), world, out)
}

// Appends what comes of a row's call, which asks for a text.
fn going_into(
    rt: &impl AllocGlobal,
    row: &(Builtin, &[Given], Given, &str),
    world: &mut LibWorld,
    own: TableId,
    out: &mut Vec<u8>,
) -> Result<(), Fail>
    requires builtin { IsCore row.now.0 }
    requires world { IsWorld world.old }
    requires own { MayUseIn world.old (Table own) }
    ensures { Keeps world.old world.new }
{
    let mut results = Vec::new(rt.alloc());
    let args = values_of(rt, row.1, world, own)?;
    match call(rt.alloc(), row.0, args.as_slice(), world, &mut results)? {
        LibAnswer::CallBack { then, .. } => {
            if is_asker(then.builtin) && then.at < then.args.len() {
                return gone_on(rt, then, &row.2, world, own, out);
            }
            Ok(())
        }
        _ => Ok(()),
    }
}

// Makes the calls of rows, which ask for a text, and compares what comes of each.
fn make_going_calls(
    rt: &(impl AllocGlobal + Abort),
    rows: &[(Builtin, &[Given], Given, &str)],
    world: &mut LibWorld,
    own: TableId,
) -> Result<(), Fail>
    requires world { IsWorld world.old }
    requires own { MayUseIn world.old (Table own) }
{
    for row in rows {
        let mut text = Vec::new(rt.alloc());
        assert!(rt; is_core(row.0));
        going_into(rt, row, world, own, &mut text)?;
        assert_eq!(rt; text.as_slice(), row.3.as_bytes());
    }
    Ok(())
}

#[test]
fn going(rt: HostRuntime) -> Result<(), Fail> {
    let mut world = first_world(rt.alloc())?;
    let own = add_table(&mut world)?;
    make_calls(&rt, &ASKED, &mut world, own)?;
    make_going_calls(&rt, &GOING, &mut world, own)
}
