//! Tests of reading and writing under a key.

ghost use Rattle.std.specs.Prelude.{◌≡◌, ◌<◌, IfOk};
ghost use Rattle.meta_ops_tests.specs.Ready.{IsReady};

use crate::world::{Expected, Operand, World};
use luau_tables::get;
use meta_ops::{index, newindex};
use resource::Steps;
use std::marker::Brand;
use std::process::Abort;
use std::sync::ledger::{Blank, Ledger};
use std::test::Fail;
use value_model::{Builtin, Kind, RunErr};

// A function that answers reads, and one that answers writes.
const READER: Builtin = Builtin::Rawget;

const WRITER: Builtin = Builtin::Rawset;

// A read: what is indexed and the key, what it gives, and how many tables are asked.
type Read = (Operand, Operand, Expected, u8);

const READS: [Read; 11] = [
    // A value that is there,
    (
        Operand::Table(1),
        Operand::Number(1),
        Expected::Gives(Operand::Text("x")),
        1,
    ),
    // one that the last table has, and none.
    (
        Operand::Table(1),
        Operand::Text("x"),
        Expected::Gives(Operand::Number(7)),
        3,
    ),
    (
        Operand::Table(1),
        Operand::Text("y"),
        Expected::Gives(Operand::Nil),
        3,
    ),
    (
        Operand::Table(3),
        Operand::Text("y"),
        Expected::Gives(Operand::Nil),
        1,
    ),
    (
        Operand::Table(1),
        Operand::Nil,
        Expected::Gives(Operand::Nil),
        3,
    ),
    // A string is indexed through table 3.
    (
        Operand::Text("x"),
        Operand::Text("x"),
        Expected::Gives(Operand::Number(7)),
        1,
    ),
    (
        Operand::Text("x"),
        Operand::Text("y"),
        Expected::Gives(Operand::Nil),
        1,
    ),
    // A link leads to a number.
    (
        Operand::Table(4),
        Operand::Text("y"),
        Expected::CannotIndex(Kind::Number, "y"),
        1,
    ),
    // What cannot be indexed.
    (
        Operand::Nil,
        Operand::Text("x"),
        Expected::CannotIndex(Kind::Nil, "x"),
        0,
    ),
    (
        Operand::Number(1),
        Operand::Number(1),
        Expected::Errs(RunErr::IndexWith {
            base: Kind::Number,
            key: Kind::Number,
        }),
        0,
    ),
    (
        Operand::Boolean(true),
        Operand::Nil,
        Expected::Errs(RunErr::IndexWith {
            base: Kind::Boolean,
            key: Kind::Nil,
        }),
        0,
    ),
];

const LONG_READS: [Read; 5] = [
    // 100 links,
    (
        Operand::Table(2),
        Operand::Text("x"),
        Expected::Gives(Operand::Number(7)),
        101,
    ),
    (
        Operand::Table(2),
        Operand::Text("y"),
        Expected::CallsWithTwo(READER, Operand::Table(102), Operand::Text("y")),
        101,
    ),
    (
        Operand::Table(101),
        Operand::Text("y"),
        Expected::CallsWithTwo(READER, Operand::Table(102), Operand::Text("y")),
        2,
    ),
    // and 101.
    (
        Operand::Table(1),
        Operand::Text("x"),
        Expected::Errs(RunErr::IndexChain),
        101,
    ),
    (
        Operand::Table(1),
        Operand::Text("y"),
        Expected::Errs(RunErr::IndexChain),
        101,
    ),
];

// A write of 7: what is stored into and the key, what it gives, how many tables are asked, and what a table has under the key after it.
type Write = (Operand, Operand, Expected, u8, u32, Operand);

const WRITES: [Write; 12] = [
    // No table has a value under the key: the last one gets it.
    (
        Operand::Table(1),
        Operand::Number(1),
        Expected::Gives(Operand::Nil),
        3,
        3,
        Operand::Number(7),
    ),
    // The last one has a value,
    (
        Operand::Table(1),
        Operand::Number(2),
        Expected::Gives(Operand::Nil),
        3,
        3,
        Operand::Number(7),
    ),
    // and the first one.
    (
        Operand::Table(1),
        Operand::Text("__index"),
        Expected::Gives(Operand::Nil),
        1,
        1,
        Operand::Number(7),
    ),
    // A function is asked where there is none.
    (
        Operand::Table(6),
        Operand::Number(1),
        Expected::Gives(Operand::Nil),
        1,
        6,
        Operand::Number(7),
    ),
    (
        Operand::Table(6),
        Operand::Number(3),
        Expected::CallsWithThree(
            WRITER,
            Operand::Table(6),
            Operand::Number(3),
            Operand::Number(7),
        ),
        1,
        6,
        Operand::Nil,
    ),
    // A frozen table is refused before a nil key.
    (
        Operand::Table(4),
        Operand::Number(1),
        Expected::Errs(RunErr::ReadonlyTable),
        1,
        4,
        Operand::Nil,
    ),
    (
        Operand::Table(4),
        Operand::Nil,
        Expected::Errs(RunErr::ReadonlyTable),
        1,
        4,
        Operand::Nil,
    ),
    (
        Operand::Table(3),
        Operand::Nil,
        Expected::Errs(RunErr::NilKey),
        1,
        3,
        Operand::Nil,
    ),
    (
        Operand::Table(1),
        Operand::Nil,
        Expected::Errs(RunErr::NilKey),
        3,
        3,
        Operand::Nil,
    ),
    // What has no place to write to: a link leads to a number, a number, a string.
    (
        Operand::Table(5),
        Operand::Number(1),
        Expected::Errs(RunErr::IndexWith {
            base: Kind::Number,
            key: Kind::Number,
        }),
        1,
        5,
        Operand::Nil,
    ),
    (
        Operand::Number(1),
        Operand::Number(1),
        Expected::Errs(RunErr::IndexWith {
            base: Kind::Number,
            key: Kind::Number,
        }),
        0,
        1,
        Operand::Nil,
    ),
    (
        Operand::Text("x"),
        Operand::Number(1),
        Expected::Errs(RunErr::IndexWith {
            base: Kind::String,
            key: Kind::Number,
        }),
        0,
        3,
        Operand::Nil,
    ),
];

const LONG_WRITES: [Write; 3] = [
    // 100 links,
    (
        Operand::Table(2),
        Operand::Number(1),
        Expected::Gives(Operand::Nil),
        101,
        102,
        Operand::Number(7),
    ),
    (
        Operand::Table(101),
        Operand::Number(1),
        Expected::Gives(Operand::Nil),
        2,
        102,
        Operand::Number(7),
    ),
    // and 101.
    (
        Operand::Table(1),
        Operand::Number(1),
        Expected::Errs(RunErr::NewindexChain),
        101,
        102,
        Operand::Nil,
    ),
];

const CALLED_WRITES: [Write; 1] = [(
    Operand::Table(2),
    Operand::Number(1),
    Expected::CallsWithThree(
        WRITER,
        Operand::Table(102),
        Operand::Number(1),
        Operand::Number(7),
    ),
    101,
    102,
    Operand::Nil,
)];

// So many tables from 1 on, each of which is its own metatable. But for the last one, each leads to the next.
fn chain(rt: &impl AllocGlobal, last: u32) -> Result<World, Fail>
    ensures { IfOk result (λ w. IsReady w) }
{
    let mut world = World::new(rt)?;
    for _ in 0..last {
        let number = world.table()?;
        world.give(number, number);
    }
    for number in 1..last {
        let next = Operand::Table(number + 1);
        world.store(number, &Operand::Text("__index"), &next);
        world.store(number, &Operand::Text("__newindex"), &next);
    }
    Ok(world)
}

// Reads a value under a key.
fn reads<L: Ledger>(rt: &impl Abort, world: &mut World, row: &Read, blank: Blank)
    requires ready { IsReady world.old }
    requires name { blank.name ≡ L.name }
    requires parts { blank.parts ≡ L.parts }
    requires some { 0 < L.parts }
    ensures { IsReady world.new }
{
    let mut steps = Steps::<L>::new(blank);
    let (base, key) = world.pair(&row.0, &row.1);
    let given = index(&world.arena, &world.globals, base, key, &mut steps);
    assert_eq!(rt; given, (world.outcome(&row.2), row.3));
}

// A number for `__index`, and values. Strings are indexed through table 3.
const TO_READ: [(u32, Operand, Operand); 4] = [
    (4, Operand::Text("__index"), Operand::Number(1)),
    (3, Operand::Text("x"), Operand::Number(7)),
    (1, Operand::Number(1), Operand::Text("x")),
    (0, Operand::Text("__index"), Operand::Table(3)),
];

// Three tables that lead on to each other, and one whose `__index` is a number.
fn to_read(rt: &impl AllocGlobal) -> Result<World, Fail>
    ensures { IfOk result (λ w. IsReady w) }
{
    let mut world = chain(rt, 3)?;
    let number = world.table()?;
    world.give(number, number);
    world.fill(&TO_READ);
    Ok(world)
}

#[test]
fn reading(rt: HostRuntime) -> Result<(), Fail> {
    let mut world = to_read(&rt)?;
    for row in &READS {
        reads::<Brand>(&rt, &mut world, row, Blank::new(1));
    }
    Ok(())
}

// The last table has a value, and a function for `__index`.
const END_OF_READS: [(u32, Operand, Operand); 2] = [
    (102, Operand::Text("x"), Operand::Number(7)),
    (102, Operand::Text("__index"), Operand::Function(READER)),
];

#[test]
fn long_chains_of_reads(rt: HostRuntime) -> Result<(), Fail> {
    let mut world = chain(&rt, 102)?;
    world.fill(&END_OF_READS);
    for row in &LONG_READS {
        reads::<Brand>(&rt, &mut world, row, Blank::new(1));
    }
    Ok(())
}

// Writes a value under a key.
fn writes<L: Ledger>(rt: &impl Abort, mut world: World, row: &Write, blank: Blank)
    requires ready { IsReady world }
    requires name { blank.name ≡ L.name }
    requires parts { blank.parts ≡ L.parts }
    requires some { 0 < L.parts }
{
    let mut steps = Steps::<L>::new(blank);
    let expected = world.outcome(&row.2);
    let has = world.value(&row.5);
    let (base, key) = world.pair(&row.0, &row.1);
    let (v, _) = world.pair(&Operand::Number(7), &Operand::Nil);
    let t = world.id(row.4);
    let sought = &key;
    let World {
        mut arena,
        globals,
        ..
    } = world;
    let given = newindex(&mut arena, &globals, base, *sought, v, &mut steps);
    assert_eq!(rt; given, Ok((expected, row.3)));
    assert_eq!(rt; get(&arena, t, *sought, &mut steps), has);
}

// A value under 2 of the last table, a number for `__newindex`, a function for it, and a value under 1 beside that.
const TO_WRITE: [(u32, Operand, Operand); 4] = [
    (3, Operand::Number(2), Operand::Boolean(true)),
    (5, Operand::Text("__newindex"), Operand::Number(1)),
    (6, Operand::Text("__newindex"), Operand::Function(WRITER)),
    (6, Operand::Number(1), Operand::Number(1)),
];

// Three tables that lead on to each other, then one that is frozen, and two with metatables.
fn to_write(rt: &impl AllocGlobal) -> Result<World, Fail>
    ensures { IfOk result (λ w. IsReady w) }
{
    let mut world = chain(rt, 3)?;
    let frozen = world.table()?;
    let number = world.table()?;
    let function = world.table()?;
    world.freeze(frozen);
    world.give(number, number);
    world.give(function, function);
    world.fill(&TO_WRITE);
    Ok(world)
}

#[test]
fn writing(rt: HostRuntime) -> Result<(), Fail> {
    for row in &WRITES {
        writes::<Brand>(&rt, to_write(&rt)?, row, Blank::new(1));
    }
    Ok(())
}

#[test]
fn long_chains_of_writes(rt: HostRuntime) -> Result<(), Fail> {
    for row in &LONG_WRITES {
        writes::<Brand>(&rt, chain(&rt, 102)?, row, Blank::new(1));
    }
    for row in &CALLED_WRITES {
        let mut world = chain(&rt, 102)?;
        world.store(
            102,
            &Operand::Text("__newindex"),
            &Operand::Function(WRITER),
        );
        writes::<Brand>(&rt, world, row, Blank::new(1));
    }
    Ok(())
}
