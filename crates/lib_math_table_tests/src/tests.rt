ghost use Rattle.std.specs.Prelude.{◌⊎◌, IsTrue, IfOk};
ghost use Rattle.std.specs.List.{AllByRecursion};
ghost use Rattle.lib_math_table.specs.Builtins.{IsMath, IsTable};
ghost use Rattle.luau_tables.specs.Answers.{MayAnswer};
ghost use Rattle.luau_tables.specs.Worlds.{IsWorld, Keeps, MayUseIn};
ghost use Rattle.luau_tables.specs.declared.globals.LibWorld.{LibWorld};
ghost use Rattle.value_model.specs.declared.value.Value.TheVariants.{Table};

use first_world::{add_table, first_world};
use lib_arguments::text_value;
use lib_math_table::call;
use luau_tables::{LibAnswer, LibWorld, plain_into, set_meta, write};
use std::process::Abort;
use std::test::Fail;
use value_model::{Builtin, TableId, Value};
use whole_num::{Stop, Whole};

// An argument.
#[derive(Clone, Copy)]
enum Given {
    True,
    Number(i64),
    Text(&'static str),
    // the table of the script
    Own,
}

use Given::{Number, Own, Text, True};

// Calls of `math`, each with what it gives.
const MATH: [(Builtin, &[Given], &str); 12] = [
    (Builtin::MathAbs, &[Number(-3)], " 3"),
    (Builtin::MathCeil, &[Number(-3)], " -3"),
    (Builtin::MathFloor, &[Number(4)], " 4"),
    (Builtin::MathRound, &[Number(5)], " 5"),
    (Builtin::MathSign, &[Number(-9)], " -1"),
    (Builtin::MathMax, &[Number(1), Text("7"), Number(3)], " 7"),
    (Builtin::MathMin, &[Number(4), Number(-2), Number(3)], " -2"),
    (Builtin::MathClamp, &[Number(5), Number(1), Number(3)], " 3"),
    (
        Builtin::MathAbs,
        &[],
        "missing argument #1 to 'abs' (number expected)",
    ),
    (
        Builtin::MathRound,
        &[True],
        "invalid argument #1 to 'round' (number expected, got boolean)",
    ),
    (
        Builtin::MathClamp,
        &[Number(2), Number(3), Number(1)],
        "invalid argument #3 to 'clamp' (out of range)",
    ),
    (Builtin::MathAbs, &[Text("0.5")], "stop not whole"),
];

// Calls of `table` in turn, each with what it gives.
const TABLE: [(Builtin, &[Given], &str); 48] = [
    (Builtin::TableInsert, &[Own, Number(1)], ""),
    (Builtin::TableInsert, &[Own, Number(1), Text("a")], ""),
    (Builtin::TableUnpack, &[Own], " a 1"),
    (Builtin::TableFind, &[Own, Number(1)], " 2"),
    (
        Builtin::TableMove,
        &[Own, Number(1), Number(2), Number(2)],
        " table: environment",
    ),
    (Builtin::TableUnpack, &[Own], " a a 1"),
    (Builtin::TableConcat, &[Own], " aa1"),
    (Builtin::TableConcat, &[Own, Text(", "), Number(2)], " a, 1"),
    (
        Builtin::TableConcat,
        &[Own, Number(0), Number(1), Number(2)],
        " a0a",
    ),
    (
        Builtin::TableConcat,
        &[Own, Text("-"), Number(2), Number(4)],
        "invalid value (nil) at index 4 in 'concat'",
    ),
    (
        Builtin::TableSort,
        &[Own],
        "attempt to compare string < number",
    ),
    (Builtin::TableRemove, &[Own], " 1"),
    (Builtin::TableClear, &[Own], ""),
    (Builtin::TableUnpack, &[Own, Number(1), Number(1)], " nil"),
    (Builtin::TableInsert, &[Own, Number(10)], ""),
    (Builtin::TableInsert, &[Own, Number(9)], ""),
    (Builtin::TableInsert, &[Own, Number(-3)], ""),
    (Builtin::TableInsert, &[Own, Number(9)], ""),
    (Builtin::TableSort, &[Own], ""),
    (Builtin::TableConcat, &[Own, Text(" ")], " -3 9 9 10"),
    (Builtin::TableClear, &[Own], ""),
    (Builtin::TableInsert, &[Own, Text("b")], ""),
    (Builtin::TableInsert, &[Own, Text("ab")], ""),
    (Builtin::TableInsert, &[Own, Text("")], ""),
    (Builtin::TableInsert, &[Own, Text("a")], ""),
    (Builtin::TableInsert, &[Own, Text("B")], ""),
    (Builtin::TableSort, &[Own], ""),
    (Builtin::TableConcat, &[Own, Text(",")], " ,B,a,ab,b"),
    (Builtin::TableClear, &[Own], ""),
    (Builtin::TableInsert, &[Own, True], ""),
    (
        Builtin::TableSort,
        &[Own],
        "attempt to compare boolean < boolean",
    ),
    (
        Builtin::TableConcat,
        &[Own],
        "invalid value (boolean) at index 1 in 'concat'",
    ),
    (Builtin::TableClear, &[Own], ""),
    (Builtin::TableSort, &[Own], ""),
    (Builtin::TableConcat, &[Own], " "),
    (Builtin::TableIsfrozen, &[Own], " false"),
    (
        Builtin::TableMove,
        &[Own, Number(1), Number(2), Number(9_007_199_254_740_992)],
        "stop out of range",
    ),
    (Builtin::TableFreeze, &[Own], " table: environment"),
    (Builtin::TableIsfrozen, &[Own], " true"),
    (
        Builtin::TableInsert,
        &[Own, True],
        "attempt to modify a readonly table",
    ),
    (
        Builtin::TableRemove,
        &[Own],
        "attempt to modify a readonly table",
    ),
    (
        Builtin::TableClear,
        &[Own],
        "attempt to modify a readonly table",
    ),
    (
        Builtin::TableSort,
        &[Own],
        "attempt to modify a readonly table",
    ),
    (
        Builtin::TableMove,
        &[Own, Number(1), Number(0), Number(1)],
        "attempt to modify a readonly table",
    ),
    (
        Builtin::TableInsert,
        &[Own],
        "missing argument #2 to 'insert' (value expected)",
    ),
    (
        Builtin::TableUnpack,
        &[Own, Number(0), Number(8000)],
        "too many values",
    ),
    (
        Builtin::TableFind,
        &[],
        "missing argument #1 to 'find' (table expected)",
    ),
    (
        Builtin::TableFind,
        &[Text("x")],
        "invalid argument #1 to 'find' (table expected, got string)",
    ),
];

// So many texts of 64 bytes are too long for one string.
const TEXTS: i64 = 262_145;

// Calls that give a new table, each with what a second call gives of that.
const MADE: [(Builtin, &[Given], Builtin, &str); 5] = [
    (
        Builtin::TablePack,
        &[Number(7), True],
        Builtin::TableUnpack,
        " 7 true",
    ),
    (
        Builtin::TableCreate,
        &[Number(3), True],
        Builtin::TableUnpack,
        " true true true",
    ),
    (
        Builtin::TableCreate,
        &[
            Number(TEXTS),
            Text("0123456789abcdef0123456789abcdef0123456789abcdef0123456789abcdef"),
        ],
        Builtin::TableConcat,
        "resulting string too large",
    ),
    (Builtin::TableClone, &[Own], Builtin::TableUnpack, " 7 9"),
    (
        Builtin::TableClone,
        &[Own],
        Builtin::TableIsfrozen,
        " false",
    ),
];

// Calls that leave a table with two elements, and with nil under a key. It cannot be written after that.
const HOLED: [(Builtin, &[Given], &str); 5] = [
    (Builtin::TableInsert, &[Own, Number(7)], ""),
    (Builtin::TableInsert, &[Own, Number(8)], ""),
    (Builtin::TableInsert, &[Own, Number(9)], ""),
    (Builtin::TableRemove, &[Own, Number(2)], " 8"),
    (Builtin::TableFreeze, &[Own], " table: environment"),
];

// A call of a table whose metatable is protected.
const PROTECTED: (Builtin, &[Given], &str) = (
    Builtin::TableClone,
    &[Own],
    "cannot change a protected metatable",
);

// The value of an argument.
fn value_of(given: &Given, world: &mut LibWorld, own: TableId) -> Result<Value, Fail>
    requires world { IsWorld world.old }
    requires own { MayUseIn world.old (Table own) }
    ensures usable { IfOk result (MayUseIn world.new) }
    ensures keeps { Keeps world.old world.new }
{
    match given {
        True => Ok(Value::Bool(true)),
        Number(n) => number(*n),
        Text(text) => text_value_of(text, world),
        Own => Ok(Value::Table(own)),
    }
}

// A number.
fn number(n: i64) -> Result<Value, Fail>
    ensures { IfOk result (λ v. (w : LibWorld) → MayUseIn w v) }
{
    let number = Whole::new(n).ok_or("out of range")?;
    Ok(Value::Num(number))
}

// A text.
fn text_value_of(text: &str, world: &mut LibWorld) -> Result<Value, Fail>
    requires { IsWorld world.old }
    ensures usable { IfOk result (MayUseIn world.new) }
    ensures keeps { Keeps world.old world.new }
{
    let id = text_value(&mut world.names, text.as_bytes())?;
    Ok(Value::Str(id))
}

// The values of arguments.
fn values_of(
    rt: &impl AllocGlobal,
    args: &[Given],
    world: &mut LibWorld,
    own: TableId,
) -> Result<Vec<Value>, Fail>
    requires world { IsWorld world.old }
    requires own { MayUseIn world.old (Table own) }
    ensures usable { IfOk result (λ vs. AllByRecursion (MayUseIn world.new) vs.items) }
    ensures keeps { Keeps world.old world.new }
{
    let mut values = Vec::new(rt.alloc());
    for given in args {
        let value = value_of(given, world, own)?;
        values.push(value)?;
    }
    Ok(values)
}

// Appends the texts of values, each behind a blank.
fn values_into(values: &[Value], world: &LibWorld, out: &mut Vec<u8>) -> Result<(), Fail> {
    for value in values {
        out.push(b' ')?;
        plain_into(&world.arena, &world.names, &world.globals, *value, out)?;
    }
    Ok(())
}

// Appends what a call gave: the texts of its values, or that of a run error or a stop.
fn answer_into(
    answer: &LibAnswer,
    results: &[Value],
    world: &LibWorld,
    out: &mut Vec<u8>,
) -> Result<(), Fail>
    requires { MayAnswer world.now answer.now }
{
    match answer {
        LibAnswer::Values => values_into(results, world, out),
        LibAnswer::RunError(error) => Ok(error.text_into(&world.names, out)?),
        LibAnswer::Stop(Stop::NotWhole) => Ok(out.extend_from_slice(b"stop not whole")?),
        LibAnswer::Stop(Stop::OutOfRange) => Ok(out.extend_from_slice(b"stop out of range")?),
        _ => Ok(out.extend_from_slice(b"another answer")?),
    }
}

// The values that a call gives; what it gives is appended to a text.
fn called(
    rt: &impl AllocGlobal,
    builtin: Builtin,
    args: &[Value],
    world: &mut LibWorld,
    out: &mut Vec<u8>,
) -> Result<Vec<Value>, Fail>
    requires builtin { IsMath builtin ⊎ IsTable builtin }
    requires world { IsWorld world.old }
    requires args { AllByRecursion (MayUseIn world.old) args.now }
    ensures usable { IfOk result (λ vs. AllByRecursion (MayUseIn world.new) vs.items) }
    ensures keeps { Keeps world.old world.new }
{
    let mut results = Vec::new(rt.alloc());
    let answer = call(builtin, args, world, &mut results)?;
    answer_into(&answer, results.as_slice(), world, out)?;
    Ok(results)
}

// Whether a function is one of `math`.
fn is_math(builtin: Builtin) -> bool
    ensures { IsTrue result → IsMath builtin }
{
    matches!(
        builtin,
        Builtin::MathAbs
            | Builtin::MathCeil
            | Builtin::MathFloor
            | Builtin::MathRound
            | Builtin::MathSign
            | Builtin::MathMax
            | Builtin::MathMin
            | Builtin::MathClamp
    )
}

// Whether a function is one of `table`.
fn is_table(builtin: Builtin) -> bool
    ensures { IsTrue result → IsTable builtin }
{
    matches!(
        builtin,
        Builtin::TableInsert
            | Builtin::TableRemove
            | Builtin::TableConcat
            | Builtin::TableUnpack
            | Builtin::TablePack
            | Builtin::TableCreate
            | Builtin::TableFind
            | Builtin::TableClear
            | Builtin::TableClone
            | Builtin::TableFreeze
            | Builtin::TableIsfrozen
            | Builtin::TableMove
            | Builtin::TableSort
    )
}

// Appends what a row's call gives.
fn row_into(
    rt: &impl AllocGlobal,
    row: &(Builtin, &[Given], &str),
    world: &mut LibWorld,
    own: TableId,
    out: &mut Vec<u8>,
) -> Result<(), Fail>
    requires builtin { IsMath row.now.0 ⊎ IsTable row.now.0 }
    requires world { IsWorld world.old }
    requires own { MayUseIn world.old (Table own) }
    ensures { Keeps world.old world.new }
{
    let args = values_of(rt, row.1, world, own)?;
    called(rt, row.0, args.as_slice(), world, out)?;
    Ok(())
}

// Appends what a row's second call gives of the table that its first one gives.
fn made_into(
    rt: &impl AllocGlobal,
    row: &(Builtin, &[Given], Builtin, &str),
    world: &mut LibWorld,
    own: TableId,
    out: &mut Vec<u8>,
) -> Result<(), Fail>
    requires first { IsTable row.now.0 }
    requires second { IsTable row.now.2 }
    requires world { IsWorld world.old }
    requires own { MayUseIn world.old (Table own) }
    ensures { Keeps world.old world.new }
{
    let mut unshown = Vec::new(rt.alloc());
    let args = values_of(rt, row.1, world, own)?;
    let made = called(rt, row.0, args.as_slice(), world, &mut unshown)?;
    called(rt, row.2, made.as_slice(), world, out)?;
    Ok(())
}

#[test]
fn math(rt: HostRuntime) -> Result<(), Fail> {
    let mut world = first_world(rt.alloc())?;
    let own = add_table(&mut world)?;
    for row in &MATH {
        let mut text = Vec::new(rt.alloc());
        assert!(rt; is_math(row.0));
        row_into(&rt, row, &mut world, own, &mut text)?;
        assert_eq!(rt; text.as_slice(), row.2.as_bytes());
    }
    Ok(())
}

#[test]
fn table(rt: HostRuntime) -> Result<(), Fail> {
    let mut world = first_world(rt.alloc())?;
    let own = add_table(&mut world)?;
    for row in &TABLE {
        let mut text = Vec::new(rt.alloc());
        assert!(rt; is_table(row.0));
        row_into(&rt, row, &mut world, own, &mut text)?;
        assert_eq!(rt; text.as_slice(), row.2.as_bytes());
    }
    Ok(())
}

#[test]
fn made(rt: HostRuntime) -> Result<(), Fail> {
    let mut world = first_world(rt.alloc())?;
    let own = add_table(&mut world)?;
    for row in &HOLED {
        let mut text = Vec::new(rt.alloc());
        assert!(rt; is_table(row.0));
        row_into(&rt, row, &mut world, own, &mut text)?;
        assert_eq!(rt; text.as_slice(), row.2.as_bytes());
    }
    for two in &MADE {
        let mut text = Vec::new(rt.alloc());
        assert!(rt; is_table(two.0));
        assert!(rt; is_table(two.2));
        made_into(&rt, two, &mut world, own, &mut text)?;
        assert_eq!(rt; text.as_slice(), two.3.as_bytes());
    }
    Ok(())
}

// Gives a table a metatable with `__metatable`.
fn protect(world: &mut LibWorld, t: TableId) -> Result<(), Fail>
    requires world { IsWorld world.old }
    requires table { MayUseIn world.old (Table t) }
    ensures { Keeps world.old world.new }
{
    let meta = add_table(world)?;
    let key = Value::Str(world.globals.meta.metatable);
    match write(&mut world.arena, meta, key, Value::Bool(true)) {
        Ok(()) => {}
        Err(_) => return Err(Fail::from("not written")),
    }
    match set_meta(&mut world.arena, t, Some(meta)) {
        Ok(()) => Ok(()),
        Err(_) => Err(Fail::from("frozen")),
    }
}

#[test]
fn protected(rt: HostRuntime) -> Result<(), Fail> {
    let mut world = first_world(rt.alloc())?;
    let own = add_table(&mut world)?;
    protect(&mut world, own)?;
    let mut text = Vec::new(rt.alloc());
    row_into(&rt, &PROTECTED, &mut world, own, &mut text)?;
    assert_eq!(rt; text.as_slice(), PROTECTED.2.as_bytes());
    Ok(())
}
