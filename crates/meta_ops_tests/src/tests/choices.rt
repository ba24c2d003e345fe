//! Tests of the operators, of lengths and of calls.

ghost use Rattle.std.specs.Prelude.{IfOk};
ghost use Rattle.meta_ops_tests.specs.Ready.{IsReady};

use crate::world::{Expected, Operand, World};
use lib_arguments::text_value;
use meta_ops::{ArithOp, CompareOp, Outcome, arith, call_target, compare, concat, length};
use std::process::Abort;
use std::test::Fail;
use value_model::{Builtin, Kind, RunErr, Value};
use whole_num::Stop;

// A table without a metatable.
const PLAIN: Operand = Operand::Table(1);

// A table with all metamethods but `__le`, and its metatable.
const LEFT: Operand = Operand::Table(2);

const LEFT_META: u32 = 3;

// A table with another function for each metamethod, and its metatable.
const RIGHT: Operand = Operand::Table(4);

const RIGHT_META: u32 = 5;

// A table whose `__call` is a table, and its metatable.
const NO_CALL: Operand = Operand::Table(6);

const NO_CALL_META: u32 = 7;

// What the metamethods of the second table are.
const OTHER: Builtin = Builtin::StringLen;

// The tables.
fn operands(rt: &impl AllocGlobal) -> Result<World, Fail>
    ensures { IfOk result (λ w. IsReady w) }
{
    let mut world = World::new(rt)?;
    for _ in 1..8 {
        world.table()?;
    }
    world.give(2, LEFT_META);
    world.give(4, RIGHT_META);
    world.give(6, NO_CALL_META);
    world.fill(&METAMETHODS);
    Ok(world)
}

// What the metatables say.
const METAMETHODS: [(u32, Operand, Operand); 29] = [
    (
        LEFT_META,
        Operand::Text("__add"),
        Operand::Function(Builtin::MathAbs),
    ),
    (
        LEFT_META,
        Operand::Text("__sub"),
        Operand::Function(Builtin::MathCeil),
    ),
    (
        LEFT_META,
        Operand::Text("__mul"),
        Operand::Function(Builtin::MathFloor),
    ),
    (
        LEFT_META,
        Operand::Text("__div"),
        Operand::Function(Builtin::MathRound),
    ),
    (
        LEFT_META,
        Operand::Text("__idiv"),
        Operand::Function(Builtin::MathSign),
    ),
    (
        LEFT_META,
        Operand::Text("__mod"),
        Operand::Function(Builtin::MathMax),
    ),
    (
        LEFT_META,
        Operand::Text("__pow"),
        Operand::Function(Builtin::MathMin),
    ),
    (
        LEFT_META,
        Operand::Text("__unm"),
        Operand::Function(Builtin::MathClamp),
    ),
    (
        LEFT_META,
        Operand::Text("__eq"),
        Operand::Function(Builtin::Rawequal),
    ),
    (
        LEFT_META,
        Operand::Text("__lt"),
        Operand::Function(Builtin::Rawget),
    ),
    (
        LEFT_META,
        Operand::Text("__concat"),
        Operand::Function(Builtin::StringRep),
    ),
    (
        LEFT_META,
        Operand::Text("__len"),
        Operand::Function(Builtin::Rawlen),
    ),
    (
        LEFT_META,
        Operand::Text("__call"),
        Operand::Function(Builtin::Print),
    ),
    (RIGHT_META, Operand::Text("__add"), Operand::Function(OTHER)),
    (RIGHT_META, Operand::Text("__sub"), Operand::Function(OTHER)),
    (RIGHT_META, Operand::Text("__mul"), Operand::Function(OTHER)),
    (RIGHT_META, Operand::Text("__div"), Operand::Function(OTHER)),
    (
        RIGHT_META,
        Operand::Text("__idiv"),
        Operand::Function(OTHER),
    ),
    (RIGHT_META, Operand::Text("__mod"), Operand::Function(OTHER)),
    (RIGHT_META, Operand::Text("__pow"), Operand::Function(OTHER)),
    (RIGHT_META, Operand::Text("__unm"), Operand::Function(OTHER)),
    (RIGHT_META, Operand::Text("__eq"), Operand::Function(OTHER)),
    (RIGHT_META, Operand::Text("__lt"), Operand::Function(OTHER)),
    (RIGHT_META, Operand::Text("__le"), Operand::Function(OTHER)),
    (
        RIGHT_META,
        Operand::Text("__concat"),
        Operand::Function(OTHER),
    ),
    (RIGHT_META, Operand::Text("__len"), Operand::Function(OTHER)),
    (
        RIGHT_META,
        Operand::Text("__call"),
        Operand::Function(OTHER),
    ),
    (NO_CALL_META, Operand::Text("__call"), LEFT),
    // Strings have a metatable too.
    (
        0,
        Operand::Text("__lt"),
        Operand::Function(Builtin::StringByte),
    ),
];

// Each row is an operator, its operands and what it gives.
const CALCULATES: [(ArithOp, Operand, Operand, Expected); 17] = [
    (
        ArithOp::Add,
        Operand::Number(7),
        Operand::Number(-2),
        Expected::Gives(Operand::Number(5)),
    ),
    (
        ArithOp::Sub,
        Operand::Number(7),
        Operand::Number(-2),
        Expected::Gives(Operand::Number(9)),
    ),
    (
        ArithOp::Mul,
        Operand::Number(7),
        Operand::Number(-2),
        Expected::Gives(Operand::Number(-14)),
    ),
    (
        ArithOp::Div,
        Operand::Number(6),
        Operand::Number(-2),
        Expected::Gives(Operand::Number(-3)),
    ),
    (
        ArithOp::Div,
        Operand::Number(7),
        Operand::Number(-2),
        Expected::Stops(Stop::NotWhole),
    ),
    (
        ArithOp::Idiv,
        Operand::Number(7),
        Operand::Number(-2),
        Expected::Gives(Operand::Number(-4)),
    ),
    (
        ArithOp::Mod,
        Operand::Number(7),
        Operand::Number(-2),
        Expected::Gives(Operand::Number(-1)),
    ),
    (
        ArithOp::Pow,
        Operand::Number(-2),
        Operand::Number(7),
        Expected::Gives(Operand::Number(-128)),
    ),
    (
        ArithOp::Unm,
        Operand::Number(7),
        Operand::Nil,
        Expected::Gives(Operand::Number(-7)),
    ),
    (
        ArithOp::Unm,
        Operand::Text(" 10 "),
        Operand::Nil,
        Expected::Gives(Operand::Number(-10)),
    ),
    (
        ArithOp::Add,
        Operand::Text("10"),
        Operand::Number(7),
        Expected::Gives(Operand::Number(17)),
    ),
    (
        ArithOp::Add,
        Operand::Number(7),
        Operand::Text("0x0A"),
        Expected::Gives(Operand::Number(17)),
    ),
    (
        ArithOp::Add,
        Operand::Text("1.5"),
        Operand::Number(7),
        Expected::Stops(Stop::NotWhole),
    ),
    (
        ArithOp::Add,
        Operand::Number(7),
        Operand::Text("1e400"),
        Expected::Stops(Stop::OutOfRange),
    ),
    (
        ArithOp::Add,
        Operand::Text("1.5"),
        Operand::Text("1e400"),
        Expected::Stops(Stop::NotWhole),
    ),
    (
        ArithOp::Add,
        Operand::Text("1e400"),
        Operand::Text("1.5"),
        Expected::Stops(Stop::OutOfRange),
    ),
    (
        ArithOp::Unm,
        Operand::Text("1.5"),
        Operand::Number(7),
        Expected::Stops(Stop::NotWhole),
    ),
];

const ASKS_FOR_ARITHMETIC: [(ArithOp, Operand, Operand, Expected); 19] = [
    (
        ArithOp::Add,
        LEFT,
        RIGHT,
        Expected::CallsWithTwo(Builtin::MathAbs, LEFT, RIGHT),
    ),
    (
        ArithOp::Sub,
        LEFT,
        RIGHT,
        Expected::CallsWithTwo(Builtin::MathCeil, LEFT, RIGHT),
    ),
    (
        ArithOp::Mul,
        LEFT,
        RIGHT,
        Expected::CallsWithTwo(Builtin::MathFloor, LEFT, RIGHT),
    ),
    (
        ArithOp::Div,
        LEFT,
        RIGHT,
        Expected::CallsWithTwo(Builtin::MathRound, LEFT, RIGHT),
    ),
    (
        ArithOp::Idiv,
        LEFT,
        RIGHT,
        Expected::CallsWithTwo(Builtin::MathSign, LEFT, RIGHT),
    ),
    (
        ArithOp::Mod,
        LEFT,
        RIGHT,
        Expected::CallsWithTwo(Builtin::MathMax, LEFT, RIGHT),
    ),
    (
        ArithOp::Pow,
        LEFT,
        RIGHT,
        Expected::CallsWithTwo(Builtin::MathMin, LEFT, RIGHT),
    ),
    (
        ArithOp::Add,
        LEFT,
        Operand::Number(1),
        Expected::CallsWithTwo(Builtin::MathAbs, LEFT, Operand::Number(1)),
    ),
    (
        ArithOp::Add,
        Operand::Number(1),
        LEFT,
        Expected::CallsWithTwo(Builtin::MathAbs, Operand::Number(1), LEFT),
    ),
    (
        ArithOp::Sub,
        PLAIN,
        RIGHT,
        Expected::CallsWithTwo(OTHER, PLAIN, RIGHT),
    ),
    (
        ArithOp::Unm,
        LEFT,
        RIGHT,
        Expected::Calls(Builtin::MathClamp, LEFT),
    ),
    (
        ArithOp::Unm,
        PLAIN,
        RIGHT,
        Expected::Errs(RunErr::Arithmetic {
            operator: ArithOp::Unm,
            left: Kind::Table,
            right: Kind::Table,
        }),
    ),
    (
        ArithOp::Unm,
        Operand::Text("x"),
        Operand::Number(1),
        Expected::Errs(RunErr::Arithmetic {
            operator: ArithOp::Unm,
            left: Kind::String,
            right: Kind::String,
        }),
    ),
    (
        ArithOp::Sub,
        Operand::Text("x"),
        Operand::Number(1),
        Expected::Errs(RunErr::Arithmetic {
            operator: ArithOp::Sub,
            left: Kind::String,
            right: Kind::Number,
        }),
    ),
    (
        ArithOp::Sub,
        Operand::Number(1),
        Operand::Nil,
        Expected::Errs(RunErr::Arithmetic {
            operator: ArithOp::Sub,
            left: Kind::Number,
            right: Kind::Nil,
        }),
    ),
    // A text that is a number of any value leaves the other operand to be asked.
    (
        ArithOp::Add,
        Operand::Text("1.5"),
        PLAIN,
        Expected::Errs(RunErr::Arithmetic {
            operator: ArithOp::Add,
            left: Kind::String,
            right: Kind::Table,
        }),
    ),
    (
        ArithOp::Add,
        PLAIN,
        Operand::Text("1.5"),
        Expected::Errs(RunErr::Arithmetic {
            operator: ArithOp::Add,
            left: Kind::Table,
            right: Kind::String,
        }),
    ),
    (
        ArithOp::Add,
        Operand::Text("1.5"),
        RIGHT,
        Expected::CallsWithTwo(OTHER, Operand::Text("1.5"), RIGHT),
    ),
    (
        ArithOp::Add,
        LEFT,
        Operand::Text("1.5"),
        Expected::CallsWithTwo(Builtin::MathAbs, LEFT, Operand::Text("1.5")),
    ),
];

const COMPARES: [(CompareOp, Operand, Operand, Expected); 18] = [
    (
        CompareOp::Eq,
        Operand::Number(1),
        Operand::Number(1),
        Expected::Gives(Operand::Boolean(true)),
    ),
    (
        CompareOp::Eq,
        Operand::Number(1),
        Operand::Text("1"),
        Expected::Gives(Operand::Boolean(false)),
    ),
    (
        CompareOp::Eq,
        Operand::Text("a"),
        Operand::Text("a"),
        Expected::Gives(Operand::Boolean(true)),
    ),
    (
        CompareOp::Eq,
        LEFT,
        LEFT,
        Expected::Gives(Operand::Boolean(true)),
    ),
    (
        CompareOp::Eq,
        PLAIN,
        NO_CALL,
        Expected::Gives(Operand::Boolean(false)),
    ),
    (
        CompareOp::Eq,
        LEFT,
        Operand::Number(1),
        Expected::Gives(Operand::Boolean(false)),
    ),
    (
        CompareOp::Eq,
        LEFT,
        RIGHT,
        Expected::CallsWithTwo(Builtin::Rawequal, LEFT, RIGHT),
    ),
    (
        CompareOp::Eq,
        LEFT,
        PLAIN,
        Expected::CallsWithTwo(Builtin::Rawequal, LEFT, PLAIN),
    ),
    (
        CompareOp::Eq,
        PLAIN,
        LEFT,
        Expected::CallsWithTwo(Builtin::Rawequal, PLAIN, LEFT),
    ),
    (
        CompareOp::Lt,
        Operand::Number(1),
        Operand::Number(2),
        Expected::Gives(Operand::Boolean(true)),
    ),
    (
        CompareOp::Lt,
        Operand::Number(1),
        Operand::Number(1),
        Expected::Gives(Operand::Boolean(false)),
    ),
    (
        CompareOp::Le,
        Operand::Number(1),
        Operand::Number(1),
        Expected::Gives(Operand::Boolean(true)),
    ),
    (
        CompareOp::Le,
        Operand::Number(2),
        Operand::Number(1),
        Expected::Gives(Operand::Boolean(false)),
    ),
    // Strings have `__lt`, which two strings do not ask.
    (
        CompareOp::Lt,
        Operand::Text("a"),
        Operand::Text("ab"),
        Expected::Gives(Operand::Boolean(true)),
    ),
    (
        CompareOp::Lt,
        Operand::Text("ab"),
        Operand::Text("a"),
        Expected::Gives(Operand::Boolean(false)),
    ),
    (
        CompareOp::Lt,
        Operand::Text("a"),
        Operand::Text("a"),
        Expected::Gives(Operand::Boolean(false)),
    ),
    (
        CompareOp::Le,
        Operand::Text("a"),
        Operand::Text("a"),
        Expected::Gives(Operand::Boolean(true)),
    ),
    (
        CompareOp::Le,
        Operand::Text("ab"),
        Operand::Text("a"),
        Expected::Gives(Operand::Boolean(false)),
    ),
];

const ASKS_FOR_ORDER: [(CompareOp, Operand, Operand, Expected); 10] = [
    (
        CompareOp::Lt,
        LEFT,
        RIGHT,
        Expected::CallsWithTwo(Builtin::Rawget, LEFT, RIGHT),
    ),
    (
        CompareOp::Lt,
        LEFT,
        Operand::Number(1),
        Expected::CallsWithTwo(Builtin::Rawget, LEFT, Operand::Number(1)),
    ),
    (
        CompareOp::Lt,
        Operand::Number(1),
        RIGHT,
        Expected::CallsWithTwo(OTHER, Operand::Number(1), RIGHT),
    ),
    (
        CompareOp::Lt,
        Operand::Text("a"),
        Operand::Number(1),
        Expected::CallsWithTwo(Builtin::StringByte, Operand::Text("a"), Operand::Number(1)),
    ),
    (
        CompareOp::Lt,
        Operand::Number(1),
        PLAIN,
        Expected::Errs(RunErr::CompareLess {
            left: Kind::Number,
            right: Kind::Table,
        }),
    ),
    (
        CompareOp::Lt,
        Operand::Nil,
        Operand::Number(1),
        Expected::Errs(RunErr::CompareLess {
            left: Kind::Nil,
            right: Kind::Number,
        }),
    ),
    (
        CompareOp::Le,
        PLAIN,
        RIGHT,
        Expected::CallsWithTwo(OTHER, PLAIN, RIGHT),
    ),
    (
        CompareOp::Le,
        LEFT,
        RIGHT,
        Expected::CallsWithTwo(OTHER, LEFT, RIGHT),
    ),
    // There is `__lt` alone.
    (
        CompareOp::Le,
        LEFT,
        Operand::Number(1),
        Expected::Errs(RunErr::CompareLessOrEqual {
            left: Kind::Table,
            right: Kind::Number,
        }),
    ),
    (
        CompareOp::Le,
        Operand::Text("a"),
        Operand::Number(1),
        Expected::Errs(RunErr::CompareLessOrEqual {
            left: Kind::String,
            right: Kind::Number,
        }),
    ),
];

// Each row is two operands, and what comes of them.
const JOINS: [(Operand, Operand, Expected); 9] = [
    (
        Operand::Text("a"),
        Operand::Number(-2),
        Expected::Gives(Operand::Text("a-2")),
    ),
    (
        Operand::Number(1),
        Operand::Number(-2),
        Expected::Gives(Operand::Text("1-2")),
    ),
    (
        Operand::Text("a"),
        Operand::Text(""),
        Expected::Gives(Operand::Text("a")),
    ),
    (
        LEFT,
        Operand::Text("a"),
        Expected::CallsWithTwo(Builtin::StringRep, LEFT, Operand::Text("a")),
    ),
    (
        Operand::Number(1),
        LEFT,
        Expected::CallsWithTwo(Builtin::StringRep, Operand::Number(1), LEFT),
    ),
    (
        LEFT,
        RIGHT,
        Expected::CallsWithTwo(Builtin::StringRep, LEFT, RIGHT),
    ),
    (
        Operand::Text("a"),
        RIGHT,
        Expected::CallsWithTwo(OTHER, Operand::Text("a"), RIGHT),
    ),
    (
        Operand::Text("a"),
        PLAIN,
        Expected::Errs(RunErr::Concatenate {
            left: Kind::String,
            right: Kind::Table,
        }),
    ),
    (
        Operand::Nil,
        Operand::Number(1),
        Expected::Errs(RunErr::Concatenate {
            left: Kind::Nil,
            right: Kind::Number,
        }),
    ),
];

// Each row is an operand, and what comes of it.
const LENGTHS: [(Operand, Expected); 5] = [
    (
        Operand::Text("caf\u{e9}"),
        Expected::Gives(Operand::Number(5)),
    ),
    (PLAIN, Expected::Gives(Operand::Number(1))),
    (NO_CALL, Expected::Gives(Operand::Number(0))),
    (LEFT, Expected::Calls(Builtin::Rawlen, LEFT)),
    (
        Operand::Nil,
        Expected::Errs(RunErr::LengthOf { operand: Kind::Nil }),
    ),
];

const CALLS: [(Operand, Expected); 7] = [
    (
        Operand::Function(Builtin::Print),
        Expected::Gives(Operand::Function(Builtin::Print)),
    ),
    (LEFT, Expected::Calls(Builtin::Print, LEFT)),
    (RIGHT, Expected::Calls(OTHER, RIGHT)),
    (
        NO_CALL,
        Expected::Errs(RunErr::CallOf {
            callee: Kind::Table,
        }),
    ),
    (
        PLAIN,
        Expected::Errs(RunErr::CallOf {
            callee: Kind::Table,
        }),
    ),
    (
        Operand::Text("x"),
        Expected::Errs(RunErr::CallOf {
            callee: Kind::String,
        }),
    ),
    (
        Operand::Nil,
        Expected::Errs(RunErr::CallOf { callee: Kind::Nil }),
    ),
];

// Calculates.
fn calculates(rt: &impl Abort, world: &mut World, row: &(ArithOp, Operand, Operand, Expected))
    requires { IsReady world.old }
    ensures { IsReady world.new }
{
    let (left, right) = world.pair(&row.1, &row.2);
    let given = arith(
        &world.arena,
        &world.globals,
        &world.names,
        row.0,
        left,
        right,
    );
    assert_eq!(rt; given, world.outcome(&row.3));
}

#[test]
fn numbers_are_calculated_with(rt: HostRuntime) -> Result<(), Fail> {
    let mut world = operands(&rt)?;
    for row in &CALCULATES {
        calculates(&rt, &mut world, row);
    }
    Ok(())
}

#[test]
fn arithmetic_asks_metamethods(rt: HostRuntime) -> Result<(), Fail> {
    let mut world = operands(&rt)?;
    for row in &ASKS_FOR_ARITHMETIC {
        calculates(&rt, &mut world, row);
    }
    Ok(())
}

// Compares.
fn compares(rt: &impl Abort, world: &mut World, row: &(CompareOp, Operand, Operand, Expected))
    requires { IsReady world.old }
    ensures { IsReady world.new }
{
    let (left, right) = world.pair(&row.1, &row.2);
    let given = compare(
        &world.arena,
        &world.globals,
        &world.names,
        row.0,
        left,
        right,
    );
    assert_eq!(rt; given, world.outcome(&row.3));
}

#[test]
fn comparisons(rt: HostRuntime) -> Result<(), Fail> {
    let mut world = operands(&rt)?;
    for row in &COMPARES {
        compares(&rt, &mut world, row);
    }
    Ok(())
}

#[test]
fn order_asks_metamethods(rt: HostRuntime) -> Result<(), Fail> {
    let mut world = operands(&rt)?;
    for row in &ASKS_FOR_ORDER {
        compares(&rt, &mut world, row);
    }
    Ok(())
}

// Joins.
fn joins(rt: &(impl Abort + AllocGlobal), world: &mut World, row: &(Operand, Operand, Expected))
    requires { IsReady world.old }
    ensures { IsReady world.new }
{
    let expected = world.outcome(&row.2);
    let (left, right) = world.pair(&row.0, &row.1);
    let given = concat(
        rt.alloc(),
        &world.arena,
        &world.globals,
        &mut world.names,
        left,
        right,
    );
    assert_eq!(rt; given, Ok(expected));
}

#[test]
fn concatenation(rt: HostRuntime) -> Result<(), Fail> {
    let mut world = operands(&rt)?;
    for row in &JOINS {
        joins(&rt, &mut world, row);
    }
    Ok(())
}

// Twice 8,388,609 bytes are more than a string may have.
#[test]
fn too_long_a_string(rt: HostRuntime) -> Result<(), Fail> {
    let mut world = operands(&rt)?;
    let mut bytes = Vec::new(rt.alloc());
    bytes.push(b'x')?;
    for _ in 0..23 {
        let half = Vec::from_slice(rt.alloc(), bytes.as_slice())?;
        bytes.extend_from_slice(half.as_slice())?;
    }
    bytes.push(b'x')?;
    twice(&rt, &mut world, bytes.as_slice())
}

// Joins a text that is too long with itself.
fn twice(rt: &(impl Abort + AllocGlobal), world: &mut World, bytes: &[u8]) -> Result<(), Fail>
    requires { IsReady world.old }
{
    let id = text_value(&mut world.names, bytes)?;
    let known = id.0 < world.names.count();
    assert!(rt; known);
    let half = &Value::Str(id);
    let given = concat(
        rt.alloc(),
        &world.arena,
        &world.globals,
        &mut world.names,
        *half,
        *half,
    );
    assert_eq!(rt; given, Ok(Outcome::RunError(RunErr::StringTooLarge)));
    Ok(())
}

#[test]
fn lengths(rt: HostRuntime) -> Result<(), Fail> {
    let mut world = operands(&rt)?;
    world.store(1, &Operand::Number(1), &LEFT);
    for (a, expected) in &LENGTHS {
        let (v, _) = world.pair(a, &Operand::Nil);
        let given = length(&world.arena, &world.globals, &world.names, v);
        assert_eq!(rt; given, world.outcome(expected));
    }
    Ok(())
}

#[test]
fn calls(rt: HostRuntime) -> Result<(), Fail> {
    let mut world = operands(&rt)?;
    for (a, expected) in &CALLS {
        let f = world.value(a);
        let given = call_target(&world.arena, &world.globals, f);
        assert_eq!(rt; given, world.outcome(expected));
    }
    Ok(())
}
