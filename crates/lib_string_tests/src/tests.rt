ghost use Rattle.std.specs.List.{AllByRecursion};
ghost use Rattle.luau_tables.specs.Worlds.{IsWorld, MayUseIn};

use crate::given::{is_of_string, number, text};
use crate::shown::answer_into;
use first_world::first_world;
use lib_string::call;
use luau_tables::LibWorld;
use std::process::Abort;
use std::test::Fail;
use value_model::{Builtin, Value};

// Calls with a text and two numbers or nils, and what they give.
static ROWS: [(Builtin, &str, Option<i64>, Option<i64>, &str); 34] = [
    (Builtin::StringLen, "abc", None, None, " 3"),
    (Builtin::StringSub, "abcde", Some(2), Some(4), " [bcd]"),
    (Builtin::StringSub, "abcde", Some(-3), None, " [cde]"),
    (Builtin::StringByte, "abc", None, None, " 97"),
    (Builtin::StringByte, "abc", Some(1), Some(-1), " 97 98 99"),
    (Builtin::StringChar, "104", Some(105), Some(33), " [hi!]"),
    (Builtin::StringLower, "aBZ[@1", None, None, " [abz[@1]"),
    (Builtin::StringUpper, "az{`B", None, None, " [AZ{`B]"),
    (Builtin::StringReverse, "abc", None, None, " [cba]"),
    (Builtin::StringRep, "ab", Some(3), None, " [ababab]"),
    (Builtin::StringRep, "ab", Some(-1), None, " []"),
    (Builtin::StringSplit, "a,b,c", None, None, " {[a][b][c]}"),
    (Builtin::StringSplit, "a1b1", Some(1), None, " {[a][b][]}"),
    (
        Builtin::StringFormat,
        "%d|%-4d|",
        Some(-7),
        Some(7),
        " [-7|7   |]",
    ),
    (
        Builtin::StringFormat,
        "%4d|%04d",
        Some(7),
        Some(-5),
        " [   7|-005]",
    ),
    (
        Builtin::StringFormat,
        "%x|%X",
        Some(255),
        Some(255),
        " [ff|FF]",
    ),
    (
        Builtin::StringFormat,
        "%c|%3c",
        Some(65),
        Some(66),
        " [A|  B]",
    ),
    (
        Builtin::StringFormat,
        "%s|%5s",
        Some(12),
        Some(-7),
        " [12|   -7]",
    ),
    (Builtin::StringFormat, "%*|%*", Some(12), None, " [12|nil]"),
    (Builtin::StringFormat, "100%%", None, None, " [100%]"),
    (
        Builtin::StringSub,
        "abcde",
        None,
        None,
        "invalid argument #2 to 'sub' (number expected, got nil)",
    ),
    (
        Builtin::StringChar,
        "104",
        Some(256),
        Some(33),
        "invalid argument #2 to 'char' (out of range)",
    ),
    (Builtin::StringChar, "1.5", Some(1), Some(2), "stop"),
    (
        Builtin::StringRep,
        "a",
        Some(16777217),
        None,
        "resulting string too large",
    ),
    (
        Builtin::StringFormat,
        "%x",
        Some(-1),
        None,
        "invalid argument #2 to 'format' (out of range)",
    ),
    (
        Builtin::StringFormat,
        "%c",
        Some(256),
        None,
        "invalid argument #2 to 'format' (out of range)",
    ),
    (
        Builtin::StringFormat,
        "%d",
        None,
        None,
        "invalid argument #2 to 'format' (number expected, got nil)",
    ),
    (
        Builtin::StringFormat,
        "%d%d%d",
        Some(1),
        Some(2),
        "missing argument #4 to 'format' (number expected)",
    ),
    (
        Builtin::StringFormat,
        "%d%d%s",
        Some(1),
        Some(2),
        "missing argument #4 to 'format' (value expected)",
    ),
    (
        Builtin::StringFormat,
        "a%",
        None,
        None,
        "invalid directive in 'format'",
    ),
    (
        Builtin::StringFormat,
        "%123d",
        Some(7),
        None,
        "invalid directive in 'format'",
    ),
    (
        Builtin::StringFormat,
        "%0-4d",
        Some(7),
        None,
        "invalid directive in 'format'",
    ),
    (
        Builtin::StringFormat,
        "%5*",
        Some(7),
        None,
        "invalid directive in 'format'",
    ),
    (
        Builtin::StringFormat,
        "%q",
        Some(7),
        None,
        "invalid directive in 'format'",
    ),
];

// Calls without arguments, and the texts of their run errors.
static MISSING: [(Builtin, &str); 3] = [
    (
        Builtin::StringLen,
        "missing argument #1 to 'len' (string expected)",
    ),
    (
        Builtin::StringChar,
        "missing argument #1 to 'char' (number expected)",
    ),
    (
        Builtin::StringFormat,
        "missing argument #1 to 'format' (string expected)",
    ),
];

// The text of what a call gives.
fn called(
    rt: &impl AllocGlobal,
    f: Builtin,
    args: &[Value],
    world: &mut LibWorld,
) -> Result<Vec<u8>, Fail>
    requires world { IsWorld world.old }
    requires args { AllByRecursion (MayUseIn world.old) args.now }
{
    let mut results = Vec::new(rt.alloc());
    let mut out = Vec::new(rt.alloc());
    if is_of_string(f) {
        let answer = call(rt.alloc(), f, args, world, &mut results)?;
        answer_into(&answer, results.as_slice(), world, &mut out)?;
    }
    Ok(out)
}

// The text of what a row's call gives.
fn text_of_row(
    rt: &impl AllocGlobal,
    f: Builtin,
    first: &[u8],
    second: Option<i64>,
    third: Option<i64>,
) -> Result<Vec<u8>, Fail> {
    let mut world = first_world(rt.alloc())?;
    let args = [text(first, &mut world)?, number(second), number(third)];
    called(rt, f, &args, &mut world)
}

#[test]
fn rows(rt: HostRuntime) -> Result<(), Fail> {
    for row in &ROWS {
        let text = text_of_row(&rt, row.0, row.1.as_bytes(), row.2, row.3)?;
        assert_eq!(rt; text.as_slice(), row.4.as_bytes());
    }
    Ok(())
}

// The text of what a call without arguments gives.
fn text_of_none(rt: &impl AllocGlobal, f: Builtin) -> Result<Vec<u8>, Fail> {
    let mut world = first_world(rt.alloc())?;
    called(rt, f, &[], &mut world)
}

#[test]
fn missing(rt: HostRuntime) -> Result<(), Fail> {
    for row in &MISSING {
        let text = text_of_none(&rt, row.0)?;
        assert_eq!(rt; text.as_slice(), row.1.as_bytes());
    }
    Ok(())
}
