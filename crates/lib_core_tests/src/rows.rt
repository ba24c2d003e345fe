//! Calls, each with what it gives.

use crate::given::Given;
use crate::given::Given::{False, Function, Global, Nil, Number, Own, Text, True};
use value_model::Builtin;

/// Calls in turn of `print`, `type` and `typeof`, in a world of their own, as in each table below.
pub(crate) static KINDS: [(Builtin, &[Given], &str); 11] = [
    (Builtin::Print, &[], "prints "),
    (
        Builtin::Print,
        &[Number(1), Text("a"), Nil, True, Own],
        "prints 1\ta\tnil\ttrue\ttable: environment",
    ),
    (Builtin::Type, &[Nil], " nil"),
    (Builtin::Type, &[False], " boolean"),
    (Builtin::Type, &[Number(1)], " number"),
    (Builtin::Type, &[Text("1")], " string"),
    (Builtin::Type, &[Own], " table"),
    (Builtin::Type, &[Function, Number(1)], " function"),
    (
        Builtin::Type,
        &[],
        "missing argument #1 to 'type' (value expected)",
    ),
    (Builtin::Typeof, &[Own], " table"),
    (
        Builtin::Typeof,
        &[],
        "missing argument #1 to 'typeof' (value expected)",
    ),
];

/// Calls of `tostring`, `assert` and `error`.
pub(crate) static TEXTS: [(Builtin, &[Given], &str); 13] = [
    (Builtin::Tostring, &[Number(-5)], " -5"),
    (Builtin::Tostring, &[Nil], " nil"),
    (Builtin::Tostring, &[Text("a")], " a"),
    (Builtin::Tostring, &[Function], " function: print"),
    (
        Builtin::Tostring,
        &[],
        "missing argument #1 to 'tostring' (value expected)",
    ),
    (Builtin::Assert, &[True, Number(2), Nil], " true 2 nil"),
    (Builtin::Assert, &[False], "assertion failed!"),
    (Builtin::Assert, &[Nil, Text("m"), Number(1)], "raises m"),
    (Builtin::Assert, &[False, Nil], "raises nil"),
    (
        Builtin::Assert,
        &[],
        "missing argument #1 to 'assert' (value expected)",
    ),
    (Builtin::Error, &[Text("e")], "raises e"),
    (
        Builtin::Error,
        &[Own, Number(0)],
        "raises table: environment",
    ),
    (Builtin::Error, &[], "raises nil"),
];

/// Calls of `tonumber`.
pub(crate) static NUMBERS: [(Builtin, &[Given], &str); 9] = [
    (Builtin::Tonumber, &[Number(7)], " 7"),
    (Builtin::Tonumber, &[Text(" 0x10 ")], " 16"),
    (Builtin::Tonumber, &[Text("x")], " nil"),
    (Builtin::Tonumber, &[True], " nil"),
    (Builtin::Tonumber, &[Nil], " nil"),
    (Builtin::Tonumber, &[Text("1.5")], "stop not whole"),
    (
        Builtin::Tonumber,
        &[Text("9007199254740993")],
        "stop out of range",
    ),
    (Builtin::Tonumber, &[Text("12"), Nil], " 12"),
    (
        Builtin::Tonumber,
        &[],
        "missing argument #1 to 'tonumber' (value expected)",
    ),
];

/// Calls of `tonumber` with a base.
pub(crate) static BASES: [(Builtin, &[Given], &str); 18] = [
    (Builtin::Tonumber, &[Text(" -101"), Number(2)], " -5"),
    (Builtin::Tonumber, &[Text("12"), Number(2)], " nil"),
    (Builtin::Tonumber, &[Text("012"), Number(10)], " 12"),
    (Builtin::Tonumber, &[Text("fF"), Number(16)], " 255"),
    (Builtin::Tonumber, &[Text("z"), Number(36)], " 35"),
    (Builtin::Tonumber, &[Number(10), Number(2)], " 2"),
    (Builtin::Tonumber, &[Text("10"), Text("16")], " 16"),
    (Builtin::Tonumber, &[Text(""), Number(10)], " nil"),
    (Builtin::Tonumber, &[True, Number(10)], " nil"),
    (
        Builtin::Tonumber,
        &[
            Text("100000000000000000000000000000000000000000000000000000"),
            Number(2),
        ],
        " 9007199254740992",
    ),
    (
        Builtin::Tonumber,
        &[
            Text("100000000000000000000000000000000000000000000000000001"),
            Number(2),
        ],
        "stop out of range",
    ),
    (
        Builtin::Tonumber,
        &[Text("-9007199254740993"), Number(10)],
        "stop out of range",
    ),
    (
        Builtin::Tonumber,
        &[Text("20000000000001"), Number(16)],
        "stop out of range",
    ),
    (
        Builtin::Tonumber,
        &[Text("2gosa7pa2gx"), Number(36)],
        "stop out of range",
    ),
    (
        Builtin::Tonumber,
        &[Text("1"), Number(1)],
        "invalid argument #2 to 'tonumber' (out of range)",
    ),
    (
        Builtin::Tonumber,
        &[True, Number(37)],
        "invalid argument #2 to 'tonumber' (out of range)",
    ),
    (
        Builtin::Tonumber,
        &[Text("1"), Own],
        "invalid argument #2 to 'tonumber' (number expected, got table)",
    ),
    (
        Builtin::Tonumber,
        &[Text("1"), Text("1.5")],
        "stop not whole",
    ),
];

/// Calls of `select`.
pub(crate) static SELECT: [(Builtin, &[Given], &str); 13] = [
    (
        Builtin::Select,
        &[Number(2), Text("a"), Text("b"), Text("c")],
        " b c",
    ),
    (
        Builtin::Select,
        &[Number(4), Text("a"), Text("b"), Text("c")],
        "",
    ),
    (
        Builtin::Select,
        &[Number(9_007_199_254_740_992), Text("a")],
        "",
    ),
    (Builtin::Select, &[Number(-1), Text("a"), Text("b")], " b"),
    (Builtin::Select, &[Number(-2), Text("a"), Text("b")], " a b"),
    (Builtin::Select, &[Text("2"), Text("a"), Text("b")], " b"),
    (Builtin::Select, &[Text("#"), Text("a"), Nil], " 2"),
    (Builtin::Select, &[Text("#")], " 0"),
    (
        Builtin::Select,
        &[Number(0), Text("a")],
        "invalid argument #1 to 'select' (out of range)",
    ),
    (
        Builtin::Select,
        &[Number(-3), Text("a"), Text("b")],
        "invalid argument #1 to 'select' (out of range)",
    ),
    (
        Builtin::Select,
        &[Text("x")],
        "invalid argument #1 to 'select' (number expected, got string)",
    ),
    (
        Builtin::Select,
        &[Nil],
        "invalid argument #1 to 'select' (number expected, got nil)",
    ),
    (
        Builtin::Select,
        &[],
        "missing argument #1 to 'select' (number expected)",
    ),
];

/// Calls of `rawset`, `rawget`, `rawequal` and `rawlen`.
pub(crate) static RAW: [(Builtin, &[Given], &str); 18] = [
    (
        Builtin::Rawset,
        &[Own, Text("a"), Number(1)],
        " table: environment",
    ),
    (
        Builtin::Rawset,
        &[Own, Number(1), Text("x")],
        " table: environment",
    ),
    (
        Builtin::Rawset,
        &[Own, Nil, Number(1)],
        "table index is nil",
    ),
    (
        Builtin::Rawset,
        &[Global, Text("a"), Number(1)],
        "attempt to modify a readonly table",
    ),
    (
        Builtin::Rawset,
        &[Own, Number(1)],
        "missing argument #3 to 'rawset' (value expected)",
    ),
    (
        Builtin::Rawset,
        &[Text("a"), Number(1), Number(2)],
        "invalid argument #1 to 'rawset' (table expected, got string)",
    ),
    (Builtin::Rawget, &[Own, Text("a")], " 1"),
    (Builtin::Rawget, &[Own, Text("1")], " nil"),
    (
        Builtin::Rawget,
        &[Own],
        "missing argument #2 to 'rawget' (value expected)",
    ),
    (
        Builtin::Rawget,
        &[Number(1), Number(1)],
        "invalid argument #1 to 'rawget' (table expected, got number)",
    ),
    (Builtin::Rawequal, &[Text("a"), Text("a")], " true"),
    (Builtin::Rawequal, &[Number(1), Text("1")], " false"),
    (Builtin::Rawequal, &[Own, Global], " false"),
    (
        Builtin::Rawequal,
        &[Number(1)],
        "missing argument #2 to 'rawequal' (value expected)",
    ),
    (Builtin::Rawlen, &[Own], " 1"),
    (Builtin::Rawlen, &[Text("abc")], " 3"),
    (
        Builtin::Rawlen,
        &[Number(123)],
        "invalid argument #1 to 'rawlen' (table expected, got number)",
    ),
    (
        Builtin::Rawlen,
        &[],
        "missing argument #1 to 'rawlen' (table expected)",
    ),
];

/// Calls of `next`, `pairs`, `ipairs` and its iterator.
pub(crate) static WALKS: [(Builtin, &[Given], &str); 15] = [
    (
        Builtin::Rawset,
        &[Own, Text("a"), Number(1)],
        " table: environment",
    ),
    (
        Builtin::Rawset,
        &[Own, Number(1), Text("x")],
        " table: environment",
    ),
    (Builtin::Next, &[Own], " a 1"),
    (Builtin::Next, &[Own, Text("a")], " 1 x"),
    (Builtin::Next, &[Own, Number(1)], " nil"),
    (Builtin::Next, &[Own, Text("1")], "invalid key to 'next'"),
    (
        Builtin::Next,
        &[Nil],
        "invalid argument #1 to 'next' (table expected, got nil)",
    ),
    (
        Builtin::Pairs,
        &[Own],
        " function: next table: environment nil",
    ),
    (
        Builtin::Pairs,
        &[],
        "missing argument #1 to 'pairs' (table expected)",
    ),
    (
        Builtin::Ipairs,
        &[Own],
        " function: ipairs iterator table: environment 0",
    ),
    (
        Builtin::Ipairs,
        &[Function],
        "invalid argument #1 to 'ipairs' (table expected, got function)",
    ),
    (Builtin::IpairsIterator, &[Own, Text("0")], " 1 x"),
    (Builtin::IpairsIterator, &[Own, Number(1)], " nil"),
    (
        Builtin::IpairsIterator,
        &[Own, Number(9_007_199_254_740_992)],
        " nil",
    ),
    (
        Builtin::IpairsIterator,
        &[Own],
        "missing argument #2 to 'ipairs iterator' (number expected)",
    ),
];

/// Calls of `getmetatable` and `setmetatable`, and of what asks for `__tostring`.
pub(crate) static METATABLES: [(Builtin, &[Given], &str); 18] = [
    (Builtin::Getmetatable, &[Own], " nil"),
    (
        Builtin::Getmetatable,
        &[Text("a")],
        " table: string metatable",
    ),
    (Builtin::Getmetatable, &[Number(1)], " nil"),
    (
        Builtin::Getmetatable,
        &[],
        "missing argument #1 to 'getmetatable' (value expected)",
    ),
    (
        Builtin::Setmetatable,
        &[Own],
        "missing argument #2 to 'setmetatable' (table expected)",
    ),
    (
        Builtin::Setmetatable,
        &[Own, False],
        "invalid argument #2 to 'setmetatable' (table expected, got boolean)",
    ),
    (
        Builtin::Setmetatable,
        &[Global, Nil],
        "attempt to modify a readonly table",
    ),
    (Builtin::Setmetatable, &[Own, Global], " table: environment"),
    (Builtin::Getmetatable, &[Own], " table: global"),
    (Builtin::Setmetatable, &[Own, Nil], " table: environment"),
    (Builtin::Getmetatable, &[Own], " nil"),
    (Builtin::Setmetatable, &[Own, Own], " table: environment"),
    (
        Builtin::Rawset,
        &[Own, Text("__metatable"), Text("hidden")],
        " table: environment",
    ),
    (Builtin::Getmetatable, &[Own], " hidden"),
    (
        Builtin::Setmetatable,
        &[Own, Nil],
        "cannot change a protected metatable",
    ),
    (
        Builtin::Rawset,
        &[Own, Text("__tostring"), Function],
        " table: environment",
    ),
    (
        Builtin::Tostring,
        &[Own],
        "calls function: print table: environment",
    ),
    (
        Builtin::Print,
        &[Number(1), Own, Number(2)],
        "calls function: print table: environment",
    ),
];

/// Calls that ask for the text of the script's table; and what each gives by the text that it gets.
pub(crate) static GOING: [(Builtin, &[Given], Given, &str); 7] = [
    (Builtin::Tostring, &[Own], Text("x"), " x"),
    (Builtin::Tostring, &[Own], Text(""), " "),
    (
        Builtin::Tostring,
        &[Own, Number(1)],
        Number(5),
        "'__tostring' must return a string",
    ),
    (
        Builtin::Print,
        &[Number(1), Own, Text("b")],
        Text("x"),
        "prints 1\tx\tb",
    ),
    (Builtin::Print, &[Own], Text(""), "prints "),
    (
        Builtin::Print,
        &[Own, Number(2), Own],
        Text("x"),
        "calls function: print table: environment",
    ),
    (
        Builtin::Print,
        &[Number(1), Own],
        Nil,
        "'__tostring' must return a string",
    ),
];

/// Calls that give the script's table a `__tostring`.
pub(crate) static ASKED: [(Builtin, &[Given], &str); 2] = [
    (
        Builtin::Rawset,
        &[Own, Text("__tostring"), Function],
        " table: environment",
    ),
    (Builtin::Setmetatable, &[Own, Own], " table: environment"),
];
