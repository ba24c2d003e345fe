//! The functions of the library, each with its name, in the order of their tables.

use value_model::Builtin;

pub(crate) const CORE: [(&str, Builtin); 22] = [
    ("print", Builtin::Print),
    ("type", Builtin::Type),
    ("typeof", Builtin::Typeof),
    ("tostring", Builtin::Tostring),
    ("tonumber", Builtin::Tonumber),
    ("assert", Builtin::Assert),
    ("error", Builtin::Error),
    ("pcall", Builtin::Pcall),
    ("xpcall", Builtin::Xpcall),
    ("select", Builtin::Select),
    ("next", Builtin::Next),
    ("pairs", Builtin::Pairs),
    ("ipairs", Builtin::Ipairs),
    ("rawget", Builtin::Rawget),
    ("rawset", Builtin::Rawset),
    ("rawequal", Builtin::Rawequal),
    ("rawlen", Builtin::Rawlen),
    ("getmetatable", Builtin::Getmetatable),
    ("setmetatable", Builtin::Setmetatable),
    ("unpack", Builtin::TableUnpack),
    ("getfenv", Builtin::Getfenv),
    ("setfenv", Builtin::Setfenv),
];

pub(crate) const MATH: [(&str, Builtin); 8] = [
    ("abs", Builtin::MathAbs),
    ("ceil", Builtin::MathCeil),
    ("floor", Builtin::MathFloor),
    ("round", Builtin::MathRound),
    ("sign", Builtin::MathSign),
    ("max", Builtin::MathMax),
    ("min", Builtin::MathMin),
    ("clamp", Builtin::MathClamp),
];

pub(crate) const STRING: [(&str, Builtin); 10] = [
    ("byte", Builtin::StringByte),
    ("char", Builtin::StringChar),
    ("len", Builtin::StringLen),
    ("sub", Builtin::StringSub),
    ("lower", Builtin::StringLower),
    ("upper", Builtin::StringUpper),
    ("rep", Builtin::StringRep),
    ("reverse", Builtin::StringReverse),
    ("split", Builtin::StringSplit),
    ("format", Builtin::StringFormat),
];

pub(crate) const TABLE: [(&str, Builtin); 13] = [
    ("insert", Builtin::TableInsert),
    ("remove", Builtin::TableRemove),
    ("concat", Builtin::TableConcat),
    ("unpack", Builtin::TableUnpack),
    ("pack", Builtin::TablePack),
    ("create", Builtin::TableCreate),
    ("find", Builtin::TableFind),
    ("clear", Builtin::TableClear),
    ("clone", Builtin::TableClone),
    ("freeze", Builtin::TableFreeze),
    ("isfrozen", Builtin::TableIsfrozen),
    ("move", Builtin::TableMove),
    ("sort", Builtin::TableSort),
];

pub(crate) const COROUTINE: [(&str, Builtin); 8] = [
    ("create", Builtin::CoroutineCreate),
    ("resume", Builtin::CoroutineResume),
    ("yield", Builtin::CoroutineYield),
    ("status", Builtin::CoroutineStatus),
    ("wrap", Builtin::CoroutineWrap),
    ("isyieldable", Builtin::CoroutineIsyieldable),
    ("running", Builtin::CoroutineRunning),
    ("close", Builtin::CoroutineClose),
];
