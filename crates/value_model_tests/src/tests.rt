use byte_text::{Bytes, Interner, StrId};
use std::test::Fail;
use value_model::{
    ArithOp, Builtin, ClosureId, CoStatus, HostId, Kind, LoopBound, Owner, Plain, Plains, RunErr,
    ShortOwner, TableId, ThreadId, Value, Wanted, truthy, type_name,
};
use whole_num::Whole;

const TABLE: TableId = TableId {
    owner: ShortOwner::Frozen,
    place: 3,
};

const CLOSURE: ClosureId = ClosureId {
    owner: ShortOwner::Script(1),
    place: 0,
};

const THREAD: ThreadId = ThreadId {
    owner: ShortOwner::Script(1),
    place: 2,
};

const VALUES: [(Value, &str, bool); 10] = [
    (Value::Nil, "nil", false),
    (Value::Bool(false), "boolean", false),
    (Value::Bool(true), "boolean", true),
    (Value::Str(StrId::PRINT), "string", true),
    (Value::Table(TABLE), "table", true),
    (Value::Closure(CLOSURE), "function", true),
    (Value::Native(Builtin::MathMax), "function", true),
    (Value::Host(HostId(0)), "function", true),
    (Value::Wrap(THREAD), "function", true),
    (Value::Thread(THREAD), "thread", true),
];

#[test]
fn kinds(rt: HostRuntime) -> Result<(), Fail> {
    for (value, kind, holds) in &VALUES {
        assert_eq!(rt; type_name(*value), *kind);
        assert_eq!(rt; truthy(*value), *holds);
    }
    assert_eq!(rt; Owner::Script(63).short().owner(), Owner::Script(63));
    assert!(rt; Value::Wrap(THREAD) != Value::Thread(THREAD));
    assert!(rt; CoStatus::Normal != CoStatus::Running);
    Ok(())
}

const ERRORS: [(RunErr, &str); 12] = [
    (
        RunErr::IndexWithName {
            base: Kind::Nil,
            key: StrId::SELF,
        },
        "attempt to index nil with 'self'",
    ),
    (
        RunErr::IndexWith {
            base: Kind::Boolean,
            key: Kind::Table,
        },
        "attempt to index boolean with table",
    ),
    (
        RunErr::Arithmetic {
            operator: ArithOp::Idiv,
            left: Kind::Table,
            right: Kind::Nil,
        },
        "attempt to perform arithmetic (idiv) on table and nil",
    ),
    (
        RunErr::Arithmetic {
            operator: ArithOp::Unm,
            left: Kind::Thread,
            right: Kind::Nil,
        },
        "attempt to perform arithmetic (unm) on thread",
    ),
    (
        RunErr::CompareLessOrEqual {
            left: Kind::Number,
            right: Kind::String,
        },
        "attempt to compare number <= string",
    ),
    (
        RunErr::CallOf { callee: Kind::Nil },
        "attempt to call a nil value",
    ),
    (
        RunErr::ForBound {
            bound: LoopBound::Step,
            got: Kind::Function,
        },
        "invalid 'for' step value (number expected, got function)",
    ),
    (
        RunErr::MissingArgument {
            argument: 2,
            function: Builtin::TableInsert,
            wanted: Wanted::AnyValue,
        },
        "missing argument #2 to 'insert' (value expected)",
    ),
    (
        RunErr::InvalidArgument {
            argument: 1,
            function: Builtin::IpairsIterator,
            wanted: Wanted::OfKind(Kind::Table),
            got: Kind::Number,
        },
        "invalid argument #1 to 'ipairs iterator' (table expected, got number)",
    ),
    (
        RunErr::ArgumentOutOfRange {
            argument: 12,
            function: Builtin::StringChar,
        },
        "invalid argument #12 to 'char' (out of range)",
    ),
    (RunErr::NewindexChain, "'__newindex' chain too long"),
    (RunErr::NoReply, "no reply from host"),
];

#[test]
fn errors(rt: HostRuntime) -> Result<(), Fail> {
    let mut names = Interner::new(rt.alloc());
    for (error, text) in &ERRORS {
        let mut out = Vec::from_slice(rt.alloc(), b"1 raised: ")?;
        error.text_into(&names, &mut out)?;
        assert_eq!(rt; &out.as_slice()[10..], text.as_bytes());
    }
    let mut out = Vec::new(rt.alloc());
    let host = RunErr::HostArgument {
        argument: 1,
        path: names.intern(b"db.get")?,
        got: Kind::Table,
    };
    host.text_into(&names, &mut out)?;
    if let Some(place) = Whole::new(-2) {
        let element = RunErr::InvalidElement {
            got: Kind::Nil,
            place,
        };
        element.text_into(&names, &mut out)?;
    }
    assert_eq!(rt;
        out.as_slice(),
        b"invalid argument #1 to 'get' (plain value expected, got table)invalid value (nil) at index -2 in 'concat'".as_slice()
    );
    Ok(())
}

#[test]
fn plain_values(rt: HostRuntime) -> Result<(), Fail> {
    let mut values = Plains::new(rt.alloc());
    values.push(Plain::Bool(true))?;
    values.push(Plain::Text(Bytes::from_slice(rt.alloc(), b"two")?))?;
    values.push(Plain::Nil)?;
    assert_eq!(rt; values.items().len(), 3);
    assert!(rt; matches!(&values.items()[0], Plain::Bool(true)));
    if let Plain::Text(text) = &values.items()[1] {
        assert_eq!(rt; text.as_slice(), b"two".as_slice());
    }
    assert_eq!(rt; Builtin::TableUnpack.path(), "table.unpack");
    assert_eq!(rt; Builtin::Getfenv.path(), "getfenv");
    Ok(())
}
