ghost use Rattle.std.specs.Prelude.{◌≡◌, ◌<◌};
ghost use Rattle.value_arena.specs.Arenas.{HasTable};

use byte_text::{Interner, StrId};
use luau_tables::{
    Globals, LibWorld, MetaErr, MetaNames, NextErr, SetErr, border, frozen, get, next,
    part_is_changed, part_is_kept, part_is_read, plain_into, set, set_meta,
};
use resource::Steps;
use std::marker::Brand;
use std::process::Abort;
use std::sync::ledger::{Blank, Ledger};
use std::test::Fail;
use value_arena::Arena;
use value_model::{Builtin, HostId, Owner, ShortOwner, TableId, Value};
use whole_num::Whole;

// A whole number as a value.
fn number(n: i64) -> Value {
    Whole::new(n).map_or(Value::Nil, Value::Num)
}

// Stores a value, and reads it back.
fn store<L: Ledger>(
    rt: &impl Abort,
    arena: &mut Arena,
    t: TableId,
    key: Value,
    value: Value,
    steps: &mut Steps<L>,
)
    requires { HasTable arena.old t }
    ensures { HasTable arena.new t }
{
    let (sought, stored) = (&key, &value);
    let done = set(arena, t, *sought, *stored, steps);
    assert_eq!(rt; done, Ok(()));
    read(rt, arena, t, *sought, stored, steps);
}

// Reads a value.
fn read<L: Ledger>(
    rt: &impl Abort,
    arena: &Arena,
    t: TableId,
    key: Value,
    value: &Value,
    steps: &mut Steps<L>,
)
    requires { HasTable arena.now t }
{
    let found = get(arena, t, key, steps);
    assert_eq!(rt; found, *value);
}

// Stores under nil, which is refused.
fn refuse<L: Ledger>(
    rt: &impl Abort,
    arena: &mut Arena,
    t: TableId,
    why: SetErr,
    steps: &mut Steps<L>,
)
    requires { HasTable arena.old t }
    ensures { HasTable arena.new t }
{
    let done = set(arena, t, Value::Nil, Value::Nil, steps);
    assert_eq!(rt; done, Err(why));
}

// Sets the table as its own metatable.
fn take_meta(rt: &impl Abort, arena: &mut Arena, t: TableId, answer: Result<(), MetaErr>)
    requires { HasTable arena.old t }
    ensures { HasTable arena.new t }
{
    let done = set_meta(arena, t, Some(t));
    assert_eq!(rt; done, answer);
}

fn freeze(rt: &impl Abort, arena: &mut Arena, t: TableId)
    requires { HasTable arena.old t }
    ensures { HasTable arena.new t }
{
    assert!(rt; !frozen(arena, t));
    arena.freeze(t);
}

// Stores `a`, `b`, then nil under `a`, `c`, and `a` again, and walks; then freezes the table.
fn stores<L: Ledger>(rt: &(impl Abort + AllocGlobal), blank: Blank) -> Result<(), Fail>
    requires name { blank.name ≡ L.name }
    requires parts { blank.parts ≡ L.parts }
    requires some { 0 < L.parts }
{
    let mut steps = Steps::<L>::new(blank);
    let mut arena = Arena::new(rt.alloc());
    let mut names = Interner::new(rt.alloc());
    let a = Value::Str(names.intern(b"a")?);
    let b = Value::Str(names.intern(b"b")?);
    let c = Value::Str(names.intern(b"c")?);
    let t = arena.new_table(Owner::Script(0))?;
    store(rt, &mut arena, t, a, number(1), &mut steps);
    store(rt, &mut arena, t, b, number(2), &mut steps);
    store(rt, &mut arena, t, a, Value::Nil, &mut steps);
    store(rt, &mut arena, t, c, number(3), &mut steps);
    store(rt, &mut arena, t, a, number(4), &mut steps);
    store(rt, &mut arena, t, number(9), Value::Nil, &mut steps);
    for (key, entry) in &[
        (Value::Nil, Ok(Some((a, number(4))))),
        (a, Ok(Some((b, number(2))))),
        (b, Ok(Some((c, number(3))))),
        (c, Ok(None)),
        (number(9), Err(NextErr::UnknownKey)),
    ] {
        assert_eq!(rt; next(&arena, t, *key), *entry);
    }
    refuse(rt, &mut arena, t, SetErr::NilKey, &mut steps);
    take_meta(rt, &mut arena, t, Ok(()));
    freeze(rt, &mut arena, t);
    refuse(rt, &mut arena, t, SetErr::Frozen, &mut steps);
    take_meta(rt, &mut arena, t, Err(MetaErr::Frozen));
    assert!(rt; frozen(&arena, t));
    Ok(())
}

// The border of { 1, 2, nil, 4 } is 2.
fn list<L: Ledger>(rt: &(impl Abort + AllocGlobal), blank: Blank) -> Result<(), Fail>
    requires name { blank.name ≡ L.name }
    requires parts { blank.parts ≡ L.parts }
    requires some { 0 < L.parts }
{
    let mut steps = Steps::<L>::new(blank);
    let mut arena = Arena::new(rt.alloc());
    let t = arena.new_table(Owner::Frozen)?;
    store(rt, &mut arena, t, number(1), number(1), &mut steps);
    store(rt, &mut arena, t, number(2), number(2), &mut steps);
    store(rt, &mut arena, t, number(4), number(4), &mut steps);
    assert_eq!(rt; border(&arena, t), 2);
    Ok(())
}

// Stores an item in one table, beside which another one stays empty.
fn store_one<L: Ledger>(
    rt: &impl Abort,
    arena: &mut Arena,
    t: TableId,
    other: TableId,
    steps: &mut Steps<L>,
)
    requires there { HasTable arena.old t }
    requires other { HasTable arena.old other }
{
    let done = set(arena, t, number(1), number(7), steps);
    assert_eq!(rt; done, Ok(()));
    assert_eq!(rt; border(arena, t), 1);
    assert_eq!(rt; border(arena, other), 0);
}

// Two scripts have tables in one arena.
fn parts<L: Ledger>(rt: &(impl Abort + AllocGlobal), blank: Blank) -> Result<(), Fail>
    requires name { blank.name ≡ L.name }
    requires parts { blank.parts ≡ L.parts }
    requires some { 0 < L.parts }
{
    part_is_read();
    part_is_changed();
    part_is_kept();
    let mut steps = Steps::<L>::new(blank);
    let mut arena = Arena::new(rt.alloc());
    let other = arena.new_table(Owner::Script(1))?;
    let t = arena.new_table(Owner::Script(0))?;
    store_one(rt, &mut arena, t, other, &mut steps);
    Ok(())
}

#[test]
fn walks(rt: HostRuntime) -> Result<(), Fail> {
    stores::<Brand>(&rt, Blank::new(1))?;
    list::<Brand>(&rt, Blank::new(1))?;
    parts::<Brand>(&rt, Blank::new(1))
}

// A world without objects.
fn no_world(rt: &impl AllocGlobal) -> LibWorld {
    let none = TableId {
        owner: ShortOwner::Frozen,
        place: 0,
    };
    LibWorld {
        arena: Arena::new(rt.alloc()),
        names: Interner::new(rt.alloc()),
        owner: Owner::Script(5),
        globals: Globals {
            table: none,
            string_meta: none,
            paths: Vec::new(rt.alloc()),
            hosts: Vec::new(rt.alloc()),
            meta: meta_names(),
        },
    }
}

// Gives it the global table and the metatable of strings, two tables more, and one host function.
fn fill(world: &mut LibWorld) -> Result<(), Fail> {
    world.globals.table = world.arena.new_table(Owner::Frozen)?;
    world.globals.string_meta = world.arena.new_table(Owner::Frozen)?;
    for path in &["math", "a.1"] {
        let id = world.arena.new_table(Owner::Frozen)?;
        let text = world.names.intern(path.as_bytes())?;
        world.globals.paths.push((id, text))?;
    }
    let text = world.names.intern(b"a.f")?;
    world.globals.hosts.push(text)?;
    Ok(())
}

fn meta_names() -> MetaNames {
    let id = StrId::PRINT;
    MetaNames {
        index: id,
        newindex: id,
        call: id,
        eq: id,
        lt: id,
        le: id,
        add: id,
        sub: id,
        mul: id,
        div: id,
        idiv: id,
        mod_: id,
        pow: id,
        unm: id,
        concat: id,
        len: id,
        iter: id,
        tostring: id,
        metatable: id,
    }
}

// Makes objects of a script, and shows values of each kind.
fn show(rt: &(impl Abort + AllocGlobal), world: &mut LibWorld) -> Result<(), Fail> {
    let owner = Owner::Script(5);
    let env = world.arena.new_table(owner)?;
    let env_meta = world.arena.new_table(owner)?;
    let first = world.arena.new_table(owner)?;
    let none = Vec::new(rt.alloc());
    let main = world.arena.new_closure(owner, 0, env, none)?;
    let none = Vec::new(rt.alloc());
    let function = world.arena.new_closure(owner, 0, env, none)?;
    let _main = world.arena.new_thread(owner, Value::Nil)?;
    let thread = world.arena.new_thread(owner, Value::Nil)?;
    let math = TableId {
        place: 2,
        ..world.globals.table
    };
    let host = TableId {
        place: 3,
        ..world.globals.table
    };
    for (value, text) in &[
        (Value::Nil, "nil"),
        (Value::Bool(true), "true"),
        (Value::Bool(false), "false"),
        (number(-12), "-12"),
        (Value::Str(StrId::PRINT), "print"),
        (Value::Table(world.globals.table), "table: global"),
        (
            Value::Table(world.globals.string_meta),
            "table: string metatable",
        ),
        (Value::Table(math), "table: math"),
        (Value::Table(host), "table: a.1"),
        (Value::Table(env), "table: environment"),
        (Value::Table(env_meta), "table: environment metatable"),
        (Value::Table(first), "table: 1"),
        (Value::Closure(main), "function: 0"),
        (Value::Closure(function), "function: 1"),
        (Value::Native(Builtin::MathMax), "function: math.max"),
        (
            Value::Native(Builtin::TableUnpack),
            "function: table.unpack",
        ),
        (
            Value::Native(Builtin::IpairsIterator),
            "function: ipairs iterator",
        ),
        (Value::Host(HostId(0)), "function: a.f"),
        (Value::Wrap(thread), "function: wrap 1"),
        (Value::Thread(thread), "thread: 1"),
    ] {
        let mut out = Vec::new(rt.alloc());
        plain_into(&world.arena, &world.names, &world.globals, *value, &mut out)?;
        assert_eq!(rt; out.as_slice(), text.as_bytes());
    }
    Ok(())
}

#[test]
fn texts(rt: HostRuntime) -> Result<(), Fail> {
    let mut world = no_world(&rt);
    fill(&mut world)?;
    show(&rt, &mut world)
}
