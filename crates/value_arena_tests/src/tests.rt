ghost use Rattle.value_arena.specs.Arenas.{HasCell, HasClosure, HasTable, HasThread, IsOwner};

use std::process::Abort;
use std::test::Fail;
use value_arena::{Arena, Thread, border_is_least, new_objects_keep, references_keep, writes_keep};
use value_model::{Builtin, CellId, ClosureId, CoStatus, Owner, TableId, ThreadId, Value};
use whole_num::Whole;

// Keys and values that are stored in turn, each with the border then.
const STORES: [(i64, Option<i64>, usize); 13] = [
    (2, Some(20), 0),
    (0, Some(5), 0),
    (1, Some(10), 2),
    (4, Some(40), 2),
    (9, None, 2),
    (3, Some(30), 4),
    (-1, Some(7), 4),
    (2, None, 1),
    (4, None, 1),
    (2, Some(21), 3),
    (4, Some(41), 4),
    (1, None, 0),
    (1, Some(11), 4),
];

fn whole(n: i64) -> Result<Whole, Fail> {
    Ok(Whole::new(n).ok_or("out of range")?)
}

#[test]
fn borders(rt: HostRuntime) -> Result<(), Fail> {
    let mut arena = Arena::new(rt.alloc());
    let id = arena.new_table(Owner::Script(63))?;
    let table = arena.table_mut(id);
    for (key, value, border) in &STORES {
        let key = Value::Num(whole(*key)?);
        match (table.place(key), *value) {
            (Some(place), None) => table.write(place, Value::Nil),
            (Some(place), Some(value)) => table.write(place, Value::Num(whole(value)?)),
            (None, Some(value)) => table.push(key, Value::Num(whole(value)?))?,
            (None, None) => {}
        }
        assert_eq!(rt; table.border(), *border);
    }
    assert_eq!(rt; table.len(), 6);
    let one = Value::Num(whole(1)?);
    assert_eq!(rt; table.place(one), Some(2));
    assert_eq!(rt; table.value(one), Value::Num(whole(11)?));
    assert_eq!(rt; table.place(Value::Nil), None);
    if table.len() > 2 {
        assert_eq!(rt; table.at(2), (one, Value::Num(whole(11)?)));
    }
    table.put_meta(Some(id));
    assert_eq!(rt; table.meta(), Some(id));
    Ok(())
}

// Marks a table.
fn mark(rt: &impl Abort, arena: &mut Arena, id: TableId)
    requires { HasTable arena.old id }
{
    assert!(rt; !arena.marked(id));
    arena.set_mark(id, true);
    assert!(rt; arena.marked(id));
}

// Freezes a table.
fn freeze(rt: &impl Abort, arena: &mut Arena, id: TableId)
    requires { HasTable arena.old id }
{
    assert!(rt; !arena.table(id).is_frozen());
    arena.freeze(id);
    assert!(rt; arena.table(id).is_frozen());
}

// Makes two tables of an owner.
fn tables(rt: &impl Abort, arena: &mut Arena, owner: Owner) -> Result<(), Fail>
    requires { IsOwner owner }
{
    let first = arena.new_table(owner)?;
    mark(rt, arena, first);
    let second = arena.new_table(owner)?;
    freeze(rt, arena, second);
    for (id, ordinal) in &[(first, 1), (second, 2)] {
        assert_eq!(rt; arena.owner(Value::Table(*id)), owner);
        assert_eq!(rt; arena.ordinal(Value::Table(*id)), *ordinal);
    }
    Ok(())
}

// Writes a variable.
fn write(rt: &impl Abort, arena: &mut Arena, id: CellId)
    requires { HasCell arena.old id }
{
    assert_eq!(rt; arena.cell(id), Value::Bool(true));
    arena.set_cell(id, Value::Bool(false));
    assert_eq!(rt; arena.cell(id), Value::Bool(false));
}

// Gives a function another table of globals.
fn move_to(rt: &impl Abort, arena: &mut Arena, id: ClosureId, env: TableId)
    requires { HasClosure arena.old id }
{
    arena.set_env(id, env);
    assert_eq!(rt; arena.closure(id).env, env);
}

// Makes a variable of an owner and functions, of which the first captures it.
fn functions(rt: &(impl Abort + AllocGlobal), arena: &mut Arena, owner: Owner) -> Result<(), Fail>
    requires { IsOwner owner }
{
    let cell = arena.new_cell(owner, Value::Bool(true))?;
    write(rt, arena, cell);
    let env = arena.new_table(owner)?;
    let mut cells = Vec::new(rt.alloc());
    cells.push(cell)?;
    let id = arena.new_closure(owner, 7, env, cells)?;
    let function = arena.closure(id);
    assert_eq!(rt; (function.proto, function.env), (7, env));
    assert_eq!(rt; function.cells.as_slice(), [cell].as_slice());
    let other = arena.new_table(owner)?;
    let id = arena.new_closure(owner, 8, env, Vec::new(rt.alloc()))?;
    move_to(rt, arena, id, other);
    assert_eq!(rt; arena.owner(Value::Closure(id)), owner);
    assert_eq!(rt; arena.ordinal(Value::Closure(id)), 2);
    Ok(())
}

// Ends a coroutine.
fn end(rt: &impl Abort, arena: &mut Arena, id: ThreadId)
    requires { HasThread arena.old id }
{
    let dead = Thread {
        body: Value::Nil,
        state: CoStatus::Dead,
        resumer: None,
        failure: Some(Value::Bool(true)),
    };
    arena.set_thread(id, dead);
    assert_eq!(rt; arena.thread(id), dead);
}

// Makes a coroutine of an owner, which runs and dies.
fn coroutines(rt: &impl Abort, arena: &mut Arena, owner: Owner) -> Result<(), Fail>
    requires { IsOwner owner }
{
    let id = arena.new_thread(owner, Value::Native(Builtin::Print))?;
    assert_eq!(rt; arena.thread(id).state, CoStatus::Suspended);
    end(rt, arena, id);
    arena.set_running(Some(id));
    assert_eq!(rt; arena.running(), Some(id));
    for value in &[Value::Wrap(id), Value::Thread(id)] {
        assert_eq!(rt; arena.owner(*value), owner);
        assert_eq!(rt; arena.ordinal(*value), 1);
    }
    Ok(())
}

#[test]
fn objects(rt: HostRuntime) -> Result<(), Fail> {
    let mut arena = Arena::new(rt.alloc());
    assert_eq!(rt; arena.objects(), 0);
    tables(&rt, &mut arena, Owner::Frozen)?;
    tables(&rt, &mut arena, Owner::Script(0))?;
    functions(&rt, &mut arena, Owner::Script(1))?;
    functions(&rt, &mut arena, Owner::Script(63))?;
    coroutines(&rt, &mut arena, Owner::Script(1))?;
    coroutines(&rt, &mut arena, Owner::Script(63))?;
    assert_eq!(rt; arena.objects(), 16);
    assert_eq!(rt; arena.owner(Value::Native(Builtin::Print)), Owner::Frozen);
    assert_eq!(rt; arena.ordinal(Value::Native(Builtin::Print)), 0);
    assert_eq!(rt; std::mem::size_of::<Value>(), 16);
    Ok(())
}

// Writes one of two variables, beside which the other one stays.
fn write_one(rt: &impl Abort, arena: &mut Arena, id: CellId, other: CellId)
    requires there { HasCell arena.old id }
    requires other { HasCell arena.old other }
{
    writes_keep();
    references_keep();
    let held = arena.cell(other);
    assert_ne!(rt; held, Value::Bool(true));
    arena.set_cell(id, Value::Bool(true));
    assert_eq!(rt; arena.cell(id), Value::Bool(true));
    assert_eq!(rt; arena.cell(other), held);
}

#[test]
fn laws(rt: HostRuntime) -> Result<(), Fail> {
    border_is_least();
    new_objects_keep();
    references_keep();
    let mut arena = Arena::new(rt.alloc());
    let id = arena.new_cell(Owner::Script(0), Value::Nil)?;
    let other = arena.new_cell(Owner::Script(1), Value::Nil)?;
    assert!(rt; id != other);
    write_one(&rt, &mut arena, id, other);
    Ok(())
}
