//! Lists of values that are stored in tables.

ghost use Rattle.std.specs.Prelude.{◌≡◌, ℕ, pos, List, IfOk, OnOk};
ghost use Rattle.op_words.specs.Chunks.{ChunkOf};
ghost use Rattle.op_words.specs.declared.insn.Insn.TheVariants.{SetList};
ghost use Rattle.value_model.specs.Errors.{IndexWith};
ghost use Rattle.value_model.specs.Parts.{meant, meant_error, table_ref, IsKnown};
ghost use Rattle.value_model.specs.Values as m;
ghost use Rattle.value_model.specs.declared.kind.Kind.TheVariants as kind;
ghost use Rattle.value_model.specs.declared.value.Value.TheVariants.{Table};
ghost use Rattle.luau_tables.specs.Worlds.{Keeps, MayUseIn};
ghost use Rattle.meta_ops.specs.OnIds.{as_table};
ghost use Rattle.machine_meaning.specs.Instructions.{row};
ghost use Rattle.machine_world.specs.Sound.{IsMachine, HasRegister, HasList, GoesOn};
ghost use Rattle.machine_rows.specs.Leading.{Does, IsNext};
ghost use Rattle.machine_tables.specs.Stored.{list_stored};

use luau_tables::LibWorld;
use machine_rows::Next;
use machine_world::Machine;
use resource::OutOfMemory;
use table_lists::put_all;
use value_model::{Kind, RunErr, TableId, Value};
use whole_num::Whole;

// More values than so many want memory: the numbers of some of them would not be whole.
const MOST_VALUES: usize = 4_503_599_627_370_496;

/// Stores the values of registers in a table under the whole numbers from `key` on: one fewer than `count` of those from `from` on, or at
/// 0 all up to where the list of values ends.
pub fn set_list(
    machine: &mut Machine,
    world: &mut LibWorld,
    table: u8,
    from: u8,
    count: u8,
    key: u32,
    next: usize,
) -> Result<Next, OutOfMemory>
    requires sound { IsMachine world.old machine.old.stack }
    requires goes { GoesOn machine.old.stack }
    requires table { HasRegister machine.old.stack table }
    requires list { HasList machine.old.stack count from }
    ensures makes { IfOk result (λ done. (chunk : ChunkOf) (words : List ℕ) → Does chunk (row chunk words (SetList table from count key) next) world.old machine.old.code machine.old.stack 0 done world.new machine.new.stack) }
    ensures sound { OnOk result (IsMachine world.new machine.new.stack) }
    ensures next { IfOk result (λ done. IsNext world.new machine.new.stack done) }
    ensures keeps { OnOk result (Keeps world.old world.new) }
    ensures code { machine.new.code ≡ machine.old.code }
{
    let base = machine.read(world, table);
    match as_table(&base) {
        Some(id) => store(machine, world, id, from, count, key, next),
        None => Ok(Next::Fails(no_table(&base))),
    }
}

// Stores the values in this table.
fn store(
    machine: &mut Machine,
    world: &mut LibWorld,
    id: TableId,
    from: u8,
    count: u8,
    key: u32,
    next: usize,
) -> Result<Next, OutOfMemory>
    requires sound { IsMachine world.old machine.old.stack }
    requires goes { GoesOn machine.old.stack }
    requires table { MayUseIn world.old (Table id) }
    requires list { HasList machine.old.stack count from }
    ensures makes { IfOk result (λ done. (chunk : ChunkOf) → Does chunk (list_stored (m.Table (table_ref id)) count from key next) world.old machine.old.code machine.old.stack 0 done world.new machine.new.stack) }
    ensures sound { OnOk result (IsMachine world.new machine.new.stack) }
    ensures next { IfOk result (λ done. IsNext world.new machine.new.stack done) }
    ensures keeps { OnOk result (Keeps world.old world.new) }
    ensures code { machine.new.code ≡ machine.old.code }
{
    let values = machine.list(world, from, count);
    if values.is_empty() {
        machine.go(world, next);
        return Ok(Next::Continues);
    }
    if world.arena.table(id).is_frozen() {
        return Ok(Next::Fails(RunErr::ReadonlyTable));
    }
    if values.len() > MOST_VALUES {
        return Err(OutOfMemory);
    }
    put_all(world.arena.table_mut(id), whole(key), values)?;
    machine.go(world, next);
    Ok(Next::Continues)
}

// The table that a value is.
fn as_table(v: &Value) -> Option<TableId>
    ensures { result ≡ as_table v.now }
{
    match v {
        Value::Table(id) => Some(*id),
        _ => None,
    }
}

// The run error of a list that is stored in what is no table.
fn no_table(v: &Value) -> RunErr
    ensures means { (texts : List m.Bytes) → meant_error texts result ≡ IndexWith (m.kind_of (meant texts v.now)) kind.Number }
    ensures known { (texts : List m.Bytes) → IsKnown texts result }
{
    let base = v.kind();
    RunErr::IndexWith {
        base,
        key: Kind::Number,
    }
}

// A key, as a whole number.
fn whole(key: u32) -> Whole
    ensures { result ≡ pos key }
{
    match Whole::new(i64::from(key)) {
        Some(number) => number,
        None => unreachable!(),
    }
}
