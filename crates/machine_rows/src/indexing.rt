//! Values read under keys.

ghost use Rattle.std.specs.Prelude.{◌≡◌, ℕ, pos, ◌+◌, List, Some};
ghost use Rattle.op_words.specs.Chunks.{ChunkOf};
ghost use Rattle.op_words.specs.declared.insn.Insn.TheVariants.{GetGlobal, GetTable, GetTableKS, GetTableN, NameCall};
ghost use Rattle.value_model.specs.Parts.{meant};
ghost use Rattle.value_model.specs.Values as m;
ghost use Rattle.value_model.specs.declared.event.Reply.{Reply};
ghost use Rattle.value_model.specs.declared.value.Value.TheVariants.{Table};
ghost use Rattle.luau_tables.specs.Worlds.{MayUseIn};
ghost use Rattle.machine_meaning.specs.Constants.{name_at};
ghost use Rattle.machine_meaning.specs.Effects as effects;
ghost use Rattle.machine_meaning.specs.Instructions.{row};
ghost use Rattle.machine_meaning.specs.States.{Focus};
ghost use Rattle.machine_world.specs.Parts.{part, read_of};
ghost use Rattle.machine_world.specs.Rows.{proto_here};
ghost use Rattle.machine_world.specs.Sound.{IsMachine, HasRegister, Runs, GoesOn};
ghost use Rattle.machine_rows.specs.Leading.{Does, IsNext};
ghost use Rattle.machine_rows.specs.Operations.{environment_value};

use crate::next::Next;
use crate::settling::into_register;
use luau_tables::LibWorld;
use machine_world::Machine;
use meta_ops::index;
use resource::Steps;
use std::sync::ledger::Ledger;
use value_model::{TableId, Value};
use whole_num::Whole;

/// The environment of the function that runs.
pub fn environment(machine: &Machine, world: &LibWorld) -> TableId
    requires sound { IsMachine world.now machine.now.stack }
    requires runs { Runs machine.now.stack }
    ensures value { (x : Focus) (replies : List Reply) → meant world.now.names (Table result) ≡ read_of m.Nil environment_value (part world.now machine.now.code machine.now.stack x replies) }
    ensures usable { MayUseIn world.now (Table result) }
{
    let Some(frame) = machine.stack.frame() else {
        unreachable!()
    };
    let Some(id) = frame.closure else {
        unreachable!()
    };
    let closure = world.arena.closure(id);
    closure.env
}

// The number behind an index.
pub(crate) fn behind(index: u8) -> Whole
    ensures { result ≡ pos (index + 1) }
{
    match Whole::new(i64::from(index) + 1) {
        Some(number) => number,
        None => unreachable!(),
    }
}

// The value under a key, into a register; and how many tables were asked, each of which is one step.
#[inline(always)]
fn index_into<L: Ledger>(
    machine: &mut Machine,
    world: &LibWorld,
    base: Value,
    key: Value,
    to: u8,
    next: usize,
    steps: &mut Steps<L>,
) -> (Next, u8)
    requires sound { IsMachine world.now machine.old.stack }
    requires goes { GoesOn machine.old.stack }
    requires has { HasRegister machine.old.stack to }
    requires base { MayUseIn world.now base }
    requires key { MayUseIn world.now key }
    ensures makes { (chunk : ChunkOf) → Does chunk (effects.index (meant world.now.names base) (meant world.now.names key) to next) world.now machine.old.code machine.old.stack result.1 result.0 world.now machine.new.stack }
    ensures sound { IsMachine world.now machine.new.stack }
    ensures next { IsNext world.now machine.new.stack result.0 }
    ensures code { machine.new.code ≡ machine.old.code }
    ensures ticks { steps.new ≡ steps.old + result.1 }
{
    let (outcome, asked) = index(&world.arena, &world.globals, base, key, steps);
    let done = into_register(machine, world, outcome, to, next);
    (done, asked)
}

/// The value that a register's value has under that of another register, into a register.
#[inline(always)]
pub fn get_table<L: Ledger>(
    machine: &mut Machine,
    world: &LibWorld,
    to: u8,
    table: u8,
    key: u8,
    next: usize,
    steps: &mut Steps<L>,
) -> (Next, u8)
    requires sound { IsMachine world.now machine.old.stack }
    requires goes { GoesOn machine.old.stack }
    requires has { HasRegister machine.old.stack to }
    requires table { HasRegister machine.old.stack table }
    requires key { HasRegister machine.old.stack key }
    ensures makes { (chunk : ChunkOf) (words : List ℕ) → Does chunk (row chunk words (GetTable to table key) next) world.now machine.old.code machine.old.stack result.1 result.0 world.now machine.new.stack }
    ensures sound { IsMachine world.now machine.new.stack }
    ensures next { IsNext world.now machine.new.stack result.0 }
    ensures code { machine.new.code ≡ machine.old.code }
    ensures ticks { steps.new ≡ steps.old + result.1 }
{
    let base = machine.read(world, table);
    let under = machine.read(world, key);
    index_into(machine, world, base, under, to, next, steps)
}

/// The value that a register's value has under a string, into a register.
#[inline(always)]
pub fn get_member<L: Ledger>(
    machine: &mut Machine,
    world: &LibWorld,
    to: u8,
    table: u8,
    name: Value,
    next: usize,
    steps: &mut Steps<L>,
) -> (Next, u8)
    requires sound { IsMachine world.now machine.old.stack }
    requires goes { GoesOn machine.old.stack }
    requires has { HasRegister machine.old.stack to }
    requires table { HasRegister machine.old.stack table }
    requires usable { MayUseIn world.now name }
    ensures makes { (chunk : ChunkOf) (words : List ℕ) (k : ℕ) (bytes : m.Bytes) → name_at chunk (proto_here world.now machine.old.code machine.old.stack) k ≡ Some bytes → meant world.now.names name ≡ m.Text bytes → Does chunk (row chunk words (GetTableKS to table k) next) world.now machine.old.code machine.old.stack result.1 result.0 world.now machine.new.stack }
    ensures sound { IsMachine world.now machine.new.stack }
    ensures next { IsNext world.now machine.new.stack result.0 }
    ensures code { machine.new.code ≡ machine.old.code }
    ensures ticks { steps.new ≡ steps.old + result.1 }
{
    let base = machine.read(world, table);
    index_into(machine, world, base, name, to, next, steps)
}

/// The value that a register's value has under the number behind an index, into a register.
#[inline(always)]
pub fn get_numbered<L: Ledger>(
    machine: &mut Machine,
    world: &LibWorld,
    to: u8,
    table: u8,
    index: u8,
    next: usize,
    steps: &mut Steps<L>,
) -> (Next, u8)
    requires sound { IsMachine world.now machine.old.stack }
    requires goes { GoesOn machine.old.stack }
    requires has { HasRegister machine.old.stack to }
    requires table { HasRegister machine.old.stack table }
    ensures makes { (chunk : ChunkOf) (words : List ℕ) → Does chunk (row chunk words (GetTableN to table index) next) world.now machine.old.code machine.old.stack result.1 result.0 world.now machine.new.stack }
    ensures sound { IsMachine world.now machine.new.stack }
    ensures next { IsNext world.now machine.new.stack result.0 }
    ensures code { machine.new.code ≡ machine.old.code }
    ensures ticks { steps.new ≡ steps.old + result.1 }
{
    let base = machine.read(world, table);
    let number = behind(index);
    index_into(machine, world, base, Value::Num(number), to, next, steps)
}

/// A global, into a register.
#[inline(always)]
pub fn get_global<L: Ledger>(
    machine: &mut Machine,
    world: &LibWorld,
    to: u8,
    name: Value,
    next: usize,
    steps: &mut Steps<L>,
) -> (Next, u8)
    requires sound { IsMachine world.now machine.old.stack }
    requires goes { GoesOn machine.old.stack }
    requires has { HasRegister machine.old.stack to }
    requires usable { MayUseIn world.now name }
    ensures makes { (chunk : ChunkOf) (words : List ℕ) (k : ℕ) (bytes : m.Bytes) → name_at chunk (proto_here world.now machine.old.code machine.old.stack) k ≡ Some bytes → meant world.now.names name ≡ m.Text bytes → Does chunk (row chunk words (GetGlobal to k) next) world.now machine.old.code machine.old.stack result.1 result.0 world.now machine.new.stack }
    ensures sound { IsMachine world.now machine.new.stack }
    ensures next { IsNext world.now machine.new.stack result.0 }
    ensures code { machine.new.code ≡ machine.old.code }
    ensures ticks { steps.new ≡ steps.old + result.1 }
{
    let env = environment(machine, world);
    index_into(machine, world, Value::Table(env), name, to, next, steps)
}

/// A register's value, and in the register before it the method that it has under a name.
pub fn name_call<L: Ledger>(
    machine: &mut Machine,
    world: &LibWorld,
    base: u8,
    object: u8,
    name: Value,
    next: usize,
    steps: &mut Steps<L>,
) -> (Next, u8)
    requires sound { IsMachine world.now machine.old.stack }
    requires goes { GoesOn machine.old.stack }
    requires has { HasRegister machine.old.stack base }
    requires behind { HasRegister machine.old.stack (base + 1) }
    requires object { HasRegister machine.old.stack object }
    requires usable { MayUseIn world.now name }
    ensures makes { (chunk : ChunkOf) (words : List ℕ) (k : ℕ) (bytes : m.Bytes) → name_at chunk (proto_here world.now machine.old.code machine.old.stack) k ≡ Some bytes → meant world.now.names name ≡ m.Text bytes → Does chunk (row chunk words (NameCall base object k) next) world.now machine.old.code machine.old.stack result.1 result.0 world.now machine.new.stack }
    ensures sound { IsMachine world.now machine.new.stack }
    ensures next { IsNext world.now machine.new.stack result.0 }
    ensures code { machine.new.code ≡ machine.old.code }
    ensures ticks { steps.new ≡ steps.old + result.1 }
{
    let v = machine.read(world, object);
    let argument = machine.read(world, object);
    let above = machine.behind(base);
    machine.write(world, above, argument);
    index_into(machine, world, v, name, base, next, steps)
}
