//! Values stored under keys.

ghost use Rattle.std.specs.Prelude.{◌≡◌, ℕ, ◌+◌, List, Some, IfOk, OnOk};
ghost use Rattle.op_words.specs.Chunks.{ChunkOf};
ghost use Rattle.op_words.specs.declared.insn.Insn.TheVariants.{SetGlobal, SetTable, SetTableKS, SetTableN};
ghost use Rattle.value_model.specs.Parts.{meant};
ghost use Rattle.value_model.specs.Values as m;
ghost use Rattle.luau_tables.specs.Worlds.{Keeps, MayUseIn};
ghost use Rattle.machine_meaning.specs.Constants.{name_at};
ghost use Rattle.machine_meaning.specs.Effects as effects;
ghost use Rattle.machine_meaning.specs.Instructions.{row};
ghost use Rattle.machine_world.specs.Rows.{proto_here};
ghost use Rattle.machine_world.specs.Sound.{IsMachine, HasRegister, GoesOn};
ghost use Rattle.machine_rows.specs.Leading.{Does, IsNext};

use crate::indexing::{behind, environment};
use crate::next::Next;
use crate::settling::stored;
use luau_tables::LibWorld;
use machine_world::Machine;
use meta_ops::newindex;
use resource::{OutOfMemory, Steps};
use std::sync::ledger::Ledger;
use value_model::Value;

// A value is stored under a key; and how many tables were asked, each of which is one step.
#[inline(always)]
fn store<L: Ledger>(
    machine: &mut Machine,
    world: &mut LibWorld,
    base: Value,
    key: Value,
    v: Value,
    next: usize,
    steps: &mut Steps<L>,
) -> Result<(Next, u8), OutOfMemory>
    requires sound { IsMachine world.old machine.old.stack }
    requires goes { GoesOn machine.old.stack }
    requires base { MayUseIn world.old base }
    requires key { MayUseIn world.old key }
    requires v { MayUseIn world.old v }
    ensures makes { IfOk result (λ done. (chunk : ChunkOf) → Does chunk (effects.newindex (meant world.old.names base) (meant world.old.names key) (meant world.old.names v) next) world.old machine.old.code machine.old.stack done.1 done.0 world.new machine.new.stack) }
    ensures sound { OnOk result (IsMachine world.new machine.new.stack) }
    ensures next { IfOk result (λ done. IsNext world.new machine.new.stack done.0) }
    ensures keeps { OnOk result (Keeps world.old world.new) }
    ensures code { machine.new.code ≡ machine.old.code }
    ensures ticks { IfOk result (λ done. steps.new ≡ steps.old + done.1) }
{
    let (outcome, asked) = newindex(&mut world.arena, &world.globals, base, key, v, steps)?;
    let done = stored(machine, world, outcome, next);
    Ok((done, asked))
}

/// A register's value, into what another's has under that of a third.
pub fn set_table<L: Ledger>(
    machine: &mut Machine,
    world: &mut LibWorld,
    from: u8,
    table: u8,
    key: u8,
    next: usize,
    steps: &mut Steps<L>,
) -> Result<(Next, u8), OutOfMemory>
    requires sound { IsMachine world.old machine.old.stack }
    requires goes { GoesOn machine.old.stack }
    requires from { HasRegister machine.old.stack from }
    requires table { HasRegister machine.old.stack table }
    requires key { HasRegister machine.old.stack key }
    ensures makes { IfOk result (λ done. (chunk : ChunkOf) (words : List ℕ) → Does chunk (row chunk words (SetTable from table key) next) world.old machine.old.code machine.old.stack done.1 done.0 world.new machine.new.stack) }
    ensures sound { OnOk result (IsMachine world.new machine.new.stack) }
    ensures next { IfOk result (λ done. IsNext world.new machine.new.stack done.0) }
    ensures keeps { OnOk result (Keeps world.old world.new) }
    ensures code { machine.new.code ≡ machine.old.code }
    ensures ticks { IfOk result (λ done. steps.new ≡ steps.old + done.1) }
{
    let base = machine.read(world, table);
    let under = machine.read(world, key);
    let v = machine.read(world, from);
    store(machine, world, base, under, v, next, steps)
}

/// A register's value, into what another's has under a string.
pub fn set_member<L: Ledger>(
    machine: &mut Machine,
    world: &mut LibWorld,
    from: u8,
    table: u8,
    name: Value,
    next: usize,
    steps: &mut Steps<L>,
) -> Result<(Next, u8), OutOfMemory>
    requires sound { IsMachine world.old machine.old.stack }
    requires goes { GoesOn machine.old.stack }
    requires from { HasRegister machine.old.stack from }
    requires table { HasRegister machine.old.stack table }
    requires usable { MayUseIn world.old name }
    ensures makes { IfOk result (λ done. (chunk : ChunkOf) (words : List ℕ) (k : ℕ) (bytes : m.Bytes) → name_at chunk (proto_here world.old machine.old.code machine.old.stack) k ≡ Some bytes → meant world.old.names name ≡ m.Text bytes → Does chunk (row chunk words (SetTableKS from table k) next) world.old machine.old.code machine.old.stack done.1 done.0 world.new machine.new.stack) }
    ensures sound { OnOk result (IsMachine world.new machine.new.stack) }
    ensures next { IfOk result (λ done. IsNext world.new machine.new.stack done.0) }
    ensures keeps { OnOk result (Keeps world.old world.new) }
    ensures code { machine.new.code ≡ machine.old.code }
    ensures ticks { IfOk result (λ done. steps.new ≡ steps.old + done.1) }
{
    let base = machine.read(world, table);
    let v = machine.read(world, from);
    store(machine, world, base, name, v, next, steps)
}

/// A register's value, into what another's has under the number behind an index.
pub fn set_numbered<L: Ledger>(
    machine: &mut Machine,
    world: &mut LibWorld,
    from: u8,
    table: u8,
    index: u8,
    next: usize,
    steps: &mut Steps<L>,
) -> Result<(Next, u8), OutOfMemory>
    requires sound { IsMachine world.old machine.old.stack }
    requires goes { GoesOn machine.old.stack }
    requires from { HasRegister machine.old.stack from }
    requires table { HasRegister machine.old.stack table }
    ensures makes { IfOk result (λ done. (chunk : ChunkOf) (words : List ℕ) → Does chunk (row chunk words (SetTableN from table index) next) world.old machine.old.code machine.old.stack done.1 done.0 world.new machine.new.stack) }
    ensures sound { OnOk result (IsMachine world.new machine.new.stack) }
    ensures next { IfOk result (λ done. IsNext world.new machine.new.stack done.0) }
    ensures keeps { OnOk result (Keeps world.old world.new) }
    ensures code { machine.new.code ≡ machine.old.code }
    ensures ticks { IfOk result (λ done. steps.new ≡ steps.old + done.1) }
{
    let base = machine.read(world, table);
    let v = machine.read(world, from);
    let number = behind(index);
    store(machine, world, base, Value::Num(number), v, next, steps)
}

/// A register's value, into a global.
pub fn set_global<L: Ledger>(
    machine: &mut Machine,
    world: &mut LibWorld,
    from: u8,
    name: Value,
    next: usize,
    steps: &mut Steps<L>,
) -> Result<(Next, u8), OutOfMemory>
    requires sound { IsMachine world.old machine.old.stack }
    requires goes { GoesOn machine.old.stack }
    requires from { HasRegister machine.old.stack from }
    requires usable { MayUseIn world.old name }
    ensures makes { IfOk result (λ done. (chunk : ChunkOf) (words : List ℕ) (k : ℕ) (bytes : m.Bytes) → name_at chunk (proto_here world.old machine.old.code machine.old.stack) k ≡ Some bytes → meant world.old.names name ≡ m.Text bytes → Does chunk (row chunk words (SetGlobal from k) next) world.old machine.old.code machine.old.stack done.1 done.0 world.new machine.new.stack) }
    ensures sound { OnOk result (IsMachine world.new machine.new.stack) }
    ensures next { IfOk result (λ done. IsNext world.new machine.new.stack done.0) }
    ensures keeps { OnOk result (Keeps world.old world.new) }
    ensures code { machine.new.code ≡ machine.old.code }
    ensures ticks { IfOk result (λ done. steps.new ≡ steps.old + done.1) }
{
    let env = environment(machine, world);
    let v = machine.read(world, from);
    store(machine, world, Value::Table(env), name, v, next, steps)
}
