//! Runs of `..`.

ghost use Rattle.std.specs.Prelude.{◌≡◌, ◌-◌, ◌<◌, ◌≤◌, ◌∷◌, ℕ, List, [], map, length, slice_index_or, IfOk, OnOk};
ghost use Rattle.std.specs.List.{AllByRecursion};
ghost use Rattle.op_words.specs.Chunks.{ChunkOf};
ghost use Rattle.op_words.specs.declared.insn.Insn.TheVariants.{Concat};
ghost use Rattle.value_model.specs.Parts.{meant};
ghost use Rattle.value_model.specs.declared.event.Reply.{Reply};
ghost use Rattle.value_model.specs.declared.value.Value.TheVariants.{Nil};
ghost use Rattle.luau_tables.specs.Worlds.{Keeps, MayUseIn};
ghost use Rattle.call_frames.specs.declared.frame.ReturnKind.TheVariants.{Join};
ghost use Rattle.machine_meaning.specs.Effects as effects;
ghost use Rattle.machine_meaning.specs.Instructions.{row};
ghost use Rattle.machine_meaning.specs.States.{Focus};
ghost use Rattle.machine_world.specs.Parts.{part, read_of};
ghost use Rattle.machine_world.specs.Rows.{takes};
ghost use Rattle.machine_world.specs.Sound.{IsMachine, HasRegister, GoesOn, WaitsFor};
ghost use Rattle.machine_rows.specs.Leading.{Does, IsNext};
ghost use Rattle.machine_rows.specs.Operations.{operands};
ghost use Rattle.machine_rows.specs.Texts.{KnowsTexts};

use crate::next::Next;
use crate::settling::{first, settle, wake};
use call_frames::ReturnKind;
use luau_tables::LibWorld;
use machine_world::Machine;
use meta_ops::{Outcome, concat};
use resource::OutOfMemory;
use sqlite_items::Items;
use std::alloc::Global;
use value_model::Value;

/// Joins a value with those before it, of which the last comes first, and gives the text to a register; or asks a metamethod for what
/// two of them give.
pub fn join(
    alloc: Global,
    machine: &mut Machine,
    world: &mut LibWorld,
    last: Value,
    left: &[Value],
    to: u8,
    next: usize,
) -> Result<Next, OutOfMemory>
    requires sound { IsMachine world.old machine.old.stack }
    requires goes { GoesOn machine.old.stack }
    requires has { HasRegister machine.old.stack to }
    requires texts { KnowsTexts world.old machine.old.code machine.old.stack }
    requires last { MayUseIn world.old last }
    requires left { AllByRecursion (MayUseIn world.old) left.now }
    ensures makes { IfOk result (λ done. (chunk : ChunkOf) → Does chunk (effects.join (meant world.old.names last ∷ map (meant world.old.names) left.now) to next) world.old machine.old.code machine.old.stack 0 done world.new machine.new.stack) }
    ensures sound { OnOk result (IsMachine world.new machine.new.stack) }
    ensures next { IfOk result (λ done. IsNext world.new machine.new.stack done) }
    ensures keeps { OnOk result (Keeps world.old world.new) }
    ensures code { machine.new.code ≡ machine.old.code }
{
    let mut joined = last;
    for i in 0..left.len() {
        let before = operand(left, i);
        let outcome = concat(
            alloc,
            &world.arena,
            &world.globals,
            &mut world.names,
            before,
            joined,
        )?;
        match outcome {
            Outcome::Done(v) => joined = v,
            _ => {
                let left = Items::from_slice(alloc, &left[i + 1..])?;
                let done = settle(machine, world, outcome, ReturnKind::Join { to, left, next });
                return Ok(done);
            }
        }
    }
    machine.give(world, to, joined, next);
    Ok(Next::Continues)
}

// An operand of a list.
fn operand(values: &[Value], index: usize) -> Value
    requires { index < length values.now }
    ensures { result ≡ slice_index_or values.now index Nil }
{
    values[index]
}

/// Joins the values of registers from the right, into a register.
pub fn concat_run(
    alloc: Global,
    machine: &mut Machine,
    world: &mut LibWorld,
    to: u8,
    from: u8,
    last: u8,
    next: usize,
) -> Result<Next, OutOfMemory>
    requires sound { IsMachine world.old machine.old.stack }
    requires goes { GoesOn machine.old.stack }
    requires has { HasRegister machine.old.stack to }
    requires last { HasRegister machine.old.stack last }
    requires run { from ≤ last }
    requires texts { KnowsTexts world.old machine.old.code machine.old.stack }
    ensures makes { IfOk result (λ done. (chunk : ChunkOf) (words : List ℕ) → Does chunk (row chunk words (Concat to from last) next) world.old machine.old.code machine.old.stack 0 done world.new machine.new.stack) }
    ensures sound { OnOk result (IsMachine world.new machine.new.stack) }
    ensures next { IfOk result (λ done. IsNext world.new machine.new.stack done) }
    ensures keeps { OnOk result (Keeps world.old world.new) }
    ensures code { machine.new.code ≡ machine.old.code }
{
    let mut left = Vec::new(alloc);
    read_before(machine, world, from, last, &mut left)?;
    let end = machine.read(world, last);
    join(alloc, machine, world, end, left.as_slice(), to, next)
}

// The values of the registers from one on, before another, the last of them first.
fn read_before(
    machine: &Machine,
    world: &LibWorld,
    from: u8,
    last: u8,
    values: &mut Vec<Value>,
) -> Result<(), OutOfMemory>
    requires sound { IsMachine world.now machine.now.stack }
    requires last { HasRegister machine.now.stack last }
    requires run { from ≤ last }
    requires empty { values.old.items ≡ [] }
    ensures values { OnOk result ((x : Focus) (replies : List Reply) → map (meant world.now.names) values.new.items ≡ read_of [] (operands from (last - from)) (part world.now machine.now.code machine.now.stack x replies)) }
    ensures usable { OnOk result (AllByRecursion (MayUseIn world.now) values.new.items) }
{
    let _held = values.as_slice();
    for i in 0..last - from {
        let v = machine.read(world, last - 1 - i);
        values.push(v)?;
    }
    Ok(())
}

/// Joins the first value of a call with the operands that were left.
pub fn take_joined(
    alloc: Global,
    machine: &mut Machine,
    world: &mut LibWorld,
    to: u8,
    left: &[Value],
    next: usize,
    values: &[Value],
) -> Result<Next, OutOfMemory>
    requires sound { IsMachine world.old machine.old.stack }
    requires waits { WaitsFor machine.old.stack (Join to left.now next) }
    requires has { HasRegister machine.old.stack to }
    requires texts { KnowsTexts world.old machine.old.code machine.old.stack }
    requires left { AllByRecursion (MayUseIn world.old) left.now }
    requires usable { AllByRecursion (MayUseIn world.old) values.now }
    ensures makes { IfOk result (λ done. (chunk : ChunkOf) → Does chunk (takes (map (meant world.old.names) values.now)) world.old machine.old.code machine.old.stack 0 done world.new machine.new.stack) }
    ensures sound { OnOk result (IsMachine world.new machine.new.stack) }
    ensures next { IfOk result (λ done. IsNext world.new machine.new.stack done) }
    ensures keeps { OnOk result (Keeps world.old world.new) }
    ensures code { machine.new.code ≡ machine.old.code }
{
    let last = first(values);
    wake(machine, world);
    join(alloc, machine, world, last, left, to, next)
}
