//! One instruction of the function that runs.

ghost use Rattle.std.specs.Prelude.{◌≡◌, ◌+◌, [], true, IfOk, OnOk};
ghost use Rattle.op_words.specs.Chunks.{ChunkOf, ProtoOf};
ghost use Rattle.machine_world.specs.Sound.{IsMachine, GoesOn};
ghost use Rattle.machine_rows.specs.Texts.{KnowsTexts};
ghost use Rattle.machine_steps.specs.Courses.{Executes, IsDone, Stays, course, is_done};
ghost use Rattle.machine_steps.specs.Groups as group;
ghost use Rattle.machine_steps.specs.Ready.{BeginsWithin, IsReady, StandsAt};

use crate::calls::call;
use crate::cells::cell;
use crate::done::Done;
use crate::groups::{is_call, is_cell, is_join, is_read, is_still, is_table, is_write};
use crate::joins::join;
use crate::reads::read;
use crate::still::still;
use crate::tables::table;
use crate::writes::write;
use luau_tables::LibWorld;
use machine_rows::Next;
use machine_world::{Line, Machine};
use resource::{OutOfMemory, Steps};
use std::alloc::Global;
use std::sync::ledger::Ledger;
use value_model::Value;

/// Does the instruction of a line; and how many tables were asked, each of which is one step. A turn that the instruction charges was
/// charged before.
pub fn execute<L: Ledger>(
    alloc: Global,
    machine: &mut Machine,
    world: &mut LibWorld,
    line: Line,
    values: &mut Vec<Value>,
    steps: &mut Steps<L>,
) -> Result<(Done, u16), OutOfMemory>
    requires sound { IsMachine world.old machine.old.stack }
    requires goes { GoesOn machine.old.stack }
    requires texts { KnowsTexts world.old machine.old.code machine.old.stack }
    requires ready { IsReady world.old machine.old.code machine.old.stack line.insn }
    requires empty { values.old.items ≡ [] }
    ensures does { IfOk result (λ done. (chunk : ChunkOf) (p : ProtoOf) → StandsAt chunk p world.old machine.old.code machine.old.stack line.insn line.next → Executes chunk line.insn world.old machine.old.code machine.old.stack done.1 (course world.new.names values.new.items done.0) world.new machine.new.stack) }
    ensures sound { OnOk result (IsMachine world.new machine.new.stack) }
    ensures done { IfOk result (λ done. IsDone world.new machine.new.stack values.new.items done.0) }
    ensures built { IfOk result (λ done. group.is_built line.insn ≡ true → BeginsWithin machine.old.stack line.insn → is_done done.0 ≡ true) }
    ensures stays { OnOk result (Stays world.old world.new) }
    ensures code { machine.new.code ≡ machine.old.code }
    ensures ticks { IfOk result (λ done. steps.new ≡ steps.old + done.1) }
{
    let insn = line.insn;
    if is_still(insn) {
        let next = still(machine, world, line);
        return Ok((Done::Next(next), 0));
    }
    if is_read(insn) {
        let (next, asked) = read(machine, world, line, steps);
        return Ok((Done::Next(next), u16::from(asked)));
    }
    if is_call(insn) {
        let done = call(machine, world, line, values)?;
        return Ok((done, 0));
    }
    if is_write(insn) {
        let (next, asked) = write(machine, world, line, steps)?;
        return Ok((Done::Next(next), u16::from(asked)));
    }
    if is_cell(insn) {
        cell(machine, world, line);
        return Ok((Done::Next(Next::Continues), 0));
    }
    if is_table(insn) {
        let next = table(machine, world, line)?;
        return Ok((Done::Next(next), 0));
    }
    if is_join(insn) {
        let next = join(alloc, machine, world, line)?;
        return Ok((Done::Next(next), 0));
    }
    Ok((Done::NotBuilt, 0))
}
