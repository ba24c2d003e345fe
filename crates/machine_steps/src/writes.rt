//! Instructions that store a value under a key.

ghost use Rattle.std.specs.Prelude.{◌≡◌, ◌+◌, true, IfOk, OnOk};
ghost use Rattle.op_words.specs.Chunks.{ChunkOf, ProtoOf};
ghost use Rattle.luau_tables.specs.Worlds.{Keeps};
ghost use Rattle.machine_world.specs.Sound.{IsMachine, GoesOn};
ghost use Rattle.machine_rows.specs.Leading.{IsNext};
ghost use Rattle.machine_steps.specs.Courses.{Executes, course_next};
ghost use Rattle.machine_steps.specs.Groups.{is_write};
ghost use Rattle.machine_steps.specs.Ready.{IsReady, StandsAt};

use crate::lines::constant;
use luau_tables::LibWorld;
use machine_rows::{Next, set_global, set_member, set_numbered, set_table};
use machine_world::{Line, Machine};
use op_words::Insn;
use resource::{OutOfMemory, Steps};
use std::sync::ledger::Ledger;

/// Stores a register's value under a key; and how many tables were asked, each of which is one step.
pub(crate) fn write<L: Ledger>(
    machine: &mut Machine,
    world: &mut LibWorld,
    line: Line,
    steps: &mut Steps<L>,
) -> Result<(Next, u8), OutOfMemory>
    requires sound { IsMachine world.old machine.old.stack }
    requires goes { GoesOn machine.old.stack }
    requires ready { IsReady world.old machine.old.code machine.old.stack line.insn }
    requires group { is_write line.insn ≡ true }
    ensures does { IfOk result (λ done. (chunk : ChunkOf) (p : ProtoOf) → StandsAt chunk p world.old machine.old.code machine.old.stack line.insn line.next → Executes chunk line.insn world.old machine.old.code machine.old.stack done.1 (course_next world.new.names done.0) world.new machine.new.stack) }
    ensures sound { OnOk result (IsMachine world.new machine.new.stack) }
    ensures next { IfOk result (λ done. IsNext world.new machine.new.stack done.0) }
    ensures keeps { OnOk result (Keeps world.old world.new) }
    ensures code { machine.new.code ≡ machine.old.code }
    ensures ticks { IfOk result (λ done. steps.new ≡ steps.old + done.1) }
{
    let next = line.next;
    match line.insn {
        Insn::SetTable { from, table, key } => {
            set_table(machine, world, from, table, key, next, steps)
        }
        Insn::SetTableKS {
            from,
            table,
            constant: place,
        } => {
            let name = constant(machine, world, place as usize);
            set_member(machine, world, from, table, name, next, steps)
        }
        Insn::SetTableN { from, table, index } => {
            set_numbered(machine, world, from, table, index, next, steps)
        }
        Insn::SetGlobal {
            from,
            constant: place,
        } => {
            let name = constant(machine, world, place as usize);
            set_global(machine, world, from, name, next, steps)
        }
        _ => unreachable!(),
    }
}
