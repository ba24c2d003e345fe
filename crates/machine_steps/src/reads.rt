//! Instructions that read a value under a key.

ghost use Rattle.std.specs.Prelude.{◌≡◌, ◌+◌, true};
ghost use Rattle.op_words.specs.Chunks.{ChunkOf, ProtoOf};
ghost use Rattle.machine_world.specs.Sound.{IsMachine, GoesOn};
ghost use Rattle.machine_rows.specs.Leading.{IsNext};
ghost use Rattle.machine_steps.specs.Courses.{Executes, course_next};
ghost use Rattle.machine_steps.specs.Groups.{is_read};
ghost use Rattle.machine_steps.specs.Ready.{IsReady, StandsAt};

use crate::lines::constant;
use luau_tables::LibWorld;
use machine_rows::{Next, get_global, get_member, get_numbered, get_table, name_call};
use machine_world::{Line, Machine};
use op_words::Insn;
use resource::Steps;
use std::sync::ledger::Ledger;

/// The value under a key, into a register; and how many tables were asked, each of which is one step.
pub(crate) fn read<L: Ledger>(
    machine: &mut Machine,
    world: &LibWorld,
    line: Line,
    steps: &mut Steps<L>,
) -> (Next, u8)
    requires sound { IsMachine world.now machine.old.stack }
    requires goes { GoesOn machine.old.stack }
    requires ready { IsReady world.now machine.old.code machine.old.stack line.insn }
    requires group { is_read line.insn ≡ true }
    ensures does { (chunk : ChunkOf) (p : ProtoOf) → StandsAt chunk p world.now machine.old.code machine.old.stack line.insn line.next → Executes chunk line.insn world.now machine.old.code machine.old.stack result.1 (course_next world.now.names result.0) world.now machine.new.stack }
    ensures sound { IsMachine world.now machine.new.stack }
    ensures next { IsNext world.now machine.new.stack result.0 }
    ensures code { machine.new.code ≡ machine.old.code }
    ensures ticks { steps.new ≡ steps.old + result.1 }
{
    let next = line.next;
    match line.insn {
        Insn::GetTable { to, table, key } => get_table(machine, world, to, table, key, next, steps),
        Insn::GetTableKS {
            to,
            table,
            constant: place,
        } => {
            let name = constant(machine, world, place as usize);
            get_member(machine, world, to, table, name, next, steps)
        }
        Insn::GetTableN { to, table, index } => {
            get_numbered(machine, world, to, table, index, next, steps)
        }
        Insn::GetGlobal {
            to,
            constant: place,
        } => {
            let name = constant(machine, world, place as usize);
            get_global(machine, world, to, name, next, steps)
        }
        Insn::NameCall {
            base,
            object,
            constant: place,
        } => {
            let name = constant(machine, world, place as usize);
            name_call(machine, world, base, object, name, next, steps)
        }
        _ => unreachable!(),
    }
}
