//! The beginning of generic loops.

ghost use Rattle.std.specs.Prelude.{◌≡◌, true};
ghost use Rattle.op_words.specs.Chunks.{ChunkOf, ProtoOf};
ghost use Rattle.machine_world.specs.Sound.{IsMachine, GoesOn};
ghost use Rattle.machine_rows.specs.Leading.{IsNext};
ghost use Rattle.machine_steps.specs.Courses.{Executes, course_next};
ghost use Rattle.machine_steps.specs.Groups.{is_iteration};
ghost use Rattle.machine_steps.specs.Ready.{IsReady, StandsAt};

use luau_tables::LibWorld;
use machine_loops::begin_loop;
use machine_rows::Next;
use machine_world::{Line, Machine};
use op_words::Insn;

/// Begins a generic loop.
pub(crate) fn iterate(machine: &mut Machine, world: &LibWorld, line: Line) -> Next
    requires sound { IsMachine world.now machine.old.stack }
    requires goes { GoesOn machine.old.stack }
    requires ready { IsReady world.now machine.old.code machine.old.stack line.insn }
    requires group { is_iteration line.insn ≡ true }
    ensures does { (chunk : ChunkOf) (p : ProtoOf) → StandsAt chunk p world.now machine.old.code machine.old.stack line.insn line.next → Executes chunk line.insn world.now machine.old.code machine.old.stack 0 (course_next world.now.names result) world.now machine.new.stack }
    ensures sound { IsMachine world.now machine.new.stack }
    ensures next { IsNext world.now machine.new.stack result }
    ensures code { machine.new.code ≡ machine.old.code }
{
    match line.insn {
        Insn::ForGPrep { base, by } => begin_loop(machine, world, base, by, line.next),
        _ => unreachable!(),
    }
}
