//! Loops over numbers.

ghost use Rattle.std.specs.Prelude.{◌≡◌, true};
ghost use Rattle.op_words.specs.Chunks.{ChunkOf, ProtoOf};
ghost use Rattle.machine_world.specs.Sound.{IsMachine, GoesOn};
ghost use Rattle.machine_rows.specs.Leading.{IsNext};
ghost use Rattle.machine_steps.specs.Courses.{Executes, course_next, next_of};
ghost use Rattle.machine_steps.specs.Groups.{is_count};
ghost use Rattle.machine_steps.specs.Ready.{IsReady, StandsAt};

use luau_tables::LibWorld;
use machine_flow::{Failure, begin_count, next_count};
use machine_rows::Next;
use machine_world::{Line, Machine};
use op_words::Insn;
use value_model::RunErr;

/// Begins a loop over numbers, or goes on to its next turn, which was charged.
pub(crate) fn count(machine: &mut Machine, world: &LibWorld, line: Line) -> Next
    requires sound { IsMachine world.now machine.old.stack }
    requires goes { GoesOn machine.old.stack }
    requires ready { IsReady world.now machine.old.code machine.old.stack line.insn }
    requires group { is_count line.insn ≡ true }
    ensures does { (chunk : ChunkOf) (p : ProtoOf) → StandsAt chunk p world.now machine.old.code machine.old.stack line.insn line.next → Executes chunk line.insn world.now machine.old.code machine.old.stack 0 (course_next world.now.names result) world.now machine.new.stack }
    ensures sound { IsMachine world.now machine.new.stack }
    ensures next { IsNext world.now machine.new.stack result }
    ensures code { machine.new.code ≡ machine.old.code }
{
    match line.insn {
        Insn::ForNPrep { base, by } => following(begin_count(machine, world, base, by, line.next)),
        Insn::ForNLoop { base, by } => following(next_count(machine, world, base, by, line.next)),
        _ => unreachable!(),
    }
}

// What is done next, where a loop may fail.
fn following(done: Result<(), Failure>) -> Next
    ensures { result ≡ next_of done }
{
    match done {
        Ok(()) => Next::Continues,
        Err(Failure::NoNumber { bound, got }) => Next::Fails(RunErr::ForBound { bound, got }),
        Err(Failure::Stop(stop)) => Next::Stops(stop),
    }
}
