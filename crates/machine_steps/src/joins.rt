//! Runs of `..`.

ghost use Rattle.std.specs.Prelude.{◌≡◌, true, IfOk, OnOk};
ghost use Rattle.op_words.specs.Chunks.{ChunkOf, ProtoOf};
ghost use Rattle.luau_tables.specs.Worlds.{Keeps};
ghost use Rattle.machine_world.specs.Sound.{IsMachine, GoesOn};
ghost use Rattle.machine_rows.specs.Leading.{IsNext};
ghost use Rattle.machine_rows.specs.Texts.{KnowsTexts};
ghost use Rattle.machine_steps.specs.Courses.{Executes, course_next};
ghost use Rattle.machine_steps.specs.Groups.{is_join};
ghost use Rattle.machine_steps.specs.Ready.{IsReady, StandsAt};

use luau_tables::LibWorld;
use machine_rows::{Next, concat_run};
use machine_world::{Line, Machine};
use op_words::Insn;
use resource::OutOfMemory;
use std::alloc::Global;

/// Joins the values of a run of registers.
pub(crate) fn join(
    alloc: Global,
    machine: &mut Machine,
    world: &mut LibWorld,
    line: Line,
) -> Result<Next, OutOfMemory>
    requires sound { IsMachine world.old machine.old.stack }
    requires goes { GoesOn machine.old.stack }
    requires texts { KnowsTexts world.old machine.old.code machine.old.stack }
    requires ready { IsReady world.old machine.old.code machine.old.stack line.insn }
    requires group { is_join line.insn ≡ true }
    ensures does { IfOk result (λ next. (chunk : ChunkOf) (p : ProtoOf) → StandsAt chunk p world.old machine.old.code machine.old.stack line.insn line.next → Executes chunk line.insn world.old machine.old.code machine.old.stack 0 (course_next world.new.names next) world.new machine.new.stack) }
    ensures sound { OnOk result (IsMachine world.new machine.new.stack) }
    ensures next { IfOk result (λ next. IsNext world.new machine.new.stack next) }
    ensures keeps { OnOk result (Keeps world.old world.new) }
    ensures code { machine.new.code ≡ machine.old.code }
{
    match line.insn {
        Insn::Concat { to, first, last } => {
            concat_run(alloc, machine, world, to, first, last, line.next)
        }
        _ => unreachable!(),
    }
}
