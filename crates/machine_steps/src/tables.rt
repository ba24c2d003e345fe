//! Tables that code makes, and lists of values that it stores in them.

ghost use Rattle.std.specs.Prelude.{◌≡◌, true, IfOk, OnOk};
ghost use Rattle.op_words.specs.Chunks.{ChunkOf, ProtoOf};
ghost use Rattle.luau_tables.specs.Worlds.{Keeps};
ghost use Rattle.machine_world.specs.Sound.{IsMachine, GoesOn};
ghost use Rattle.machine_rows.specs.Leading.{IsNext};
ghost use Rattle.machine_steps.specs.Courses.{Executes, course_next};
ghost use Rattle.machine_steps.specs.Groups.{is_table};
ghost use Rattle.machine_steps.specs.Ready.{IsReady, StandsAt};

use crate::calls::begin;
use luau_tables::LibWorld;
use machine_rows::Next;
use machine_tables::{new_table, set_list};
use machine_world::{Line, Machine};
use op_words::Insn;
use resource::OutOfMemory;

/// Makes a table, or stores the values of registers in one.
pub(crate) fn table(
    machine: &mut Machine,
    world: &mut LibWorld,
    line: Line,
) -> Result<Next, OutOfMemory>
    requires sound { IsMachine world.old machine.old.stack }
    requires goes { GoesOn machine.old.stack }
    requires ready { IsReady world.old machine.old.code machine.old.stack line.insn }
    requires group { is_table line.insn ≡ true }
    ensures does { IfOk result (λ next. (chunk : ChunkOf) (p : ProtoOf) → StandsAt chunk p world.old machine.old.code machine.old.stack line.insn line.next → Executes chunk line.insn world.old machine.old.code machine.old.stack 0 (course_next world.new.names next) world.new machine.new.stack) }
    ensures sound { OnOk result (IsMachine world.new machine.new.stack) }
    ensures next { IfOk result (λ next. IsNext world.new machine.new.stack next) }
    ensures keeps { OnOk result (Keeps world.old world.new) }
    ensures code { machine.new.code ≡ machine.old.code }
{
    match line.insn {
        Insn::NewTable { to } => {
            new_table(machine, world, to, line.next)?;
            Ok(Next::Continues)
        }
        Insn::SetList {
            table,
            from,
            count,
            key,
        } => {
            let from = begin(machine, from);
            set_list(machine, world, table, from, count, key, line.next)
        }
        _ => unreachable!(),
    }
}
