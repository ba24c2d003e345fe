//! Instructions that write an upvalue, or close cells.

ghost use Rattle.std.specs.Prelude.{◌≡◌, ℕ, List, true};
ghost use Rattle.op_words.specs.Chunks.{ChunkOf, ProtoOf};
ghost use Rattle.op_words.specs.declared.insn.Insn.TheVariants.{CloseUpvalues};
ghost use Rattle.machine_meaning.specs.Instructions.{row};
ghost use Rattle.machine_meaning.specs.States.{Run};
ghost use Rattle.machine_world.specs.Rows.{Makes};
ghost use Rattle.machine_world.specs.Sound.{IsMachine, GoesOn};
ghost use Rattle.machine_steps.specs.Courses.{Executes, Leads, Stays};
ghost use Rattle.machine_steps.specs.Groups.{is_cell};
ghost use Rattle.machine_steps.specs.Ready.{IsReady, StandsAt};

use luau_tables::LibWorld;
use machine_world::{Line, Machine};
use op_words::Insn;

/// Writes an upvalue, or closes the open cells of registers.
pub(crate) fn cell(machine: &mut Machine, world: &mut LibWorld, line: Line)
    requires sound { IsMachine world.old machine.old.stack }
    requires goes { GoesOn machine.old.stack }
    requires ready { IsReady world.old machine.old.code machine.old.stack line.insn }
    requires group { is_cell line.insn ≡ true }
    ensures does { (chunk : ChunkOf) (p : ProtoOf) → StandsAt chunk p world.old machine.old.code machine.old.stack line.insn line.next → Executes chunk line.insn world.old machine.old.code machine.old.stack 0 (Leads Run) world.new machine.new.stack }
    ensures sound { IsMachine world.new machine.new.stack }
    ensures goes { GoesOn machine.new.stack }
    ensures stays { Stays world.old world.new }
    ensures code { machine.new.code ≡ machine.old.code }
{
    match line.insn {
        Insn::SetUpvalue { from, upvalue } => machine.set_upvalue(world, from, upvalue, line.next),
        Insn::CloseUpvalues { from } => close(machine, world, from, line.next),
        _ => unreachable!(),
    }
}

// Closes the open cells of the registers from one on, of which there may be none.
fn close(machine: &mut Machine, world: &mut LibWorld, from: u8, next: usize)
    requires sound { IsMachine world.old machine.old.stack }
    requires goes { GoesOn machine.old.stack }
    ensures makes { (chunk : ChunkOf) (words : List ℕ) → Makes (row chunk words (CloseUpvalues from) next) world.old machine.old.code machine.old.stack world.new machine.new.stack }
    ensures sound { IsMachine world.new machine.new.stack }
    ensures goes { GoesOn machine.new.stack }
    ensures stays { Stays world.old world.new }
    ensures code { machine.new.code ≡ machine.old.code }
{
    machine.stack.lies();
    let Some(frame) = machine.stack.frame() else {
        unreachable!()
    };
    let registers = frame.registers;
    if from < registers {
        machine.close_upvalues(world, from, next);
    } else {
        machine.go(world, next);
    }
}
