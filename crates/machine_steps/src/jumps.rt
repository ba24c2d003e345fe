//! Instructions that go on elsewhere in the code, and call nothing.

ghost use Rattle.std.specs.Prelude.{◌≡◌, true};
ghost use Rattle.op_words.specs.Chunks.{ChunkOf, ProtoOf};
ghost use Rattle.machine_meaning.specs.States.{Run};
ghost use Rattle.machine_world.specs.Sound.{IsMachine, GoesOn};
ghost use Rattle.machine_steps.specs.Courses.{Executes, Leads};
ghost use Rattle.machine_steps.specs.Groups.{is_jump};
ghost use Rattle.machine_steps.specs.Ready.{IsReady, StandsAt};

use crate::lines::constant;
use luau_tables::LibWorld;
use machine_world::{Line, Machine};
use op_words::Insn;
use value_model::Value;

/// Goes on behind the instruction, or where it jumps to. The turn that it charges, if any, was charged.
pub(crate) fn jump(machine: &mut Machine, world: &LibWorld, line: Line)
    requires sound { IsMachine world.now machine.old.stack }
    requires goes { GoesOn machine.old.stack }
    requires ready { IsReady world.now machine.old.code machine.old.stack line.insn }
    requires group { is_jump line.insn ≡ true }
    ensures does { (chunk : ChunkOf) (p : ProtoOf) → StandsAt chunk p world.now machine.old.code machine.old.stack line.insn line.next → Executes chunk line.insn world.now machine.old.code machine.old.stack 0 (Leads Run) world.now machine.new.stack }
    ensures sound { IsMachine world.now machine.new.stack }
    ensures goes { GoesOn machine.new.stack }
    ensures code { machine.new.code ≡ machine.old.code }
{
    let next = line.next;
    match line.insn {
        Insn::Nop { turns: _ } => machine.pass(world, next),
        Insn::PrepVarargs { parameters: _ } => machine.pass(world, next),
        Insn::Jump { by } => machine.jump(world, i32::from(by)),
        Insn::JumpX { by } => machine.jump(world, by),
        Insn::JumpBack { by } => machine.jump_back(world, by),
        Insn::JumpIf { value, by } => machine.jump_if(world, value, by, next),
        Insn::JumpIfNot { value, by } => machine.jump_if_not(world, value, by, next),
        Insn::JumpXEqKNil { value, by, test } => {
            machine.jump_if_constant(world, value, Value::Nil, test, by, next)
        }
        Insn::JumpXEqKB { value, by, test } => {
            let wanted = Value::Bool(test % 2 == 1);
            machine.jump_if_constant(world, value, wanted, test, by, next);
        }
        Insn::JumpXEqKN { value, by, test } => {
            let v = constant(machine, world, (test % (1 << 24)) as usize);
            machine.jump_if_constant(world, value, v, test, by, next);
        }
        Insn::JumpXEqKS { value, by, test } => {
            let v = constant(machine, world, (test % (1 << 24)) as usize);
            machine.jump_if_constant(world, value, v, test, by, next);
        }
        _ => unreachable!(),
    }
}
