//! Operators on registers.

ghost use Rattle.std.specs.Prelude.{◌≡◌, true};
ghost use Rattle.op_words.specs.Chunks.{ChunkOf, ProtoOf};
ghost use Rattle.machine_world.specs.Sound.{IsMachine, GoesOn};
ghost use Rattle.machine_rows.specs.Leading.{IsNext};
ghost use Rattle.machine_steps.specs.Courses.{Executes, course_next};
ghost use Rattle.machine_steps.specs.Groups.{is_operator};
ghost use Rattle.machine_steps.specs.Ready.{IsReady, StandsAt};

use luau_tables::LibWorld;
use machine_rows::{Next, length, minus, operate};
use machine_world::{Line, Machine};
use meta_ops::ArithOp;
use op_words::Insn;

/// An operator on registers, with the result into a register.
pub(crate) fn operator(machine: &mut Machine, world: &LibWorld, line: Line) -> Next
    requires sound { IsMachine world.now machine.old.stack }
    requires goes { GoesOn machine.old.stack }
    requires ready { IsReady world.now machine.old.code machine.old.stack line.insn }
    requires group { is_operator line.insn ≡ true }
    ensures does { (chunk : ChunkOf) (p : ProtoOf) → StandsAt chunk p world.now machine.old.code machine.old.stack line.insn line.next → Executes chunk line.insn world.now machine.old.code machine.old.stack 0 (course_next world.now.names result) world.now machine.new.stack }
    ensures sound { IsMachine world.now machine.new.stack }
    ensures next { IsNext world.now machine.new.stack result }
    ensures code { machine.new.code ≡ machine.old.code }
{
    let next = line.next;
    match line.insn {
        Insn::Add { to, left, right } => {
            operate(machine, world, ArithOp::Add, to, left, right, next)
        }
        Insn::Sub { to, left, right } => {
            operate(machine, world, ArithOp::Sub, to, left, right, next)
        }
        Insn::Mul { to, left, right } => {
            operate(machine, world, ArithOp::Mul, to, left, right, next)
        }
        Insn::Div { to, left, right } => {
            operate(machine, world, ArithOp::Div, to, left, right, next)
        }
        Insn::Mod { to, left, right } => {
            operate(machine, world, ArithOp::Mod, to, left, right, next)
        }
        Insn::Pow { to, left, right } => {
            operate(machine, world, ArithOp::Pow, to, left, right, next)
        }
        Insn::Idiv { to, left, right } => {
            operate(machine, world, ArithOp::Idiv, to, left, right, next)
        }
        Insn::Minus { to, operand } => minus(machine, world, to, operand, next),
        Insn::Length { to, operand } => length(machine, world, to, operand, next),
        _ => unreachable!(),
    }
}
