//! Operators on a register and a constant.

ghost use Rattle.std.specs.Prelude.{◌≡◌, true};
ghost use Rattle.op_words.specs.Chunks.{ChunkOf, ProtoOf};
ghost use Rattle.machine_world.specs.Sound.{IsMachine, GoesOn};
ghost use Rattle.machine_rows.specs.Leading.{IsNext};
ghost use Rattle.machine_steps.specs.Courses.{Executes, course_next};
ghost use Rattle.machine_steps.specs.Groups.{is_constant_operator};
ghost use Rattle.machine_steps.specs.Ready.{IsReady, StandsAt};

use crate::lines::constant;
use luau_tables::LibWorld;
use machine_rows::{Next, constant_divided, constant_less, operate_with_constant};
use machine_world::{Line, Machine};
use meta_ops::ArithOp;
use op_words::Insn;

/// An operator on a register and a constant, with the result into a register.
pub(crate) fn constant_operator(machine: &mut Machine, world: &LibWorld, line: Line) -> Next
    requires sound { IsMachine world.now machine.old.stack }
    requires goes { GoesOn machine.old.stack }
    requires ready { IsReady world.now machine.old.code machine.old.stack line.insn }
    requires group { is_constant_operator line.insn ≡ true }
    ensures does { (chunk : ChunkOf) (p : ProtoOf) → StandsAt chunk p world.now machine.old.code machine.old.stack line.insn line.next → Executes chunk line.insn world.now machine.old.code machine.old.stack 0 (course_next world.now.names result) world.now machine.new.stack }
    ensures sound { IsMachine world.now machine.new.stack }
    ensures next { IsNext world.now machine.new.stack result }
    ensures code { machine.new.code ≡ machine.old.code }
{
    let next = line.next;
    match line.insn {
        Insn::AddK {
            to,
            left,
            constant: place,
        } => {
            let v = constant(machine, world, place as usize);
            operate_with_constant(machine, world, ArithOp::Add, to, left, v, next)
        }
        Insn::SubK {
            to,
            left,
            constant: place,
        } => {
            let v = constant(machine, world, place as usize);
            operate_with_constant(machine, world, ArithOp::Sub, to, left, v, next)
        }
        Insn::MulK {
            to,
            left,
            constant: place,
        } => {
            let v = constant(machine, world, place as usize);
            operate_with_constant(machine, world, ArithOp::Mul, to, left, v, next)
        }
        Insn::DivK {
            to,
            left,
            constant: place,
        } => {
            let v = constant(machine, world, place as usize);
            operate_with_constant(machine, world, ArithOp::Div, to, left, v, next)
        }
        Insn::ModK {
            to,
            left,
            constant: place,
        } => {
            let v = constant(machine, world, place as usize);
            operate_with_constant(machine, world, ArithOp::Mod, to, left, v, next)
        }
        Insn::PowK {
            to,
            left,
            constant: place,
        } => {
            let v = constant(machine, world, place as usize);
            operate_with_constant(machine, world, ArithOp::Pow, to, left, v, next)
        }
        Insn::IdivK {
            to,
            left,
            constant: place,
        } => {
            let v = constant(machine, world, place as usize);
            operate_with_constant(machine, world, ArithOp::Idiv, to, left, v, next)
        }
        Insn::SubRK {
            to,
            constant: place,
            right,
        } => {
            let v = constant(machine, world, place as usize);
            constant_less(machine, world, to, v, right, next)
        }
        Insn::DivRK {
            to,
            constant: place,
            right,
        } => {
            let v = constant(machine, world, place as usize);
            constant_divided(machine, world, to, v, right, next)
        }
        _ => unreachable!(),
    }
}
