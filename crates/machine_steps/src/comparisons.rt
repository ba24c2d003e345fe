//! Jumps on comparisons of registers.

ghost use Rattle.std.specs.Prelude.{◌≡◌, true};
ghost use Rattle.op_words.specs.Chunks.{ChunkOf, ProtoOf};
ghost use Rattle.machine_world.specs.Sound.{IsMachine, GoesOn};
ghost use Rattle.machine_rows.specs.Leading.{IsNext};
ghost use Rattle.machine_steps.specs.Courses.{Executes, course_next};
ghost use Rattle.machine_steps.specs.Groups.{is_comparison};
ghost use Rattle.machine_steps.specs.Ready.{IsReady, StandsAt};

use crate::lines::register;
use luau_tables::LibWorld;
use machine_rows::{Next, jump_on_comparison};
use machine_world::{Line, Machine};
use meta_ops::CompareOp;
use op_words::Insn;

/// Jumps where the comparison of two registers has the wanted answer.
pub(crate) fn comparison(machine: &mut Machine, world: &LibWorld, line: Line) -> Next
    requires sound { IsMachine world.now machine.old.stack }
    requires goes { GoesOn machine.old.stack }
    requires ready { IsReady world.now machine.old.code machine.old.stack line.insn }
    requires group { is_comparison line.insn ≡ true }
    ensures does { (chunk : ChunkOf) (p : ProtoOf) → StandsAt chunk p world.now machine.old.code machine.old.stack line.insn line.next → Executes chunk line.insn world.now machine.old.code machine.old.stack 0 (course_next world.now.names result) world.now machine.new.stack }
    ensures sound { IsMachine world.now machine.new.stack }
    ensures next { IsNext world.now machine.new.stack result }
    ensures code { machine.new.code ≡ machine.old.code }
{
    let next = line.next;
    match line.insn {
        Insn::JumpIfEq { left, by, right } => {
            let other = register(machine, right);
            jump_on_comparison(machine, world, CompareOp::Eq, true, left, by, other, next)
        }
        Insn::JumpIfLe { left, by, right } => {
            let other = register(machine, right);
            jump_on_comparison(machine, world, CompareOp::Le, true, left, by, other, next)
        }
        Insn::JumpIfLt { left, by, right } => {
            let other = register(machine, right);
            jump_on_comparison(machine, world, CompareOp::Lt, true, left, by, other, next)
        }
        Insn::JumpIfNotEq { left, by, right } => {
            let other = register(machine, right);
            jump_on_comparison(machine, world, CompareOp::Eq, false, left, by, other, next)
        }
        Insn::JumpIfNotLe { left, by, right } => {
            let other = register(machine, right);
            jump_on_comparison(machine, world, CompareOp::Le, false, left, by, other, next)
        }
        Insn::JumpIfNotLt { left, by, right } => {
            let other = register(machine, right);
            jump_on_comparison(machine, world, CompareOp::Lt, false, left, by, other, next)
        }
        _ => unreachable!(),
    }
}
