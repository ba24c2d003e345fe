//! Instructions that leave the script's objects as they are.

ghost use Rattle.std.specs.Prelude.{◌≡◌, true};
ghost use Rattle.op_words.specs.Chunks.{ChunkOf, ProtoOf};
ghost use Rattle.machine_world.specs.Sound.{IsMachine, GoesOn};
ghost use Rattle.machine_rows.specs.Leading.{IsNext};
ghost use Rattle.machine_steps.specs.Courses.{Executes, course_next};
ghost use Rattle.machine_steps.specs.Groups.{is_still};
ghost use Rattle.machine_steps.specs.Ready.{IsReady, StandsAt};

use crate::comparisons::comparison;
use crate::constant_operators::constant_operator;
use crate::counts::count;
use crate::groups::{is_comparison, is_constant_operator, is_count, is_jump, is_load, is_operator};
use crate::iterations::iterate;
use crate::jumps::jump;
use crate::loads::load;
use crate::operators::operator;
use luau_tables::LibWorld;
use machine_rows::Next;
use machine_world::{Line, Machine};

/// Does an instruction that leaves the script's objects as they are. The turn that it charges, if any, was charged.
pub(crate) fn still(machine: &mut Machine, world: &LibWorld, line: Line) -> Next
    requires sound { IsMachine world.now machine.old.stack }
    requires goes { GoesOn machine.old.stack }
    requires ready { IsReady world.now machine.old.code machine.old.stack line.insn }
    requires group { is_still line.insn ≡ true }
    ensures does { (chunk : ChunkOf) (p : ProtoOf) → StandsAt chunk p world.now machine.old.code machine.old.stack line.insn line.next → Executes chunk line.insn world.now machine.old.code machine.old.stack 0 (course_next world.now.names result) world.now machine.new.stack }
    ensures sound { IsMachine world.now machine.new.stack }
    ensures next { IsNext world.now machine.new.stack result }
    ensures code { machine.new.code ≡ machine.old.code }
{
    let insn = line.insn;
    if is_load(insn) {
        load(machine, world, line);
        return Next::Continues;
    }
    if is_jump(insn) {
        jump(machine, world, line);
        return Next::Continues;
    }
    if is_operator(insn) {
        return operator(machine, world, line);
    }
    if is_comparison(insn) {
        return comparison(machine, world, line);
    }
    if is_constant_operator(insn) {
        return constant_operator(machine, world, line);
    }
    if is_count(insn) {
        return count(machine, world, line);
    }
    iterate(machine, world, line)
}
