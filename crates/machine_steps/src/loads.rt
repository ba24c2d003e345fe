//! Instructions that give a register a value that is there.

ghost use Rattle.std.specs.Prelude.{◌≡◌, true};
ghost use Rattle.op_words.specs.Chunks.{ChunkOf, ProtoOf};
ghost use Rattle.machine_meaning.specs.States.{Run};
ghost use Rattle.machine_world.specs.Sound.{IsMachine, GoesOn};
ghost use Rattle.machine_steps.specs.Courses.{Executes, Leads};
ghost use Rattle.machine_steps.specs.Groups.{is_load};
ghost use Rattle.machine_steps.specs.Ready.{IsReady, StandsAt};

use crate::lines::{constant, index};
use luau_tables::LibWorld;
use machine_world::{Line, Machine};
use op_words::Insn;

/// Gives a register a value: a constant, or what a register or an upvalue holds.
pub(crate) fn load(machine: &mut Machine, world: &LibWorld, line: Line)
    requires sound { IsMachine world.now machine.old.stack }
    requires goes { GoesOn machine.old.stack }
    requires ready { IsReady world.now machine.old.code machine.old.stack line.insn }
    requires group { is_load line.insn ≡ true }
    ensures does { (chunk : ChunkOf) (p : ProtoOf) → StandsAt chunk p world.now machine.old.code machine.old.stack line.insn line.next → Executes chunk line.insn world.now machine.old.code machine.old.stack 0 (Leads Run) world.now machine.new.stack }
    ensures sound { IsMachine world.now machine.new.stack }
    ensures goes { GoesOn machine.new.stack }
    ensures code { machine.new.code ≡ machine.old.code }
{
    match line.insn {
        Insn::LoadNil { to } => machine.load_nil(world, to, line.next),
        Insn::LoadB { to, value, skip } => machine.load_bool(world, to, value, skip),
        Insn::LoadN { to, value } => machine.load_number(world, to, value, line.next),
        Insn::LoadK {
            to,
            constant: place,
        } => {
            let v = constant(machine, world, index(place));
            machine.load_constant(world, to, v, line.next);
        }
        Insn::LoadKX {
            to,
            constant: place,
        } => {
            let v = constant(machine, world, place as usize);
            machine.load_constant(world, to, v, line.next);
        }
        Insn::Move { to, from } => machine.move_(world, to, from, line.next),
        Insn::GetUpvalue { to, upvalue } => machine.get_upvalue(world, to, upvalue, line.next),
        Insn::Not { to, operand } => machine.not(world, to, operand, line.next),
        Insn::And { to, left, right } => machine.and(world, to, left, right, line.next),
        Insn::Or { to, left, right } => machine.or(world, to, left, right, line.next),
        Insn::AndK {
            to,
            left,
            constant: place,
        } => {
            let v = constant(machine, world, place as usize);
            machine.and_constant(world, to, left, v, line.next);
        }
        Insn::OrK {
            to,
            left,
            constant: place,
        } => {
            let v = constant(machine, world, place as usize);
            machine.or_constant(world, to, left, v, line.next);
        }
        _ => unreachable!(),
    }
}
