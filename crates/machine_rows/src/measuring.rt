//! Lengths.

ghost use Rattle.std.specs.Prelude.{◌≡◌, ℕ, List};
ghost use Rattle.op_words.specs.Chunks.{ChunkOf};
ghost use Rattle.op_words.specs.declared.insn.Insn.TheVariants.{Length};
ghost use Rattle.machine_meaning.specs.Instructions.{row};
ghost use Rattle.machine_world.specs.Sound.{IsMachine, HasRegister, GoesOn};
ghost use Rattle.machine_rows.specs.Leading.{Does, IsNext};

use crate::next::Next;
use crate::settling::into_register;
use luau_tables::LibWorld;
use machine_world::Machine;
use meta_ops::length as length_of;

/// The length of the value of a register, into a register.
pub fn length(machine: &mut Machine, world: &LibWorld, to: u8, from: u8, next: usize) -> Next
    requires sound { IsMachine world.now machine.old.stack }
    requires goes { GoesOn machine.old.stack }
    requires has { HasRegister machine.old.stack to }
    requires from { HasRegister machine.old.stack from }
    ensures makes { (chunk : ChunkOf) (words : List ℕ) → Does chunk (row chunk words (Length to from) next) world.now machine.old.code machine.old.stack 0 result world.now machine.new.stack }
    ensures sound { IsMachine world.now machine.new.stack }
    ensures next { IsNext world.now machine.new.stack result }
    ensures code { machine.new.code ≡ machine.old.code }
{
    let a = machine.read(world, from);
    let outcome = length_of(&world.arena, &world.globals, &world.names, a);
    into_register(machine, world, outcome, to, next)
}
