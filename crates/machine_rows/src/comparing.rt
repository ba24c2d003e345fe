//! Comparisons.

ghost use Rattle.std.specs.Prelude.{◌≡◌, ℕ, List};
ghost use Rattle.op_words.specs.Chunks.{ChunkOf};
ghost use Rattle.machine_meaning.specs.Instructions.{row};
ghost use Rattle.machine_world.specs.Rows.{place_here};
ghost use Rattle.machine_world.specs.Sound.{IsMachine, HasRegister, GoesOn, Ahead};
ghost use Rattle.machine_rows.specs.Leading.{Does, IsNext};
ghost use Rattle.machine_rows.specs.Operations.{jumps_on};

use crate::next::Next;
use crate::settling::jump_where;
use luau_tables::LibWorld;
use machine_world::Machine;
use meta_ops::{CompareOp, compare};

/// Jumps where the comparison of two registers has the wanted answer.
#[inline(always)]
pub fn jump_on_comparison(
    machine: &mut Machine,
    world: &LibWorld,
    op: CompareOp,
    wanted: bool,
    left: u8,
    by: i16,
    right: u8,
    next: usize,
) -> Next
    requires sound { IsMachine world.now machine.old.stack }
    requires goes { GoesOn machine.old.stack }
    requires left { HasRegister machine.old.stack left }
    requires right { HasRegister machine.old.stack right }
    requires ahead { Ahead (place_here machine.old.stack) by }
    ensures makes { (chunk : ChunkOf) (words : List ℕ) → Does chunk (row chunk words (jumps_on op wanted left by right) next) world.now machine.old.code machine.old.stack 0 result world.now machine.new.stack }
    ensures sound { IsMachine world.now machine.new.stack }
    ensures next { IsNext world.now machine.new.stack result }
    ensures code { machine.new.code ≡ machine.old.code }
{
    let a = machine.read(world, left);
    let b = machine.read(world, right);
    let outcome = compare(&world.arena, &world.globals, &world.names, op, a, b);
    jump_where(machine, world, outcome, wanted, by, next)
}
