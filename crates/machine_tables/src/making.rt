//! New tables.

ghost use Rattle.std.specs.Prelude.{◌≡◌, ℕ, List, OnOk};
ghost use Rattle.op_words.specs.Chunks.{ChunkOf};
ghost use Rattle.op_words.specs.declared.insn.Insn.TheVariants.{NewTable};
ghost use Rattle.luau_tables.specs.Worlds.{Keeps};
ghost use Rattle.machine_meaning.specs.Instructions.{row};
ghost use Rattle.machine_world.specs.Rows.{Makes};
ghost use Rattle.machine_world.specs.Sound.{IsMachine, HasRegister, GoesOn};

use luau_tables::LibWorld;
use machine_world::Machine;
use resource::OutOfMemory;
use value_model::Value;

/// A new table into a register.
pub fn new_table(
    machine: &mut Machine,
    world: &mut LibWorld,
    to: u8,
    next: usize,
) -> Result<(), OutOfMemory>
    requires sound { IsMachine world.old machine.old.stack }
    requires goes { GoesOn machine.old.stack }
    requires has { HasRegister machine.old.stack to }
    ensures makes { OnOk result ((chunk : ChunkOf) (words : List ℕ) → Makes (row chunk words (NewTable to) next) world.old machine.old.code machine.old.stack world.new machine.new.stack) }
    ensures sound { OnOk result (IsMachine world.new machine.new.stack) }
    ensures goes { OnOk result (GoesOn machine.new.stack) }
    ensures keeps { OnOk result (Keeps world.old world.new) }
    ensures code { machine.new.code ≡ machine.old.code }
{
    let id = world.arena.new_table(world.owner)?;
    machine.give(world, to, Value::Table(id), next);
    Ok(())
}
