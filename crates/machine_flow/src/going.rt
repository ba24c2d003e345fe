//! The code goes on.

ghost use Rattle.std.specs.Prelude.{◌≡◌};
ghost use Rattle.machine_world.specs.Parts.{Becomes, changed};
ghost use Rattle.machine_world.specs.Sound.{IsMachine, Runs, GoesOn};
ghost use Rattle.machine_flow.specs.Flow.{gone};

use luau_tables::LibWorld;
use machine_world::Machine;

/// The function that runs goes on at a place, and waits for no call.
pub(crate) fn go_on(machine: &mut Machine, world: &LibWorld, place: usize)
    requires sound { IsMachine world.now machine.old.stack }
    requires runs { Runs machine.old.stack }
    ensures gone { Becomes (changed (gone place)) world.now machine.old.code machine.old.stack world.now machine.new.stack }
    ensures sound { IsMachine world.now machine.new.stack }
    ensures goes { GoesOn machine.new.stack }
    ensures code { machine.new.code ≡ machine.old.code }
{
    machine.awake(world);
    machine.go(world, place);
}
