//! Registers in a row are written.

ghost use Rattle.std.specs.Prelude.{◌≡◌, ◌+◌, List, map, length};
ghost use Rattle.std.specs.List.{AllByRecursion};
ghost use Rattle.value_model.specs.Parts.{meant};
ghost use Rattle.luau_tables.specs.Worlds.{MayUseIn};
ghost use Rattle.machine_meaning.specs.Effects.{with_generator};
ghost use Rattle.machine_meaning.specs.States as states;
ghost use Rattle.machine_world.specs.Parts.{Becomes, changed};
ghost use Rattle.machine_world.specs.Sound.{IsMachine, HasRegister};
ghost use Rattle.machine_flow.specs.Flow.{HasRange};

use luau_tables::LibWorld;
use machine_world::Machine;
use value_model::Value;

/// Writes three registers, from one on.
pub(crate) fn set_three(
    machine: &mut Machine,
    world: &LibWorld,
    base: u8,
    first: Value,
    second: Value,
    third: Value,
)
    requires sound { IsMachine world.now machine.old.stack }
    requires has { HasRegister machine.old.stack (base + 2) }
    requires first { MayUseIn world.now first }
    requires second { MayUseIn world.now second }
    requires third { MayUseIn world.now third }
    ensures written { Becomes (changed (with_generator base (meant world.now.names first) (meant world.now.names second) (meant world.now.names third))) world.now machine.old.code machine.old.stack world.now machine.new.stack }
    ensures sound { IsMachine world.now machine.new.stack }
    ensures frames { machine.new.stack.frames ≡ machine.old.stack.frames }
    ensures code { machine.new.code ≡ machine.old.code }
{
    let second_at = machine.behind(base);
    let third_at = machine.behind(second_at);
    machine.write(world, base, first);
    machine.write(world, second_at, second);
    machine.write(world, third_at, third);
}

/// Writes registers from one on.
pub(crate) fn set_all(machine: &mut Machine, world: &LibWorld, from: u8, values: &[Value])
    requires sound { IsMachine world.now machine.old.stack }
    requires has { HasRange machine.old.stack from (length values.now) }
    requires usable { AllByRecursion (MayUseIn world.now) values.now }
    ensures written { Becomes (changed (states.set_all from (map (meant world.now.names) values.now))) world.now machine.old.code machine.old.stack world.now machine.new.stack }
    ensures sound { IsMachine world.now machine.new.stack }
    ensures frames { machine.new.stack.frames ≡ machine.old.stack.frames }
    ensures code { machine.new.code ≡ machine.old.code }
{
    let mut to = from;
    for v in values {
        machine.write(world, to, *v);
        to = machine.behind(to);
    }
}
