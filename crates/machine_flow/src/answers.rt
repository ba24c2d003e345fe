//! Values of the call that an instruction waits for.

ghost use Rattle.std.specs.Prelude.{◌≡◌, List, map};
ghost use Rattle.std.specs.List.{AllByRecursion};
ghost use Rattle.value_model.specs.Parts.{meant};
ghost use Rattle.luau_tables.specs.Worlds.{MayUseIn};
ghost use Rattle.call_frames.specs.declared.frame.ReturnKind.TheVariants.{Answer, Store, Jump};
ghost use Rattle.machine_world.specs.Rows.{Makes, takes, place_here};
ghost use Rattle.machine_world.specs.Sound.{IsMachine, GoesOn, HasRegister, WaitsFor, Ahead};
ghost use Rattle.machine_flow.specs.Flow.{first};

use crate::going::go_on;
use luau_tables::LibWorld;
use machine_world::{Machine, agrees};
use value_model::{Value, truthy};

/// Takes the first value of a call into a register.
pub fn take_answer(machine: &mut Machine, world: &LibWorld, to: u8, next: usize, values: &[Value])
    requires sound { IsMachine world.now machine.old.stack }
    requires waits { WaitsFor machine.old.stack (Answer to next) }
    requires has { HasRegister machine.old.stack to }
    requires usable { AllByRecursion (MayUseIn world.now) values.now }
    ensures makes { Makes (takes (map (meant world.now.names) values.now)) world.now machine.old.code machine.old.stack world.now machine.new.stack }
    ensures sound { IsMachine world.now machine.new.stack }
    ensures goes { GoesOn machine.new.stack }
    ensures code { machine.new.code ≡ machine.old.code }
{
    let v = first(values);
    machine.write(world, to, v);
    go_on(machine, world, next);
}

/// Takes no value of a call: one was stored.
pub fn take_nothing(machine: &mut Machine, world: &LibWorld, next: usize, values: &[Value])
    requires sound { IsMachine world.now machine.old.stack }
    requires waits { WaitsFor machine.old.stack (Store next) }
    ensures makes { Makes (takes (map (meant world.now.names) values.now)) world.now machine.old.code machine.old.stack world.now machine.new.stack }
    ensures sound { IsMachine world.now machine.new.stack }
    ensures goes { GoesOn machine.new.stack }
    ensures code { machine.new.code ≡ machine.old.code }
{
    let _count = values.len();
    go_on(machine, world, next);
}

/// Takes the first value of a call as the answer of a comparison, and jumps where it is the wanted one.
pub fn take_test(
    machine: &mut Machine,
    world: &LibWorld,
    wanted: bool,
    by: i16,
    next: usize,
    values: &[Value],
)
    requires sound { IsMachine world.now machine.old.stack }
    requires waits { WaitsFor machine.old.stack (Jump by wanted next) }
    requires ahead { Ahead (place_here machine.old.stack) by }
    ensures makes { Makes (takes (map (meant world.now.names) values.now)) world.now machine.old.code machine.old.stack world.now machine.new.stack }
    ensures sound { IsMachine world.now machine.new.stack }
    ensures goes { GoesOn machine.new.stack }
    ensures code { machine.new.code ≡ machine.old.code }
{
    let holds = agrees(wanted, truthy(first(values)));
    machine.awake(world);
    machine.jump_where(world, holds, by, next);
}

// The first value, and nil where there is none.
pub(crate) fn first(values: &[Value]) -> Value
    ensures { result ≡ first values.now }
{
    match values.first() {
        Some(v) => *v,
        None => Value::Nil,
    }
}
