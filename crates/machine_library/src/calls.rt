//! Calls of library functions by the machine.

ghost use Rattle.std.specs.Prelude.{◌≡◌, true, [], map, IfOk, OnOk};
ghost use Rattle.std.specs.List.{AllByRecursion};
ghost use Rattle.value_model.specs.Parts.{meant};
ghost use Rattle.value_model.specs.Values as m;
ghost use Rattle.value_model.specs.Waits.{ByScript};
ghost use Rattle.luau_tables.specs.Worlds.{MayUseIn};
ghost use Rattle.machine_flow.specs.Flow.{first};
ghost use Rattle.machine_meaning.specs.States.{Invoke, Hand};
ghost use Rattle.machine_world.specs.Sound.{IsMachine, UsesStay};
ghost use Rattle.machine_library.specs.Homes.{is_library};
ghost use Rattle.machine_library.specs.Leads.{KnowsImports, LedTo, WaitsForText};

use crate::answers::{answer, go_on};
use crate::awaiting::follow;
use crate::next::Next;
use call_frames::ReturnKind;
use luau_tables::LibWorld;
use machine_world::Machine;
use resource::OutOfMemory;
use std::alloc::Global;
use value_model::{Builtin, Value};

/// Calls a function that the library answers by itself, as it is called by the script, or once its turn is charged.
///
/// The values that it gives are appended to `results`, for the function that waits for them.
pub fn call_library(
    alloc: Global,
    machine: &mut Machine,
    world: &mut LibWorld,
    builtin: Builtin,
    args: &[Value],
    results: &mut Vec<Value>,
) -> Result<Next, OutOfMemory>
    requires builtin { is_library builtin ≡ true }
    requires sound { IsMachine world.old machine.old.stack }
    requires imports { KnowsImports world.old.names machine.old.code }
    requires waits { machine.old.stack.top ≡ 0 }
    requires args { AllByRecursion (MayUseIn world.old) args.now }
    ensures leads { IfOk result (λ next. LedTo world.old world.new machine.old.code machine.old.stack machine.new.stack results.old.items results.new.items next (Invoke ByScript (m.Native builtin) (map (meant world.old.names) args.now))) }
    ensures sound { OnOk result (IsMachine world.new machine.new.stack) }
    ensures imports { KnowsImports world.new.names machine.old.code }
    ensures top { OnOk result (machine.new.stack.top ≡ 0) }
    ensures uses { UsesStay world.old world.new }
    ensures code { machine.new.code ≡ machine.old.code }
{
    let given = answer(alloc, builtin, args, world, results)?;
    follow(machine, world, given)
}

/// Gives the values of a call to the library function that asked for a text with it. It waits no longer, and goes on.
///
/// The values are taken, and those that it gives are put in their place.
pub fn resume_library(
    alloc: Global,
    machine: &mut Machine,
    world: &mut LibWorld,
    values: &mut Vec<Value>,
) -> Result<Next, OutOfMemory>
    requires sound { IsMachine world.old machine.old.stack }
    requires imports { KnowsImports world.old.names machine.old.code }
    requires waits { WaitsForText machine.old.stack }
    requires usable { AllByRecursion (MayUseIn world.old) values.old.items }
    ensures leads { IfOk result (λ next. LedTo world.old world.new machine.old.code machine.old.stack machine.new.stack [] values.new.items next (Hand (map (meant world.old.names) values.old.items))) }
    ensures sound { OnOk result (IsMachine world.new machine.new.stack) }
    ensures imports { KnowsImports world.new.names machine.old.code }
    ensures top { OnOk result (machine.new.stack.top ≡ 0) }
    ensures uses { UsesStay world.old world.new }
    ensures code { machine.new.code ≡ machine.old.code }
{
    let text = first(values.as_slice());
    values.clear();
    match machine.leave_library(world) {
        ReturnKind::Library { rest } => {
            let given = go_on(alloc, rest, text, world, values)?;
            follow(machine, world, given)
        }
        _ => unreachable!(),
    }
}

// The first value, and nil where there is none.
fn first(values: &[Value]) -> Value
    ensures { result ≡ first values.now }
{
    match values.first() {
        Some(v) => *v,
        None => Value::Nil,
    }
}
