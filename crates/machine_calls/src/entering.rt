//! Luau functions are entered.

ghost use Rattle.std.specs.Prelude.{◌≡◌, ◌≤◌, map, OnOk};
ghost use Rattle.std.specs.List.{AllByRecursion};
ghost use Rattle.op_words.specs.Chunks.{ChunkOf};
ghost use Rattle.value_model.specs.Parts.{meant};
ghost use Rattle.value_model.specs.Values as m;
ghost use Rattle.value_model.specs.Waits as wait;
ghost use Rattle.value_model.specs.declared.value.Value.TheVariants.{Closure};
ghost use Rattle.luau_tables.specs.Worlds.{MayUseIn};
ghost use Rattle.machine_meaning.specs.States as states;
ghost use Rattle.machine_code.specs.Code.{IsCodeOf};
ghost use Rattle.machine_world.specs.Sound.{IsMachine, GoesOn};
ghost use Rattle.machine_calls.specs.Moving.{ChargesTo, MayEnter};
ghost use Rattle.machine_calls.specs.Parameters.{given_count, extra_from};

use luau_tables::LibWorld;
use machine_world::Machine;
use resource::OutOfMemory;
use value_model::{ClosureId, Value};

/// Enters a Luau function with values as its arguments, once a turn is charged.
pub fn enter_function(
    machine: &mut Machine,
    world: &LibWorld,
    closure: ClosureId,
    values: &[Value],
) -> Result<(), OutOfMemory>
    requires sound { IsMachine world.now machine.old.stack }
    requires top { machine.old.stack.top ≡ 0 }
    requires closure { MayUseIn world.now (Closure closure) }
    requires values { AllByRecursion (MayUseIn world.now) values.now }
    requires code { MayEnter world.now.arena machine.old.code closure }
    ensures moves { OnOk result ((chunk : ChunkOf) (by : wait.Caller) → IsCodeOf chunk world.now.names machine.old.code → ChargesTo chunk world.now machine.old.code machine.old.stack (states.Invoke by (m.Closure closure.place) (map (meant world.now.names) values.now)) world.now machine.new.stack states.Run) }
    ensures sound { OnOk result (IsMachine world.now machine.new.stack) }
    ensures goes { OnOk result (GoesOn machine.new.stack) }
    ensures code { machine.new.code ≡ machine.old.code }
{
    let proto = world.arena.closure(closure).proto;
    let function = machine.code.function(proto);
    let registers = function.registers;
    let given = given_count(function.params, values.len());
    let behind = extra_from(function.vararg, given, values.len());
    machine.enter(
        world,
        closure,
        registers,
        &values[..given],
        &values[behind..],
    )
}

// How many of so many arguments are parameters.
fn given_count(params: u8, count: usize) -> usize
    ensures value { result ≡ given_count params count }
    ensures within { (result ≤ count) × (result ≤ params) }
{
    let params = usize::from(params);
    if params < count { params } else { count }
}

// Behind how many arguments the variable ones begin.
fn extra_from(vararg: bool, given: usize, count: usize) -> usize
    requires { given ≤ count }
    ensures value { result ≡ extra_from vararg given count }
    ensures within { result ≤ count }
{
    if vararg { given } else { count }
}
