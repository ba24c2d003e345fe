//! Run errors, and raised values on their way to who catches them.

ghost use Rattle.std.specs.Prelude.{◌≡◌, false, IfOk, OnOk};
ghost use Rattle.op_words.specs.Chunks.{ChunkOf};
ghost use Rattle.value_model.specs.Parts.{meant, meant_error, IsKnown};
ghost use Rattle.luau_tables.specs.Worlds.{Keeps, MayUseIn};
ghost use Rattle.machine_meaning.specs.States as states;
ghost use Rattle.machine_world.specs.Sound.{IsMachine};
ghost use Rattle.machine_calls.specs.Charging.{is_charge};
ghost use Rattle.machine_calls.specs.Moving.{GoesTo, Leads, IsDoing, IsLed, KnowsImports};
ghost use Rattle.machine_calls.specs.declared.focus.Focus.TheVariants.{Raise};
ghost use Rattle.machine_calls.specs.Waiting.{Catches, IsCaught};

use crate::focus::{Caller, Focus, Led};
use crate::handing::let_go;
use crate::innermost::{Innermost, what_waits};
use crate::lists::{failed, only};
use call_frames::ReturnKind;
use lib_arguments::text_value;
use luau_tables::LibWorld;
use machine_world::Machine;
use resource::OutOfMemory;
use std::alloc::Global;
use value_model::{RunErr, Value};

/// The text of a run error, which is raised.
pub fn fault(
    alloc: Global,
    machine: &Machine,
    world: &mut LibWorld,
    error: RunErr,
) -> Result<Value, OutOfMemory>
    requires sound { IsMachine world.old machine.now.stack }
    requires imports { KnowsImports world.old.names machine.now.code }
    requires known { IsKnown world.old.names error }
    ensures moves { IfOk result (λ v. (chunk : ChunkOf) → GoesTo chunk world.old machine.now.code machine.now.stack (states.Fault (meant_error world.old.names error)) world.new machine.now.stack (states.Raise (meant world.new.names v))) }
    ensures sound { IsMachine world.new machine.now.stack }
    ensures imports { KnowsImports world.new.names machine.now.code }
    ensures keeps { Keeps world.old world.new }
    ensures usable { IfOk result (λ v. MayUseIn world.new v) }
{
    let mut text = Vec::new(alloc);
    error.text_into(&world.names, &mut text)?;
    let id = text_value(&mut world.names, text.as_slice())?;
    Ok(Value::Str(id))
}

/// A raised value comes to what waits innermost: a Luau function is left, `pcall` ends with `false` before the value, the handler of
/// `xpcall` is called with it, and where nothing waits the script ends with it.
pub fn raise(
    machine: &mut Machine,
    world: &mut LibWorld,
    v: Value,
    values: &mut Vec<Value>,
) -> Result<Led, OutOfMemory>
    requires sound { IsMachine world.old machine.old.stack }
    requires usable { MayUseIn world.old v }
    ensures moves { IfOk result (λ led. (chunk : ChunkOf) → Leads chunk world.old machine.old.code machine.old.stack (states.Raise (meant world.old.names v)) led world.new machine.new.stack values.new.items) }
    ensures sound { OnOk result (IsMachine world.new machine.new.stack) }
    ensures free { IfOk result (λ led. is_charge led ≡ false) }
    ensures led { IfOk result (λ led. IsLed world.new machine.new.stack led values.new.items) }
    ensures world { world.new ≡ record world.old { arena = world.new.arena } }
    ensures code { machine.new.code ≡ machine.old.code }
{
    match what_waits(machine, world) {
        Innermost::Nothing => Ok(Led::Dies(v)),
        Innermost::Function => {
            machine.leave(world);
            Ok(Led::Goes(Focus::Raise(v)))
        }
        Innermost::Protected => fail(machine, world, v, values),
        Innermost::Guarded(handler) => guard(machine, world, v, handler, values),
        Innermost::Handler => fail(machine, world, v, values),
        Innermost::Asker => {
            let_go(machine.leave_library(world));
            Ok(Led::Goes(Focus::Raise(v)))
        }
    }
}

// A protected call ends with `false` before the value.
fn fail(
    machine: &mut Machine,
    world: &mut LibWorld,
    v: Value,
    values: &mut Vec<Value>,
) -> Result<Led, OutOfMemory>
    requires sound { IsMachine world.old machine.old.stack }
    requires catches { Catches machine.old.stack }
    requires usable { MayUseIn world.old v }
    ensures moves { IfOk result (λ led. (chunk : ChunkOf) → Leads chunk world.old machine.old.code machine.old.stack (states.Raise (meant world.old.names v)) led world.new machine.new.stack values.new.items) }
    ensures sound { OnOk result (IsMachine world.new machine.new.stack) }
    ensures free { IfOk result (λ led. is_charge led ≡ false) }
    ensures led { IfOk result (λ led. IsLed world.new machine.new.stack led values.new.items) }
    ensures world { world.new ≡ record world.old { arena = world.new.arena } }
    ensures code { machine.new.code ≡ machine.old.code }
{
    failed(values, v)?;
    let_go(machine.leave_library(world));
    Ok(Led::Goes(Focus::Hand))
}

// The handler of a protected call is called with the value.
fn guard(
    machine: &mut Machine,
    world: &mut LibWorld,
    v: Value,
    handler: Value,
    values: &mut Vec<Value>,
) -> Result<Led, OutOfMemory>
    requires sound { IsMachine world.old machine.old.stack }
    requires guards { IsCaught machine.old.stack handler }
    requires usable { MayUseIn world.old v }
    ensures moves { IfOk result (λ led. (chunk : ChunkOf) → Leads chunk world.old machine.old.code machine.old.stack (states.Raise (meant world.old.names v)) led world.new machine.new.stack values.new.items) }
    ensures sound { OnOk result (IsMachine world.new machine.new.stack) }
    ensures free { IfOk result (λ led. is_charge led ≡ false) }
    ensures led { IfOk result (λ led. IsLed world.new machine.new.stack led values.new.items) }
    ensures world { world.new ≡ record world.old { arena = world.new.arena } }
    ensures code { machine.new.code ≡ machine.old.code }
{
    only(values, v)?;
    let_go(machine.leave_library(world));
    machine.await_library(world, ReturnKind::Handler)?;
    Ok(Led::Goes(Focus::Invoke {
        by: Caller::Library,
        callee: handler,
    }))
}
