//! Values are called.

ghost use Rattle.std.specs.Prelude.{◌≡◌, false, map, IfOk, OnOk};
ghost use Rattle.op_words.specs.Chunks.{ChunkOf};
ghost use Rattle.value_model.specs.Parts.{meant};
ghost use Rattle.value_model.specs.Values as m;
ghost use Rattle.value_model.specs.Waits.{ByScript};
ghost use Rattle.machine_meaning.specs.States as states;
ghost use Rattle.machine_code.specs.Code.{IsCodeOf};
ghost use Rattle.machine_world.specs.Sound.{IsMachine};
ghost use Rattle.machine_calls.specs.Callees.{called_as, started};
ghost use Rattle.machine_calls.specs.Charging.{charges_call, is_charge};
ghost use Rattle.machine_calls.specs.Moving.{Leads, IsDoing, IsLed, MayEnterValue, meant_caller};
ghost use Rattle.machine_calls.specs.declared.focus.Focus.TheVariants.{Hand, Invoke};
ghost use Rattle.machine_calls.specs.declared.calling.Called.TheVariants.{Other};

use crate::entering::enter_function;
use crate::focus::{Caller, Focus, Led};
use crate::lists::put_first;
use crate::protecting::{pcall, xpcall};
use luau_tables::LibWorld;
use machine_world::Machine;
use meta_ops::{Outcome, call_target};
use resource::OutOfMemory;
use value_model::{Builtin, ClosureId, Value};

/// What sort of function is called.
#[derive(Clone, Copy)]
pub enum Called {
    Luau(ClosureId),
    Native(Builtin),
    Host,
    Wrap,
    /// No function.
    Other,
}

/// Calls a value with values: a Luau function is entered, and so is another function that the library calls, each once a turn is
/// charged; `pcall` and `xpcall` begin; and what is no function calls its `__call` with itself before the others.
pub fn invoke(
    machine: &mut Machine,
    world: &LibWorld,
    by: Caller,
    callee: Value,
    values: &mut Vec<Value>,
) -> Result<Led, OutOfMemory>
    requires sound { IsMachine world.now machine.old.stack }
    requires calls { IsDoing world.now machine.old.stack (Invoke by callee) values.old.items }
    requires code { MayEnterValue world.now.arena machine.old.code callee }
    ensures moves { IfOk result (λ led. (chunk : ChunkOf) → IsCodeOf chunk world.now.names machine.old.code → Leads chunk world.now machine.old.code machine.old.stack (states.Invoke (meant_caller by) (meant world.now.names callee) (map (meant world.now.names) values.old.items)) led world.now machine.new.stack values.new.items) }
    ensures sound { OnOk result (IsMachine world.now machine.new.stack) }
    ensures charges { IfOk result (λ led. is_charge led ≡ charges_call by callee) }
    ensures led { IfOk result (λ led. IsLed world.now machine.new.stack led values.new.items) }
    ensures code { machine.new.code ≡ machine.old.code }
{
    let sort = called_as(&callee);
    match sort {
        Called::Luau(closure) => {
            enter_function(machine, world, closure, values.as_slice())?;
            Ok(Led::Charges(Focus::Run))
        }
        Called::Native(f) => match by {
            Caller::Library => Ok(started(callee)),
            Caller::Script => call_native(machine, world, f, values),
        },
        Called::Host => match by {
            Caller::Library => Ok(started(callee)),
            Caller::Script => Ok(Led::Unbuilt { by, callee }),
        },
        Called::Wrap => Ok(Led::Unbuilt { by, callee }),
        Called::Other => call_other(machine, world, by, callee, values),
    }
}

// A function that is no Luau function starts, once a turn is charged.
fn started(callee: Value) -> Led
    ensures { result ≡ started callee }
{
    Led::Charges(Focus::Invoke {
        by: Caller::Script,
        callee,
    })
}

// What sort of function a value is.
pub(crate) fn called_as(callee: &Value) -> Called
    ensures { result ≡ called_as callee.now }
{
    match callee {
        Value::Closure(closure) => Called::Luau(*closure),
        Value::Native(f) => Called::Native(*f),
        Value::Host(_) => Called::Host,
        Value::Wrap(_) => Called::Wrap,
        _ => Called::Other,
    }
}

// A library function is called by a script.
fn call_native(
    machine: &mut Machine,
    world: &LibWorld,
    f: Builtin,
    values: &mut Vec<Value>,
) -> Result<Led, OutOfMemory>
    requires sound { IsMachine world.now machine.old.stack }
    requires hands { IsDoing world.now machine.old.stack Hand values.old.items }
    ensures moves { IfOk result (λ led. (chunk : ChunkOf) → Leads chunk world.now machine.old.code machine.old.stack (states.Invoke ByScript (m.Native f) (map (meant world.now.names) values.old.items)) led world.now machine.new.stack values.new.items) }
    ensures sound { OnOk result (IsMachine world.now machine.new.stack) }
    ensures free { IfOk result (λ led. is_charge led ≡ false) }
    ensures led { IfOk result (λ led. IsLed world.now machine.new.stack led values.new.items) }
    ensures code { machine.new.code ≡ machine.old.code }
{
    match f {
        Builtin::Pcall => pcall(machine, world, values),
        Builtin::Xpcall => xpcall(machine, world, values),
        _ => Ok(Led::Library(f)),
    }
}

// What is no function is called.
fn call_other(
    machine: &Machine,
    world: &LibWorld,
    by: Caller,
    callee: Value,
    values: &mut Vec<Value>,
) -> Result<Led, OutOfMemory>
    requires sound { IsMachine world.now machine.now.stack }
    requires calls { IsDoing world.now machine.now.stack (Invoke by callee) values.old.items }
    requires other { called_as callee ≡ Other }
    ensures moves { IfOk result (λ led. (chunk : ChunkOf) → Leads chunk world.now machine.now.code machine.now.stack (states.Invoke (meant_caller by) (meant world.now.names callee) (map (meant world.now.names) values.old.items)) led world.now machine.now.stack values.new.items) }
    ensures free { IfOk result (λ led. is_charge led ≡ false) }
    ensures led { IfOk result (λ led. IsLed world.now machine.now.stack led values.new.items) }
{
    let value = callee;
    let outcome = call_target(&world.arena, &world.globals, value);
    match outcome {
        Outcome::Done(f) => Ok(Led::Goes(Focus::Invoke {
            by: Caller::Library,
            callee: f,
        })),
        Outcome::CallThis {
            callee: handler,
            args: _,
            count: _,
        } => {
            put_first(values, callee)?;
            Ok(Led::Goes(Focus::Invoke {
                by: Caller::Library,
                callee: handler,
            }))
        }
        Outcome::RunError(error) => Ok(Led::Goes(Focus::Fault(error))),
        Outcome::Stop(stop) => Ok(Led::Stops(stop)),
    }
}
