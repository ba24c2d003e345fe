//! Protected calls begin.

ghost use Rattle.std.specs.Prelude.{◌≡◌, ◌<◌, false, List, map, slice_get, IfOk, OnOk, Some};
ghost use Rattle.meta_ops.specs.OnIds as kept;
ghost use Rattle.lib_arguments.specs.Checks.{Checks, most_arguments};
ghost use Rattle.op_words.specs.Chunks.{ChunkOf};
ghost use Rattle.value_model.specs.Arguments as row;
ghost use Rattle.value_model.specs.Parts.{meant};
ghost use Rattle.value_model.specs.Values as m;
ghost use Rattle.value_model.specs.Values.{Bytes};
ghost use Rattle.value_model.specs.Waits.{ByScript};
ghost use Rattle.value_model.specs.declared.builtin.Builtin.TheVariants as builtin;
ghost use Rattle.machine_meaning.specs.States as states;
ghost use Rattle.machine_world.specs.Sound.{IsMachine};
ghost use Rattle.machine_calls.specs.Charging.{is_charge};
ghost use Rattle.machine_calls.specs.Moving.{Leads, IsDoing, IsLed};
ghost use Rattle.machine_calls.specs.Protecting.{led_by};
ghost use Rattle.machine_calls.specs.declared.focus.Focus.TheVariants.{Hand};

use crate::focus::{Caller, Focus, Led};
use crate::lists::without_first;
use call_frames::ReturnKind;
use lib_arguments::{Ending, any_at, invalid, wanted};
use luau_tables::LibWorld;
use machine_world::Machine;
use resource::OutOfMemory;
use value_model::{Builtin, Kind, Value, Wanted};

/// `pcall` with these arguments: the first is called with the others.
pub(crate) fn pcall(
    machine: &mut Machine,
    world: &LibWorld,
    values: &mut Vec<Value>,
) -> Result<Led, OutOfMemory>
    requires sound { IsMachine world.now machine.old.stack }
    requires hands { IsDoing world.now machine.old.stack Hand values.old.items }
    ensures moves { IfOk result (λ led. (chunk : ChunkOf) → Leads chunk world.now machine.old.code machine.old.stack (states.Invoke ByScript (m.Native builtin.Pcall) (map (meant world.now.names) values.old.items)) led world.now machine.new.stack values.new.items) }
    ensures sound { OnOk result (IsMachine world.now machine.new.stack) }
    ensures free { IfOk result (λ led. is_charge led ≡ false) }
    ensures led { IfOk result (λ led. IsLed world.now machine.new.stack led values.new.items) }
    ensures code { machine.new.code ≡ machine.old.code }
{
    match any_at(Builtin::Pcall, 0, values.as_slice()) {
        Ok(callee) => {
            without_first(values);
            machine.await_library(world, ReturnKind::Protected { handler: None })?;
            Ok(Led::Goes(Focus::Invoke {
                by: Caller::Library,
                callee,
            }))
        }
        Err(ending) => ended(ending),
    }
}

/// `xpcall` with these arguments: the first is called with those behind the second, which is the handler.
pub(crate) fn xpcall(
    machine: &mut Machine,
    world: &LibWorld,
    values: &mut Vec<Value>,
) -> Result<Led, OutOfMemory>
    requires sound { IsMachine world.now machine.old.stack }
    requires hands { IsDoing world.now machine.old.stack Hand values.old.items }
    ensures moves { IfOk result (λ led. (chunk : ChunkOf) → Leads chunk world.now machine.old.code machine.old.stack (states.Invoke ByScript (m.Native builtin.Xpcall) (map (meant world.now.names) values.old.items)) led world.now machine.new.stack values.new.items) }
    ensures sound { OnOk result (IsMachine world.now machine.new.stack) }
    ensures free { IfOk result (λ led. is_charge led ≡ false) }
    ensures led { IfOk result (λ led. IsLed world.now machine.new.stack led values.new.items) }
    ensures code { machine.new.code ≡ machine.old.code }
{
    let callee = match any_at(Builtin::Xpcall, 0, values.as_slice()) {
        Ok(callee) => callee,
        Err(ending) => return ended(ending),
    };
    match function_at(Builtin::Xpcall, 1, values.as_slice()) {
        Ok(handler) => {
            without_first(values);
            without_first(values);
            let kind = ReturnKind::Protected {
                handler: Some(handler),
            };
            machine.await_library(world, kind)?;
            Ok(Led::Goes(Focus::Invoke {
                by: Caller::Library,
                callee,
            }))
        }
        Err(ending) => ended(ending),
    }
}

// What a call leads to whose arguments are refused.
fn ended(ending: Ending) -> Result<Led, OutOfMemory>
    ensures { result ≡ led_by ending }
{
    match ending {
        Ending::OutOfMemory => Err(OutOfMemory),
        Ending::RunError(error) => Ok(Led::Goes(Focus::Fault(error))),
        Ending::Stop(stop) => Ok(Led::Stops(stop)),
    }
}

// An argument that has to be a function.
fn function_at(f: Builtin, i: usize, args: &[Value]) -> Result<Value, Ending>
    requires { i < most_arguments }
    ensures checks { (texts : List Bytes) → Checks texts (meant texts) (row.function_at f i (map (meant texts) args.now)) result }
    ensures there { IfOk result (λ v. slice_get args.now i ≡ Some v) }
{
    match wanted(f, i, Wanted::OfKind(Kind::Function), args) {
        Ok(v) => function_from(f, i, v),
        Err(e) => Err(e),
    }
}

// The function that an argument is.
fn function_from(f: Builtin, i: usize, v: Value) -> Result<Value, Ending>
    requires { i < most_arguments }
    ensures checks { (texts : List Bytes) → Checks texts (meant texts) (row.function_from f i (meant texts v)) result }
    ensures same { IfOk result (λ u. v ≡ u) }
{
    if is_function(&v) {
        Ok(v)
    } else {
        Err(invalid(f, i, Wanted::OfKind(Kind::Function), &v))
    }
}

// Whether a value is a function, of any sort.
fn is_function(v: &Value) -> bool
    ensures { result ≡ kept.is_function v.now }
{
    matches!(
        v,
        Value::Closure(_) | Value::Native(_) | Value::Host(_) | Value::Wrap(_)
    )
}
