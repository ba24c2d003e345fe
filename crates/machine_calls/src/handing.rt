//! Values for what waits innermost.

ghost use Rattle.std.specs.Prelude.{◌≡◌, false, map, IfOk, OnOk};
ghost use Rattle.op_words.specs.Chunks.{ChunkOf};
ghost use Rattle.value_model.specs.Parts.{meant};
ghost use Rattle.machine_meaning.specs.States as states;
ghost use Rattle.machine_world.specs.Sound.{IsMachine};
ghost use Rattle.machine_calls.specs.Charging.{is_charge};
ghost use Rattle.machine_calls.specs.Waiting.{IsProtected};
ghost use Rattle.machine_calls.specs.Moving.{Leads, IsDoing, IsLed};
ghost use Rattle.machine_calls.specs.declared.focus.Focus.TheVariants.{Hand};

use crate::focus::{Focus, Led};
use crate::innermost::{Innermost, what_waits};
use crate::lists::{failed, first, put_first};
use call_frames::ReturnKind;
use luau_tables::LibWorld;
use machine_world::Machine;
use resource::OutOfMemory;
use value_model::Value;

/// Hands values to what waits innermost: a Luau function is given them, a protected call ends with `true` before them, or, where they
/// are its handler's, with `false` before the first, and where nothing waits the script ends.
pub fn hand(
    machine: &mut Machine,
    world: &mut LibWorld,
    values: &mut Vec<Value>,
) -> Result<Led, OutOfMemory>
    requires sound { IsMachine world.old machine.old.stack }
    requires hands { IsDoing world.old machine.old.stack Hand values.old.items }
    ensures moves { IfOk result (λ led. (chunk : ChunkOf) → Leads chunk world.old machine.old.code machine.old.stack (states.Hand (map (meant world.old.names) values.old.items)) led world.new machine.new.stack values.new.items) }
    ensures sound { OnOk result (IsMachine world.new machine.new.stack) }
    ensures free { IfOk result (λ led. is_charge led ≡ false) }
    ensures led { IfOk result (λ led. IsLed world.new machine.new.stack led values.new.items) }
    ensures world { world.new ≡ record world.old { arena = world.new.arena } }
    ensures code { machine.new.code ≡ machine.old.code }
{
    match what_waits(machine, world) {
        Innermost::Nothing => Ok(Led::Finishes),
        Innermost::Function => Ok(Led::Goes(Focus::GiveAll)),
        Innermost::Protected => succeed(machine, world, values),
        Innermost::Guarded(_) => succeed(machine, world, values),
        Innermost::Handler => {
            let v = first(values.as_slice());
            failed(values, v)?;
            let_go(machine.leave_library(world));
            Ok(Led::Goes(Focus::Hand))
        }
        Innermost::Asker => Ok(Led::Asks),
    }
}

// A protected call ends with `true` before the values.
fn succeed(
    machine: &mut Machine,
    world: &mut LibWorld,
    values: &mut Vec<Value>,
) -> Result<Led, OutOfMemory>
    requires sound { IsMachine world.old machine.old.stack }
    requires waits { IsProtected machine.old.stack }
    requires hands { IsDoing world.old machine.old.stack Hand values.old.items }
    ensures moves { IfOk result (λ led. (chunk : ChunkOf) → Leads chunk world.old machine.old.code machine.old.stack (states.Hand (map (meant world.old.names) values.old.items)) led world.new machine.new.stack values.new.items) }
    ensures sound { OnOk result (IsMachine world.new machine.new.stack) }
    ensures free { IfOk result (λ led. is_charge led ≡ false) }
    ensures led { IfOk result (λ led. IsLed world.new machine.new.stack led values.new.items) }
    ensures world { world.new ≡ record world.old { arena = world.new.arena } }
    ensures code { machine.new.code ≡ machine.old.code }
{
    put_first(values, Value::Bool(true))?;
    let_go(machine.leave_library(world));
    Ok(Led::Goes(Focus::Hand))
}

// Drops what a frame waited for.
pub(crate) fn let_go(_kind: ReturnKind) {}
