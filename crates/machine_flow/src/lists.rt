//! Lists of values for the registers of the function that runs.

ghost use Rattle.std.specs.Prelude.{◌≡◌, ℕ, List, [], map, OnOk};
ghost use Rattle.std.specs.List.{AllByRecursion};
ghost use Rattle.op_words.specs.Chunks.{ChunkOf};
ghost use Rattle.op_words.specs.declared.insn.Insn.TheVariants.{GetVarargs};
ghost use Rattle.value_model.specs.Parts.{meant};
ghost use Rattle.value_model.specs.declared.event.Reply.{Reply};
ghost use Rattle.luau_tables.specs.Worlds.{MayUseIn};
ghost use Rattle.call_frames.specs.declared.frame.ReturnKind.TheVariants.{Call};
ghost use Rattle.machine_meaning.specs.Effects as row;
ghost use Rattle.machine_meaning.specs.Instructions as instruction;
ghost use Rattle.machine_meaning.specs.States as machine_state;
ghost use Rattle.machine_world.specs.Parts as parts;
ghost use Rattle.machine_world.specs.Rows.{Makes, takes};
ghost use Rattle.machine_world.specs.Sound.{IsMachine, Runs, GoesOn, HasPlaceOf, WaitsFor};
ghost use Rattle.machine_flow.specs.Flow.{as_many, varargs};

use crate::going::go_on;
use luau_tables::LibWorld;
use machine_world::Machine;
use resource::OutOfMemory;
use value_model::Value;

/// Takes the results of a call into the registers from `to` on: one fewer than `count`, or at 0 all of them.
pub fn take_results(
    machine: &mut Machine,
    world: &LibWorld,
    to: u8,
    count: u8,
    next: usize,
    values: &mut Vec<Value>,
) -> Result<(), OutOfMemory>
    requires sound { IsMachine world.now machine.old.stack }
    requires waits { WaitsFor machine.old.stack (Call to count next) }
    requires has { HasPlaceOf machine.old.stack to }
    requires usable { AllByRecursion (MayUseIn world.now) values.old.items }
    ensures makes { OnOk result (Makes (takes (map (meant world.now.names) values.old.items)) world.now machine.old.code machine.old.stack world.now machine.new.stack) }
    ensures sound { OnOk result (IsMachine world.now machine.new.stack) }
    ensures goes { OnOk result (GoesOn machine.new.stack) }
    ensures code { machine.new.code ≡ machine.old.code }
{
    give_list(machine, world, to, count, next, values)
}

/// The variable arguments of the function that runs into the registers from `to` on: one fewer than `count`, or at 0 all of them.
pub fn get_varargs(
    machine: &mut Machine,
    world: &LibWorld,
    to: u8,
    count: u8,
    next: usize,
    values: &mut Vec<Value>,
) -> Result<(), OutOfMemory>
    requires sound { IsMachine world.now machine.old.stack }
    requires goes { GoesOn machine.old.stack }
    requires has { HasPlaceOf machine.old.stack to }
    requires empty { values.old.items ≡ [] }
    ensures makes { OnOk result ((chunk : ChunkOf) (words : List ℕ) → Makes (instruction.row chunk words (GetVarargs to count) next) world.now machine.old.code machine.old.stack world.now machine.new.stack) }
    ensures sound { OnOk result (IsMachine world.now machine.new.stack) }
    ensures goes { OnOk result (GoesOn machine.new.stack) }
    ensures code { machine.new.code ≡ machine.old.code }
{
    values.extend_from_slice(varargs(machine, world))?;
    give_list(machine, world, to, count, next, values)
}

/// Gives values to the registers from one on: one fewer than `count`, with nil for those that are missing, or at 0 all of them. The
/// code goes on behind that.
pub fn give_list(
    machine: &mut Machine,
    world: &LibWorld,
    to: u8,
    count: u8,
    next: usize,
    values: &mut Vec<Value>,
) -> Result<(), OutOfMemory>
    requires sound { IsMachine world.now machine.old.stack }
    requires has { HasPlaceOf machine.old.stack to }
    requires usable { AllByRecursion (MayUseIn world.now) values.old.items }
    ensures makes { OnOk result (Makes (row.results to count next (map (meant world.now.names) values.old.items)) world.now machine.old.code machine.old.stack world.now machine.new.stack) }
    ensures sound { OnOk result (IsMachine world.now machine.new.stack) }
    ensures goes { OnOk result (GoesOn machine.new.stack) }
    ensures code { machine.new.code ≡ machine.old.code }
{
    adjust(values, count)?;
    machine.deliver(world, to, values.as_slice())?;
    go_on(machine, world, next);
    Ok(())
}

// Makes the values one fewer than `count`, with nil for those that are missing; at 0 they stay.
fn adjust(values: &mut Vec<Value>, count: u8) -> Result<(), OutOfMemory>
    ensures { OnOk result (values.new.items ≡ as_many count values.old.items) }
{
    let _held = values.as_slice();
    if count > 0 {
        values.resize(usize::from(count - 1), Value::Nil)?;
    }
    Ok(())
}

// The variable arguments of the function that runs.
fn varargs<'a>(machine: &'a Machine, world: &LibWorld) -> &'a [Value]
    requires sound { IsMachine world.now machine.now.stack }
    requires runs { Runs machine.now.stack }
    ensures values { (x : machine_state.Focus) (replies : List Reply) → map (meant world.now.names) result.now ≡ parts.read_of [] varargs (parts.part world.now machine.now.code machine.now.stack x replies) }
    ensures usable { AllByRecursion (MayUseIn world.now) result.now }
{
    machine.stack.lies();
    let Some(frame) = machine.stack.frame() else {
        unreachable!()
    };
    let base = frame.base;
    let first = base.saturating_sub(frame.extra);
    machine.stack.values(first, base - first)
}
