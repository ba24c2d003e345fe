//! Loops over what a function gives.

ghost use Rattle.std.specs.Prelude.{◌≡◌, ◌+◌, ℕ, List, [], map, length, slice_index_or, IfOk, OnOk};
ghost use Rattle.std.specs.List.{AllByRecursion};
ghost use Rattle.op_words.specs.Chunks.{ChunkOf};
ghost use Rattle.op_words.specs.declared.insn.Insn.TheVariants.{ForGLoop};
ghost use Rattle.value_model.specs.Parts.{meant};
ghost use Rattle.value_model.specs.declared.value.Value.TheVariants.{Nil};
ghost use Rattle.value_model.specs.Waits.{ByScript};
ghost use Rattle.luau_tables.specs.Worlds.{MayUseIn};
ghost use Rattle.call_frames.specs.declared.frame.ReturnKind.TheVariants.{Iterate, Turn};
ghost use Rattle.machine_meaning.specs.Effects as row;
ghost use Rattle.machine_meaning.specs.Instructions as instruction;
ghost use Rattle.machine_meaning.specs.States as states;
ghost use Rattle.machine_world.specs.Parts.{Becomes, changed};
ghost use Rattle.machine_world.specs.Rows.{Makes, MakesTo, MakesCharged, takes, place_here};
ghost use Rattle.machine_world.specs.Sound.{IsMachine, GoesOn, HasRegister, WaitsFor, Ahead, Back};
ghost use Rattle.machine_flow.specs.Flow.{HasRange, ends};

use crate::answers::first;
use crate::going::go_on;
use crate::registers::{set_all, set_three};
use call_frames::ReturnKind;
use luau_tables::LibWorld;
use machine_world::{Machine, back};
use resource::OutOfMemory;
use value_model::Value;

/// Takes the first three values of a call as the generator, the state and the control value of a loop, and jumps to it.
pub fn take_begin(machine: &mut Machine, world: &LibWorld, base: u8, by: i16, values: &[Value])
    requires sound { IsMachine world.now machine.old.stack }
    requires waits { WaitsFor machine.old.stack (Iterate base by) }
    requires has { HasRegister machine.old.stack (base + 2) }
    requires ahead { Ahead (place_here machine.old.stack) by }
    requires usable { AllByRecursion (MayUseIn world.now) values.now }
    ensures makes { Makes (takes (map (meant world.now.names) values.now)) world.now machine.old.code machine.old.stack world.now machine.new.stack }
    ensures sound { IsMachine world.now machine.new.stack }
    ensures goes { GoesOn machine.new.stack }
    ensures code { machine.new.code ≡ machine.old.code }
{
    let generator = at(values, 0);
    let state = at(values, 1);
    let control = at(values, 2);
    set_three(machine, world, base, generator, state, control);
    machine.awake(world);
    machine.jump_where(world, true, by, 0);
}

/// Asks the generator of a loop, whose state and control value stand behind it. A turn was charged.
pub fn ask(
    machine: &mut Machine,
    world: &LibWorld,
    base: u8,
    variables: u32,
    by: i16,
    next: usize,
    values: &mut Vec<Value>,
) -> Result<Value, OutOfMemory>
    requires sound { IsMachine world.now machine.old.stack }
    requires goes { GoesOn machine.old.stack }
    requires has { HasRegister machine.old.stack (base + 2) }
    requires empty { values.old.items ≡ [] }
    ensures charges { (chunk : ChunkOf) (words : List ℕ) → MakesCharged (instruction.row chunk words (ForGLoop base by variables) next) world.now machine.old.code machine.old.stack states.Charged world.now machine.old.stack }
    ensures makes { IfOk result (λ f. MakesTo (row.charged (ForGLoop base by variables) next) world.now machine.old.code machine.old.stack (states.Invoke ByScript (meant world.now.names f) (map (meant world.now.names) values.new.items)) world.now machine.new.stack) }
    ensures sound { IsMachine world.now machine.new.stack }
    ensures top { OnOk result (machine.new.stack.top ≡ 0) }
    ensures usable { IfOk result (λ f. MayUseIn world.now f × AllByRecursion (MayUseIn world.now) values.new.items) }
    ensures code { machine.new.code ≡ machine.old.code }
{
    let state_at = machine.behind(base);
    let control_at = machine.behind(state_at);
    let generator = machine.read(world, base);
    let state = machine.read(world, state_at);
    let control = machine.read(world, control_at);
    values.extend_from_slice(&[state, control])?;
    let kind = ReturnKind::Turn {
        base,
        variables,
        by,
        next,
    };
    machine.wait(world, kind);
    Ok(generator)
}

/// Takes the values of a generator as the variables of a loop, whose first is its next control value too, and goes back to a turn. The
/// loop ends where the first is nil.
pub fn take_turn(
    machine: &mut Machine,
    world: &LibWorld,
    base: u8,
    variables: u32,
    by: i16,
    next: usize,
    values: &mut Vec<Value>,
) -> Result<(), OutOfMemory>
    requires sound { IsMachine world.now machine.old.stack }
    requires waits { WaitsFor machine.old.stack (Turn base variables by next) }
    requires has { HasRange machine.old.stack base (3 + variables) }
    requires back { Back (place_here machine.old.stack) by }
    requires usable { AllByRecursion (MayUseIn world.now) values.old.items }
    ensures makes { OnOk result (Makes (takes (map (meant world.now.names) values.old.items)) world.now machine.old.code machine.old.stack world.now machine.new.stack) }
    ensures sound { IsMachine world.now machine.new.stack }
    ensures goes { OnOk result (GoesOn machine.new.stack) }
    ensures code { machine.new.code ≡ machine.old.code }
{
    if ends(values.as_slice()) {
        go_on(machine, world, next);
        return Ok(());
    }
    let control = first(values.as_slice());
    values.resize(variables as usize, Value::Nil)?;
    let to = back(machine.place(), by);
    set_turn(machine, world, base, control, values.as_slice());
    go_on(machine, world, to);
    Ok(())
}

// Writes the control value of a loop, and the variables behind it.
fn set_turn(machine: &mut Machine, world: &LibWorld, base: u8, control: Value, values: &[Value])
    requires sound { IsMachine world.now machine.old.stack }
    requires has { HasRange machine.old.stack base (3 + length values.now) }
    requires control { MayUseIn world.now control }
    requires usable { AllByRecursion (MayUseIn world.now) values.now }
    ensures written { Becomes (changed (λ i. states.set_all (base + 3) (map (meant world.now.names) values.now) (states.set (base + 2) (meant world.now.names control) i))) world.now machine.old.code machine.old.stack world.now machine.new.stack }
    ensures sound { IsMachine world.now machine.new.stack }
    ensures frames { machine.new.stack.frames ≡ machine.old.stack.frames }
    ensures code { machine.new.code ≡ machine.old.code }
{
    let state_at = machine.behind(base);
    let control_at = machine.behind(state_at);
    let from = machine.behind(control_at);
    machine.write(world, control_at, control);
    set_all(machine, world, from, values);
}

// A value of a list, and nil where it is missing.
fn at(values: &[Value], index: usize) -> Value
    ensures { result ≡ slice_index_or values.now index Nil }
{
    match values.get(index) {
        Some(v) => *v,
        None => Value::Nil,
    }
}

// Whether a loop ends with these values: the first is nil, or there is none.
fn ends(values: &[Value]) -> bool
    ensures { result ≡ ends values.now }
{
    match values.first() {
        Some(v) => matches!(v, Value::Nil),
        None => true,
    }
}
