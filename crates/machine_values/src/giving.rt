//! The function that runs is given the values of the call that it waits for.

ghost use Rattle.std.specs.Prelude.{◌≡◌, ◌+◌, [], IfOk, OnOk};
ghost use Rattle.std.specs.List.{AllByRecursion};
ghost use Rattle.op_words.specs.Chunks.{ChunkOf};
ghost use Rattle.luau_tables.specs.Worlds.{Keeps, MayUseIn};
ghost use Rattle.machine_world.specs.Sound.{IsMachine, MayWaitInCode, WaitsFor};
ghost use Rattle.machine_rows.specs.Leading.{IsNext};
ghost use Rattle.machine_rows.specs.Texts.{KnowsTexts};
ghost use Rattle.machine_values.specs.Given.{IsReady, IsReadyFor, Receives};

use crate::kinds::awaited;
use call_frames::ReturnKind;
use luau_tables::LibWorld;
use machine_flow::{take_answer, take_begin, take_nothing, take_results, take_test, take_turn};
use machine_rows::{Next, take_followed, take_joined};
use machine_world::Machine;
use resource::{OutOfMemory, Steps};
use std::alloc::Global;
use std::sync::ledger::Ledger;
use value_model::Value;

/// Gives the values in hand to the function that runs, which waits for those of a call; and how many tables were asked, each of which is
/// one step. No values are left in hand.
pub fn give<L: Ledger>(
    alloc: Global,
    machine: &mut Machine,
    world: &mut LibWorld,
    values: &mut Vec<Value>,
    steps: &mut Steps<L>,
) -> Result<(Next, u16), OutOfMemory>
    requires sound { IsMachine world.old machine.old.stack }
    requires ready { IsReady machine.old.stack }
    requires texts { KnowsTexts world.old machine.old.code machine.old.stack }
    requires usable { AllByRecursion (MayUseIn world.old) values.old.items }
    ensures receives { IfOk result (λ done. (chunk : ChunkOf) → Receives chunk world.old machine.old.code machine.old.stack values.old.items done.1 done.0 world.new machine.new.stack) }
    ensures sound { OnOk result (IsMachine world.new machine.new.stack) }
    ensures next { IfOk result (λ done. IsNext world.new machine.new.stack done.0) }
    ensures keeps { OnOk result (Keeps world.old world.new) }
    ensures empty { OnOk result (values.new.items ≡ []) }
    ensures code { machine.new.code ≡ machine.old.code }
    ensures ticks { IfOk result (λ done. steps.new ≡ steps.old + done.1) }
{
    let kind = awaited(alloc, machine, world)?;
    let done = take(alloc, machine, world, kind, values, steps)?;
    values.clear();
    Ok(done)
}

// Takes the values as the kind says in which the function waits for them.
fn take<L: Ledger>(
    alloc: Global,
    machine: &mut Machine,
    world: &mut LibWorld,
    kind: ReturnKind,
    values: &mut Vec<Value>,
    steps: &mut Steps<L>,
) -> Result<(Next, u16), OutOfMemory>
    requires sound { IsMachine world.old machine.old.stack }
    requires waits { WaitsFor machine.old.stack kind }
    requires ready { IsReadyFor machine.old.stack kind }
    requires may { MayWaitInCode world.old kind }
    requires texts { KnowsTexts world.old machine.old.code machine.old.stack }
    requires usable { AllByRecursion (MayUseIn world.old) values.old.items }
    ensures receives { IfOk result (λ done. (chunk : ChunkOf) → Receives chunk world.old machine.old.code machine.old.stack values.old.items done.1 done.0 world.new machine.new.stack) }
    ensures sound { OnOk result (IsMachine world.new machine.new.stack) }
    ensures next { IfOk result (λ done. IsNext world.new machine.new.stack done.0) }
    ensures keeps { OnOk result (Keeps world.old world.new) }
    ensures code { machine.new.code ≡ machine.old.code }
    ensures ticks { IfOk result (λ done. steps.new ≡ steps.old + done.1) }
{
    match kind {
        ReturnKind::Call { to, results, next } => {
            take_results(machine, world, to, results, next, values)?;
            Ok((Next::Continues, 0))
        }
        ReturnKind::Answer { to, next } => {
            take_answer(machine, world, to, next, values.as_slice());
            Ok((Next::Continues, 0))
        }
        ReturnKind::Store { next } => {
            take_nothing(machine, world, next, values.as_slice());
            Ok((Next::Continues, 0))
        }
        ReturnKind::Jump { by, wanted, next } => {
            take_test(machine, world, wanted, by, next, values.as_slice());
            Ok((Next::Continues, 0))
        }
        ReturnKind::Join { to, left, next } => {
            let left = left.as_slice();
            let done = take_joined(alloc, machine, world, to, left, next, values.as_slice())?;
            Ok((done, 0))
        }
        ReturnKind::Import { to, names, next } => {
            let names = names.as_slice();
            let values = values.as_slice();
            take_followed(alloc, machine, world, to, names, next, values, steps)
        }
        ReturnKind::Iterate { base, by } => {
            take_begin(machine, world, base, by, values.as_slice());
            Ok((Next::Continues, 0))
        }
        ReturnKind::Turn {
            base,
            variables,
            by,
            next,
        } => {
            take_turn(machine, world, base, variables, by, next, values)?;
            Ok((Next::Continues, 0))
        }
        _ => unreachable!(),
    }
}
