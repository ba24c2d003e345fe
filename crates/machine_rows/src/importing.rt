//! Imports.

ghost use Rattle.std.specs.Prelude.{◌≡◌, ℕ, pos, ◌+◌, ◌<◌, ◌≤◌, List, map, length, option_map, Some, None, cond, IfOk, IfSome, OnOk};
ghost use Rattle.std.specs.List.{AllByRecursion};
ghost use Rattle.op_words.specs.Chunks.{ChunkOf};
ghost use Rattle.op_words.specs.declared.insn.Insn.TheVariants.{GetImport};
ghost use Rattle.value_model.specs.Parts.{meant};
ghost use Rattle.luau_tables.specs.Worlds.{MayUseIn};
ghost use Rattle.call_frames.specs.declared.frame.ReturnKind.TheVariants.{Import};
ghost use Rattle.machine_meaning.specs.Constants.{path_of};
ghost use Rattle.machine_meaning.specs.Effects.{follow_names};
ghost use Rattle.machine_meaning.specs.Instructions.{row};
ghost use Rattle.machine_world.specs.Functions.{text_of};
ghost use Rattle.machine_world.specs.Parts.{imports_in};
ghost use Rattle.machine_world.specs.Rows.{proto_here, takes};
ghost use Rattle.machine_world.specs.Sound.{IsMachine, HasRegister, GoesOn, WaitsFor};
ghost use Rattle.machine_rows.specs.Leading.{Does, IsNext};

use crate::indexing::environment;
use crate::next::Next;
use crate::settling::{first, settle, wake};
use byte_text::StrId;
use call_frames::ReturnKind;
use luau_tables::LibWorld;
use machine_world::Machine;
use meta_ops::{Outcome, index};
use resource::{OutOfMemory, Steps};
use sqlite_items::Items;
use std::alloc::Global;
use std::sync::ledger::Ledger;
use value_model::Value;

/// Looks up names, each in what the one before it led to, and gives the last value to a register; and how many tables were asked.
pub fn follow<L: Ledger>(
    alloc: Global,
    machine: &mut Machine,
    world: &LibWorld,
    base: Value,
    path: &[StrId],
    to: u8,
    next: usize,
    steps: &mut Steps<L>,
) -> Result<(Next, u16), OutOfMemory>
    requires sound { IsMachine world.now machine.old.stack }
    requires goes { GoesOn machine.old.stack }
    requires has { HasRegister machine.old.stack to }
    requires base { MayUseIn world.now base }
    requires known { AllByRecursion (λ x. x.0 < length world.now.names) path.now }
    requires few { length path.now ≤ 3 }
    ensures makes { IfOk result (λ done. (chunk : ChunkOf) → Does chunk (follow_names (meant world.now.names base) (map (text_of world.now.names) path.now) to next) world.now machine.old.code machine.old.stack done.1 done.0 world.now machine.new.stack) }
    ensures sound { OnOk result (IsMachine world.now machine.new.stack) }
    ensures next { IfOk result (λ done. IsNext world.now machine.new.stack done.0) }
    ensures code { machine.new.code ≡ machine.old.code }
    ensures ticks { IfOk result (λ done. steps.new ≡ steps.old + done.1) }
{
    let mut found = base;
    let mut asked: u16 = 0;
    for i in 0..path.len() {
        let name = Value::Str(path[i]);
        let (outcome, tables) = index(&world.arena, &world.globals, found, name, steps);
        asked += u16::from(tables);
        match outcome {
            Outcome::Done(v) => found = v,
            _ => {
                let names = Items::from_slice(alloc, &path[i + 1..])?;
                let done = settle(
                    machine,
                    world,
                    outcome,
                    ReturnKind::Import { to, names, next },
                );
                return Ok((done, asked));
            }
        }
    }
    machine.give(world, to, found, next);
    Ok((Next::Continues, asked))
}

/// Looks up the names of an import that are left, the first of them in the first value of a call; and how many tables were asked.
pub fn take_followed<L: Ledger>(
    alloc: Global,
    machine: &mut Machine,
    world: &LibWorld,
    to: u8,
    names: &[StrId],
    next: usize,
    values: &[Value],
    steps: &mut Steps<L>,
) -> Result<(Next, u16), OutOfMemory>
    requires sound { IsMachine world.now machine.old.stack }
    requires waits { WaitsFor machine.old.stack (Import to names.now next) }
    requires has { HasRegister machine.old.stack to }
    requires known { AllByRecursion (λ x. x.0 < length world.now.names) names.now }
    requires few { length names.now ≤ 3 }
    requires usable { AllByRecursion (MayUseIn world.now) values.now }
    ensures makes { IfOk result (λ done. (chunk : ChunkOf) → Does chunk (takes (map (meant world.now.names) values.now)) world.now machine.old.code machine.old.stack done.1 done.0 world.now machine.new.stack) }
    ensures sound { OnOk result (IsMachine world.now machine.new.stack) }
    ensures next { IfOk result (λ done. IsNext world.now machine.new.stack done.0) }
    ensures code { machine.new.code ≡ machine.old.code }
    ensures ticks { IfOk result (λ done. steps.new ≡ steps.old + done.1) }
{
    let base = first(values);
    wake(machine, world);
    follow(alloc, machine, world, base, names, to, next, steps)
}

/// What an import holds, where the environment of the function that runs is safe, or else what its names lead to, into a register; and
/// how many tables were asked.
pub fn get_import<L: Ledger>(
    alloc: Global,
    machine: &mut Machine,
    world: &LibWorld,
    import: Option<Value>,
    path: &[StrId],
    to: u8,
    next: usize,
    steps: &mut Steps<L>,
) -> Result<(Next, u16), OutOfMemory>
    requires sound { IsMachine world.now machine.old.stack }
    requires goes { GoesOn machine.old.stack }
    requires has { HasRegister machine.old.stack to }
    requires import { IfSome import (λ v. MayUseIn world.now v) }
    requires known { AllByRecursion (λ x. x.0 < length world.now.names) path.now }
    requires few { length path.now ≤ 3 }
    ensures makes { IfOk result (λ done. (chunk : ChunkOf) (words : List ℕ) (k word : ℕ) → imports_in world.now.names machine.old.code (proto_here world.now machine.old.code machine.old.stack) k ≡ option_map (meant world.now.names) import → path_of chunk (proto_here world.now machine.old.code machine.old.stack) word ≡ Some (map (text_of world.now.names) path.now) → Does chunk (row chunk words (GetImport to (pos k) word) next) world.now machine.old.code machine.old.stack done.1 done.0 world.now machine.new.stack) }
    ensures sound { OnOk result (IsMachine world.now machine.new.stack) }
    ensures next { IfOk result (λ done. IsNext world.now machine.new.stack done.0) }
    ensures code { machine.new.code ≡ machine.old.code }
    ensures ticks { IfOk result (λ done. steps.new ≡ steps.old + done.1) }
{
    let env = environment(machine, world);
    let safe = world.arena.marked(env);
    match held(import, safe) {
        Some(v) => {
            machine.give(world, to, v, next);
            Ok((Next::Continues, 0))
        }
        None => follow(
            alloc,
            machine,
            world,
            Value::Table(env),
            path,
            to,
            next,
            steps,
        ),
    }
}

// What an import holds where the environment is safe.
fn held(import: Option<Value>, safe: bool) -> Option<Value>
    ensures { result ≡ cond safe import None }
{
    if safe { import } else { None }
}
