//! What follows an operation on values.

ghost use Rattle.std.specs.Prelude.{◌≡◌, ℕ, slice_index_or};
ghost use Rattle.op_words.specs.Chunks.{ChunkOf};
ghost use Rattle.luau_tables.specs.Worlds.{MayUseIn};
ghost use Rattle.call_frames.specs.Cells.{waiting};
ghost use Rattle.call_frames.specs.declared.frame.ReturnKind.TheVariants.{Idle};
ghost use Rattle.value_model.specs.declared.value.Value.TheVariants.{Nil};
ghost use Rattle.meta_ops.specs.Outcomes.{meant_outcome, OfOutcome};
ghost use Rattle.machine_meaning.specs.Effects.{agrees};
ghost use Rattle.machine_meaning.specs.Moves.{comes};
ghost use Rattle.machine_meaning.specs.States.{Into, Compares, Stores};
ghost use Rattle.machine_world.specs.Functions.{purpose_of};
ghost use Rattle.machine_world.specs.Parts.{Becomes, changed};
ghost use Rattle.machine_world.specs.Rows.{place_here};
ghost use Rattle.machine_world.specs.Sound.{IsMachine, MayWaitInCode, HasRegister, Runs, GoesOn, Ahead};
ghost use Rattle.machine_rows.specs.Leading.{looks, Does, IsNext, expects};

use crate::next::Next;
use call_frames::ReturnKind;
use luau_tables::LibWorld;
use machine_world::Machine;
use meta_ops::Outcome;
use value_model::{Value, truthy};

/// Does what follows an operation, for whose value the function that runs waits so. No tables are asked any more, however many were.
pub fn settle(machine: &mut Machine, world: &LibWorld, outcome: Outcome, kind: ReturnKind) -> Next
    requires sound { IsMachine world.now machine.old.stack }
    requires runs { Runs machine.old.stack }
    requires kind { MayWaitInCode world.now kind }
    requires usable { OfOutcome world.now.names (MayUseIn world.now) outcome }
    ensures makes { (chunk : ChunkOf) (n : ℕ) → Does chunk (comes (meant_outcome world.now.names outcome) (looks n) (purpose_of world.now.names kind)) world.now machine.old.code machine.old.stack n result world.now machine.new.stack }
    ensures sound { IsMachine world.now machine.new.stack }
    ensures next { IsNext world.now machine.new.stack result }
    ensures code { machine.new.code ≡ machine.old.code }
{
    match outcome {
        Outcome::Done(v) => {
            expect(machine, world, kind);
            Next::Gives(v)
        }
        Outcome::CallThis {
            callee,
            args,
            count,
        } => {
            machine.wait(world, kind);
            Next::Calls {
                callee,
                args,
                count,
            }
        }
        Outcome::RunError(e) => {
            expect(machine, world, kind);
            Next::Fails(e)
        }
        Outcome::Stop(stop) => Next::Stops(stop),
    }
}

// The function that runs waits so, and its list of values stays.
fn expect(machine: &mut Machine, world: &LibWorld, kind: ReturnKind)
    requires sound { IsMachine world.now machine.old.stack }
    requires runs { Runs machine.old.stack }
    requires kind { MayWaitInCode world.now kind }
    ensures expects { Becomes (changed (expects (purpose_of world.now.names kind))) world.now machine.old.code machine.old.stack world.now machine.new.stack }
    ensures sound { IsMachine world.now machine.new.stack }
    ensures runs { Runs machine.new.stack }
    ensures code { machine.new.code ≡ machine.old.code }
{
    machine.stack.set_kind(kind);
}

/// Does what follows an operation whose value is for a register.
#[inline(always)]
pub fn into_register(
    machine: &mut Machine,
    world: &LibWorld,
    outcome: Outcome,
    to: u8,
    next: usize,
) -> Next
    requires sound { IsMachine world.now machine.old.stack }
    requires goes { GoesOn machine.old.stack }
    requires has { HasRegister machine.old.stack to }
    requires usable { OfOutcome world.now.names (MayUseIn world.now) outcome }
    ensures makes { (chunk : ChunkOf) (n : ℕ) → Does chunk (comes (meant_outcome world.now.names outcome) (looks n) (Into to next)) world.now machine.old.code machine.old.stack n result world.now machine.new.stack }
    ensures sound { IsMachine world.now machine.new.stack }
    ensures next { IsNext world.now machine.new.stack result }
    ensures code { machine.new.code ≡ machine.old.code }
{
    match outcome {
        Outcome::Done(v) => {
            machine.give(world, to, v, next);
            Next::Continues
        }
        _ => settle(machine, world, outcome, ReturnKind::Answer { to, next }),
    }
}

/// Does what follows a comparison: jumps where its answer is the wanted one.
#[inline(always)]
pub fn jump_where(
    machine: &mut Machine,
    world: &LibWorld,
    outcome: Outcome,
    wanted: bool,
    by: i16,
    next: usize,
) -> Next
    requires sound { IsMachine world.now machine.old.stack }
    requires goes { GoesOn machine.old.stack }
    requires ahead { Ahead (place_here machine.old.stack) by }
    requires usable { OfOutcome world.now.names (MayUseIn world.now) outcome }
    ensures makes { (chunk : ChunkOf) (n : ℕ) → Does chunk (comes (meant_outcome world.now.names outcome) (looks n) (Compares wanted by next)) world.now machine.old.code machine.old.stack n result world.now machine.new.stack }
    ensures sound { IsMachine world.now machine.new.stack }
    ensures next { IsNext world.now machine.new.stack result }
    ensures code { machine.new.code ≡ machine.old.code }
{
    match outcome {
        Outcome::Done(v) => {
            let holds = agrees(wanted, truthy(v));
            machine.jump_where(world, holds, by, next);
            Next::Continues
        }
        _ => settle(
            machine,
            world,
            outcome,
            ReturnKind::Jump { by, wanted, next },
        ),
    }
}

// Whether an answer is the wanted one.
fn agrees(wanted: bool, answer: bool) -> bool
    ensures { result ≡ agrees wanted answer }
{
    wanted == answer
}

/// Does what follows a write to a table.
#[inline(always)]
pub fn stored(machine: &mut Machine, world: &LibWorld, outcome: Outcome, next: usize) -> Next
    requires sound { IsMachine world.now machine.old.stack }
    requires goes { GoesOn machine.old.stack }
    requires usable { OfOutcome world.now.names (MayUseIn world.now) outcome }
    ensures makes { (chunk : ChunkOf) (n : ℕ) → Does chunk (comes (meant_outcome world.now.names outcome) (looks n) (Stores next)) world.now machine.old.code machine.old.stack n result world.now machine.new.stack }
    ensures sound { IsMachine world.now machine.new.stack }
    ensures next { IsNext world.now machine.new.stack result }
    ensures code { machine.new.code ≡ machine.old.code }
{
    match outcome {
        Outcome::Done(_) => {
            machine.go(world, next);
            Next::Continues
        }
        _ => settle(machine, world, outcome, ReturnKind::Store { next }),
    }
}

/// The function that runs waits for no call any more, and its list of values stays.
pub(crate) fn wake(machine: &mut Machine, world: &LibWorld)
    requires sound { IsMachine world.now machine.old.stack }
    requires runs { Runs machine.old.stack }
    ensures stack { machine.new.stack ≡ waiting Idle machine.old.stack }
    ensures wakes { Becomes (changed (expects (purpose_of world.now.names Idle))) world.now machine.old.code machine.old.stack world.now machine.new.stack }
    ensures sound { IsMachine world.now machine.new.stack }
    ensures goes { GoesOn machine.new.stack }
    ensures code { machine.new.code ≡ machine.old.code }
{
    machine.stack.set_kind(ReturnKind::Idle);
}

/// The first of a call's values, and nil where there is none.
pub(crate) fn first(values: &[Value]) -> Value
    ensures { result ≡ slice_index_or values.now 0 Nil }
{
    match values.first() {
        Some(v) => *v,
        None => Value::Nil,
    }
}
