//! Loops over numbers.

ghost use Rattle.std.specs.Prelude.{◌≡◌, ◌+◌, ℕ, ℤ, List, Result, Ok, Err, Option, Some, None, cond};
ghost use Rattle.op_words.specs.Chunks.{ChunkOf};
ghost use Rattle.op_words.specs.declared.insn.Insn.TheVariants.{ForNPrep, ForNLoop};
ghost use Rattle.value_model.specs.Loops as loops;
ghost use Rattle.value_model.specs.Metamethods as model;
ghost use Rattle.value_model.specs.Parts.{meant};
ghost use Rattle.value_model.specs.declared.event.Reply.{Reply};
ghost use Rattle.luau_tables.specs.Own.{HasText};
ghost use Rattle.machine_meaning.specs.Effects as row;
ghost use Rattle.machine_meaning.specs.Instructions as instruction;
ghost use Rattle.machine_meaning.specs.States.{Charged, Focus};
ghost use Rattle.machine_world.specs.Parts.{Becomes, changed, part, read_of};
ghost use Rattle.machine_world.specs.Rows.{Makes, MakesCharged, place_here};
ghost use Rattle.machine_world.specs.Sound.{IsMachine, GoesOn, HasRegister, Ahead, Back};
ghost use Rattle.machine_flow.specs.Counts.{Comes, bounded, bounds_at, further, in_order, meant_bounds, no_bounds};

use crate::going::go_on;
use crate::registers::set_three;
use byte_text::Interner;
use lib_arguments::as_number;
use luau_tables::LibWorld;
use machine_world::{Machine, back};
use value_model::{Kind, LoopBound, Value};
use whole_num::{Read, Stop, Whole};

/// Why a loop over numbers is not begun, or does not go on.
#[derive(Clone, Copy, PartialEq, Eq, Debug)]
pub enum Failure {
    /// A bound is no number.
    NoNumber { bound: LoopBound, got: Kind },
    Stop(Stop),
}

/// The bounds of a loop, or why they are none.
#[derive(Clone, Copy)]
pub(crate) enum Bounds {
    Range {
        index: Whole,
        limit: Whole,
        step: Whole,
    },
    Failed(Failure),
}

/// Begins a loop over numbers, whose limit, step and index stand from a register on, or passes over it by so many words.
pub fn begin_count(
    machine: &mut Machine,
    world: &LibWorld,
    base: u8,
    by: i16,
    next: usize,
) -> Result<(), Failure>
    requires sound { IsMachine world.now machine.old.stack }
    requires goes { GoesOn machine.old.stack }
    requires has { HasRegister machine.old.stack (base + 2) }
    requires ahead { Ahead (place_here machine.old.stack) by }
    ensures makes { (chunk : ChunkOf) (words : List ℕ) → Comes (instruction.row chunk words (ForNPrep base by) next) world.now machine.old.code machine.old.stack result machine.new.stack }
    ensures sound { IsMachine world.now machine.new.stack }
    ensures goes { GoesOn machine.new.stack }
    ensures code { machine.new.code ≡ machine.old.code }
{
    match read_bounds(machine, world, base) {
        Bounds::Range { index, limit, step } => {
            let goes = goes_on(index, limit, step);
            set_range(machine, world, base, index, limit, step);
            machine.jump_where(world, !goes, by, next);
            Ok(())
        }
        Bounds::Failed(failure) => Err(failure),
    }
}

/// Goes back to the next turn of a loop over numbers where it has one. A turn was charged.
pub fn next_count(
    machine: &mut Machine,
    world: &LibWorld,
    base: u8,
    by: i16,
    next: usize,
) -> Result<(), Failure>
    requires sound { IsMachine world.now machine.old.stack }
    requires goes { GoesOn machine.old.stack }
    requires has { HasRegister machine.old.stack (base + 2) }
    requires back { Back (place_here machine.old.stack) by }
    ensures charges { (chunk : ChunkOf) (words : List ℕ) → MakesCharged (instruction.row chunk words (ForNLoop base by) next) world.now machine.old.code machine.old.stack Charged world.now machine.old.stack }
    ensures makes { Comes (row.charged (ForNLoop base by) next) world.now machine.old.code machine.old.stack result machine.new.stack }
    ensures sound { IsMachine world.now machine.new.stack }
    ensures goes { GoesOn machine.new.stack }
    ensures code { machine.new.code ≡ machine.old.code }
{
    match read_bounds(machine, world, base) {
        Bounds::Range { index, limit, step } => {
            let turn = further(index, limit, step);
            turn_to(machine, world, base, by, next, turn, limit, step);
            Ok(())
        }
        Bounds::Failed(failure) => Err(failure),
    }
}

// Goes back to a turn with this index, where there is one.
fn turn_to(
    machine: &mut Machine,
    world: &LibWorld,
    base: u8,
    by: i16,
    next: usize,
    turn: Option<Whole>,
    limit: Whole,
    step: Whole,
)
    requires sound { IsMachine world.now machine.old.stack }
    requires goes { GoesOn machine.old.stack }
    requires has { HasRegister machine.old.stack (base + 2) }
    requires back { Back (place_here machine.old.stack) by }
    ensures makes { (index : ℤ) → turn ≡ further index limit step → Makes (row.added (loops.Range index limit step) base by next) world.now machine.old.code machine.old.stack world.now machine.new.stack }
    ensures sound { IsMachine world.now machine.new.stack }
    ensures goes { GoesOn machine.new.stack }
    ensures code { machine.new.code ≡ machine.old.code }
{
    match turn {
        Some(index) => {
            let to = back(machine.place(), by);
            set_range(machine, world, base, index, limit, step);
            go_on(machine, world, to);
        }
        None => go_on(machine, world, next),
    }
}

// The bounds of a loop, read in the order of the language: its first index, its limit and its step.
fn read_bounds(machine: &Machine, world: &LibWorld, base: u8) -> Bounds
    requires sound { IsMachine world.now machine.now.stack }
    requires has { HasRegister machine.now.stack (base + 2) }
    ensures { (x : Focus) (replies : List Reply) → meant_bounds result ≡ read_of (no_bounds) (bounds_at base) (part world.now machine.now.code machine.now.stack x replies) }
{
    let step_at = machine.behind(base);
    let index_at = machine.behind(step_at);
    let first = machine.read(world, index_at);
    let last = machine.read(world, base);
    let each = machine.read(world, step_at);
    let index = bound(&world.names, LoopBound::Initial, first);
    let limit = bound(&world.names, LoopBound::Limit, last);
    let step = bound(&world.names, LoopBound::Step, each);
    in_order(index, limit, step)
}

// The three bounds, or the first failure.
fn in_order(
    index: Result<Whole, Failure>,
    limit: Result<Whole, Failure>,
    step: Result<Whole, Failure>,
) -> Bounds
    ensures { result ≡ in_order index limit step }
{
    match (index, limit, step) {
        (Ok(index), Ok(limit), Ok(step)) => Bounds::Range { index, limit, step },
        (Err(failure), _, _) => Bounds::Failed(failure),
        (Ok(_), Err(failure), _) => Bounds::Failed(failure),
        (Ok(_), Ok(_), Err(failure)) => Bounds::Failed(failure),
    }
}

// A bound of a loop.
fn bound(names: &Interner, which: LoopBound, v: Value) -> Result<Whole, Failure>
    requires { HasText names.now v }
    ensures { (next : ℤ → loops.Bounds) → loops.bound which (meant names.now v) (model.as_number (meant names.now v)) next ≡ bounded result next }
{
    match as_number(names, &v) {
        Read::Whole(number) => Ok(number),
        Read::NotWhole => Err(Failure::Stop(Stop::NotWhole)),
        Read::OutOfRange => Err(Failure::Stop(Stop::OutOfRange)),
        Read::NotNumber => Err(Failure::NoNumber {
            bound: which,
            got: v.kind(),
        }),
    }
}

// Writes the bounds of a loop to its registers.
fn set_range(
    machine: &mut Machine,
    world: &LibWorld,
    base: u8,
    index: Whole,
    limit: Whole,
    step: Whole,
)
    requires sound { IsMachine world.now machine.old.stack }
    requires goes { GoesOn machine.old.stack }
    requires has { HasRegister machine.old.stack (base + 2) }
    ensures written { Becomes (changed (row.with_bounds base index limit step)) world.now machine.old.code machine.old.stack world.now machine.new.stack }
    ensures sound { IsMachine world.now machine.new.stack }
    ensures frames { machine.new.stack.frames ≡ machine.old.stack.frames }
    ensures code { machine.new.code ≡ machine.old.code }
{
    set_three(
        machine,
        world,
        base,
        Value::Num(limit),
        Value::Num(step),
        Value::Num(index),
    );
}

// Whether a loop has a turn with this index.
#[tactic(auto, unfolding(value_model::specs::Loops::goes_on))]
fn goes_on(index: Whole, limit: Whole, step: Whole) -> bool
    ensures { result ≡ loops.goes_on index limit step }
{
    if step.get() > 0 {
        index.get() <= limit.get()
    } else {
        limit.get() <= index.get()
    }
}

// The index of the next turn of a loop, where it has one.
fn further(index: Whole, limit: Whole, step: Whole) -> Option<Whole>
    ensures { result ≡ further index limit step }
{
    let _from = index.get();
    let _last = limit.get();
    match index.add(step) {
        Ok(turn) => found(turn, goes_on(turn, limit, step)),
        Err(_) => None,
    }
}

// An index, where there is a turn.
fn found(turn: Whole, goes: bool) -> Option<Whole>
    ensures { result ≡ cond goes (Some turn) None }
{
    if goes { Some(turn) } else { None }
}
