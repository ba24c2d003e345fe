//! The beginning of a generic loop.

ghost use Rattle.std.specs.Prelude.{◌≡◌, ◌+◌, ◌∷◌, [], ℕ, List};
ghost use Rattle.op_words.specs.Chunks.{ChunkOf};
ghost use Rattle.op_words.specs.declared.insn.Insn.TheVariants.{ForGPrep};
ghost use Rattle.luau_tables.specs.Worlds.{MayUseIn};
ghost use Rattle.value_model.specs.Parts.{meant};
ghost use Rattle.machine_meaning.specs.Effects.{with_generator};
ghost use Rattle.machine_meaning.specs.Instructions.{row};
ghost use Rattle.machine_world.specs.Parts.{Becomes, changed};
ghost use Rattle.machine_world.specs.Rows.{place_here};
ghost use Rattle.machine_world.specs.Sound.{IsMachine, HasRegister, GoesOn, Ahead};
ghost use Rattle.machine_rows.specs.Leading.{Does, IsNext};
ghost use Rattle.machine_rows.specs.declared.next.Next.TheVariants.{Calls};
ghost use Rattle.value_model.specs.declared.value.Value.TheVariants.{Nil};

use crate::iterating::{LoopStart, iteration};
use call_frames::ReturnKind;
use luau_tables::LibWorld;
use machine_rows::Next;
use machine_world::Machine;
use value_model::Value;

/// Begins a generic loop over the values of three registers, from one on: writes there the generator, its state and the first control value,
/// and jumps to where the loop asks; or asks a table's `__iter` for the three.
pub fn begin_loop(machine: &mut Machine, world: &LibWorld, base: u8, by: i16, next: usize) -> Next
    requires sound { IsMachine world.now machine.old.stack }
    requires goes { GoesOn machine.old.stack }
    requires has { HasRegister machine.old.stack (base + 2) }
    requires ahead { Ahead (place_here machine.old.stack) by }
    ensures makes { (chunk : ChunkOf) (words : List ℕ) → Does chunk (row chunk words (ForGPrep base by) next) world.now machine.old.code machine.old.stack 0 result world.now machine.new.stack }
    ensures sound { IsMachine world.now machine.new.stack }
    ensures next { IsNext world.now machine.new.stack result }
    ensures code { machine.new.code ≡ machine.old.code }
{
    let state_at = machine.behind(base);
    let control_at = machine.behind(state_at);
    let asked = machine.read(world, base);
    let state = machine.read(world, state_at);
    let control = machine.read(world, control_at);
    match iteration(world, asked, state, control) {
        LoopStart::Generates {
            generator,
            state,
            control,
        } => {
            set_three(machine, world, base, generator, state, control);
            machine.jump_where(world, true, by, next);
            Next::Continues
        }
        LoopStart::Calls(callee) => {
            machine.wait(world, ReturnKind::Iterate { base, by });
            call_one(&callee, &asked)
        }
        LoopStart::Fails(e) => Next::Fails(e),
    }
}

// A call with one argument.
fn call_one(callee: &Value, argument: &Value) -> Next
    ensures { result ≡ Calls callee.now (argument.now ∷ Nil ∷ Nil ∷ []) 1 }
{
    Next::Calls {
        callee: *callee,
        args: [*argument, Value::Nil, Value::Nil],
        count: 1,
    }
}

// Writes three registers, from one on.
fn set_three(
    machine: &mut Machine,
    world: &LibWorld,
    base: u8,
    generator: Value,
    state: Value,
    control: Value,
)
    requires sound { IsMachine world.now machine.old.stack }
    requires has { HasRegister machine.old.stack (base + 2) }
    requires generator { MayUseIn world.now generator }
    requires state { MayUseIn world.now state }
    requires control { MayUseIn world.now control }
    ensures written { Becomes (changed (with_generator base (meant world.now.names generator) (meant world.now.names state) (meant world.now.names control))) world.now machine.old.code machine.old.stack world.now machine.new.stack }
    ensures sound { IsMachine world.now machine.new.stack }
    ensures frames { machine.new.stack.frames ≡ machine.old.stack.frames }
    ensures code { machine.new.code ≡ machine.old.code }
{
    let state_at = machine.behind(base);
    let control_at = machine.behind(state_at);
    machine.write(world, base, generator);
    machine.write(world, state_at, state);
    machine.write(world, control_at, control);
}
