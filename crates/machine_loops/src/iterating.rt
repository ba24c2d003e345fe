//! What a generic loop asks.

ghost use Rattle.std.specs.Prelude.{◌≡◌, ℕ, List};
ghost use Rattle.value_model.specs.Loops as loops;
ghost use Rattle.value_model.specs.Parts.{meant, table_ref};
ghost use Rattle.value_model.specs.declared.value.Value.TheVariants.{Table};
ghost use Rattle.luau_tables.specs.Worlds.{IsWorld, MayUseIn, store_in};
ghost use Rattle.machine_loops.specs.Iterations.{meant_iteration, IsUsable};

use lib_arguments::{metatable, said_by};
use luau_tables::LibWorld;
use value_model::{Builtin, RunErr, TableId, Value};

/// What a generic loop asks for its values.
#[derive(Clone, Copy)]
pub enum LoopStart {
    /// A generator, with a state and a first control value.
    Generates {
        generator: Value,
        state: Value,
        control: Value,
    },
    /// The value's `__iter`, which gives these three.
    Calls(Value),
    Fails(RunErr),
}

/// What a loop over three values asks: a function is the generator; a table's `__iter` gives the three, and without one a table is the
/// generator where it can be called, or else is gone through by `next`. Any other value is a run error.
pub(crate) fn iteration(
    world: &LibWorld,
    generator: Value,
    state: Value,
    control: Value,
) -> LoopStart
    requires world { IsWorld world.now }
    requires generator { MayUseIn world.now generator }
    requires state { MayUseIn world.now state }
    requires control { MayUseIn world.now control }
    ensures meant { meant_iteration world.now.names generator result ≡ loops.iteration (store_in world.now) (meant world.now.names generator) (meant world.now.names state) (meant world.now.names control) }
    ensures usable { IsUsable world.now result }
{
    match generator {
        Value::Table(table) => of_table(world, table, state, control),
        Value::Closure(_) | Value::Native(_) | Value::Host(_) | Value::Wrap(_) => {
            LoopStart::Generates {
                generator,
                state,
                control,
            }
        }
        _ => LoopStart::Fails(RunErr::IterateOver {
            operand: generator.kind(),
        }),
    }
}

// What a loop over a table asks.
fn of_table(world: &LibWorld, table: TableId, state: Value, control: Value) -> LoopStart
    requires world { IsWorld world.now }
    requires table { MayUseIn world.now (Table table) }
    requires state { MayUseIn world.now state }
    requires control { MayUseIn world.now control }
    ensures meant { meant_iteration world.now.names (Table table) result ≡ loops.iteration (store_in world.now) (meant world.now.names (Table table)) (meant world.now.names state) (meant world.now.names control) }
    ensures usable { IsUsable world.now result }
{
    let value = Value::Table(table);
    let meta = metatable(world, &value);
    let iter = said_by(world, meta, world.globals.meta.iter);
    let call = said_by(world, meta, world.globals.meta.call);
    over(iter, call, table, state, control)
}

// By what the table's metatable says.
fn over(iter: Value, call: Value, table: TableId, state: Value, control: Value) -> LoopStart
    ensures meant { (texts : List (List ℕ)) → meant_iteration texts (Table table) result ≡ loops.over (meant texts iter) (meant texts call) (table_ref table) (meant texts state) (meant texts control) }
    ensures usable { (w : LibWorld) → MayUseIn w iter → MayUseIn w (Table table) → MayUseIn w state → MayUseIn w control → IsUsable w result }
{
    match iter {
        Value::Nil => over_table(call, table, state, control),
        _ => LoopStart::Calls(iter),
    }
}

// Without `__iter`.
fn over_table(call: Value, table: TableId, state: Value, control: Value) -> LoopStart
    ensures meant { (texts : List (List ℕ)) → meant_iteration texts (Table table) result ≡ loops.over_table (meant texts call) (table_ref table) (meant texts state) (meant texts control) }
    ensures usable { (w : LibWorld) → MayUseIn w (Table table) → MayUseIn w state → MayUseIn w control → IsUsable w result }
{
    match call {
        Value::Nil => LoopStart::Generates {
            generator: Value::Native(Builtin::Next),
            state: Value::Table(table),
            control: Value::Nil,
        },
        _ => LoopStart::Generates {
            generator: Value::Table(table),
            state,
            control,
        },
    }
}
