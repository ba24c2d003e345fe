//! What a script has when it starts.

ghost use Rattle.std.specs.Prelude.{◌≡◌, ◌<◌, length, IfOk, OnOk};
ghost use Rattle.luau_tables.specs.Worlds.{MayUseIn};
ghost use Rattle.value_arena.specs.Arenas.{slot, with_objects};
ghost use Rattle.value_model.specs.declared.value.Value.TheVariants.{Closure};
ghost use Rattle.machine_world.specs.Parts.{environment_id};
ghost use Rattle.machine_load.specs.Beginning.{HasStarted, IsBare, begun, first_tables, main_id};

use luau_tables::{LibWorld, set_meta, write};
use resource::OutOfMemory;
use std::alloc::Global;
use value_model::{ClosureId, TableId, Value};

/// Makes the environment of a script that has no objects, the metatable of that, the main function, whose code has this number, and what
/// stands for that function's own run.
pub(crate) fn begin(
    alloc: Global,
    world: &mut LibWorld,
    main: usize,
) -> Result<ClosureId, OutOfMemory>
    requires { IsBare world.old }
    ensures started { IfOk result (λ _. HasStarted world.old world.new main) }
    ensures main { IfOk result (λ f. f.place ≡ 0) }
    ensures usable { IfOk result (λ f. MayUseIn world.new (Closure f)) }
{
    let function = make(alloc, world, main)?;
    Ok(function)
}

// Makes all these, one after another.
fn make(alloc: Global, world: &mut LibWorld, main: usize) -> Result<ClosureId, OutOfMemory>
    requires { IsBare world.old }
    ensures made { OnOk result (world.new ≡ record world.old { arena = begun world.old main }) }
    ensures main { IfOk result (λ f. f ≡ main_id world.old.owner) }
    ensures room { OnOk result (slot world.old.owner < length world.old.arena.owners) }
{
    let environment = make_tables(world)?;
    world.arena.set_mark(environment, true);
    let cells = Vec::new(alloc);
    let function = world
        .arena
        .new_closure(world.owner, main, environment, cells)?;
    world
        .arena
        .new_thread(world.owner, Value::Closure(function))?;
    Ok(function)
}

// Makes the environment, which has a metatable and no mark yet.
fn make_tables(world: &mut LibWorld) -> Result<TableId, OutOfMemory>
    requires { IsBare world.old }
    ensures made { OnOk result (world.new ≡ record world.old { arena = with_objects world.old.arena world.old.owner (first_tables world.old.owner world.old.globals) }) }
    ensures environment { IfOk result (λ t. t ≡ environment_id world.old.owner) }
    ensures room { OnOk result (slot world.old.owner < length world.old.arena.owners) }
{
    let environment = world.arena.new_table(world.owner)?;
    let metatable = world.arena.new_table(world.owner)?;
    let index = Value::Str(world.globals.meta.index);
    let globals = Value::Table(world.globals.table);
    match write(&mut world.arena, metatable, index, globals) {
        Ok(()) => {}
        Err(_) => return Err(OutOfMemory),
    }
    world.arena.freeze(metatable);
    match set_meta(&mut world.arena, environment, Some(metatable)) {
        Ok(()) => Ok(environment),
        Err(_) => Err(OutOfMemory),
    }
}
