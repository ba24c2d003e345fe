//! The world and its tables.

ghost use Rattle.std.specs.Prelude.{◌≡◌, ◌++◌, ◌∷◌, [], IfOk, OnOk};
ghost use Rattle.luau_tables.specs.Laws.{empty_frozen};
ghost use Rattle.luau_tables.specs.Worlds.{IsWorld, Keeps, MayUseIn};
ghost use Rattle.value_model.specs.declared.value.Value.TheVariants.{Table};

use crate::names::meta_names;
use byte_text::Interner;
use luau_tables::{Globals, LibWorld};
use resource::OutOfMemory;
use std::alloc::Global;
use value_arena::Arena;
use value_model::{Owner, TableId};

/// A world of the script with the number 0, with nothing but the global table and the metatable of strings.
pub fn first_world(alloc: Global) -> Result<LibWorld, OutOfMemory>
    ensures { IfOk result IsWorld }
{
    let mut names = Interner::new(alloc);
    let meta = meta_names(&mut names)?;
    let mut arena = Arena::new(alloc);
    let table = arena.new_table(Owner::Frozen)?;
    arena.freeze(table);
    let string_meta = arena.new_table(Owner::Frozen)?;
    arena.freeze(string_meta);
    Ok(LibWorld {
        arena,
        names,
        owner: Owner::Script(0),
        globals: Globals {
            table,
            string_meta,
            paths: Vec::new(alloc),
            hosts: Vec::new(alloc),
            meta,
        },
    })
}

/// A new table of the script.
pub fn add_table(world: &mut LibWorld) -> Result<TableId, OutOfMemory>
    requires { IsWorld world.old }
    ensures usable { IfOk result (λ t. MayUseIn world.new (Table t)) }
    ensures keeps { Keeps world.old world.new }
{
    world.arena.new_table(world.owner)
}
