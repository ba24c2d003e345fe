ghost use Rattle.std.specs.Prelude.{◌≡◌, slice_get, IfOk, IfSome, Some};
ghost use Rattle.luau_tables.specs.Worlds.{IsWorld};
ghost use Rattle.value_arena.specs.Arenas.{HasTable};
ghost use Rattle.value_model.specs.declared.value.Value.{Value};
ghost use Rattle.value_model.specs.declared.value.Value.TheVariants as variant;

use crate::listings::{GLOBAL, LIBRARIES, STRING_META};
use crate::trees::no_names;
use byte_text::Interner;
use frozen_libs::build;
use luau_tables::{LibWorld, plain_into};
use std::alloc::Global;
use std::process::Abort;
use std::test::Fail;
use value_arena::{Arena, Table};
use value_model::{Owner, TableId, Value};

// The world of a script without objects of its own, where the host gives nothing.
fn first_world(alloc: Global) -> Result<LibWorld, Fail>
    ensures { IfOk result IsWorld }
{
    let host = no_names(alloc)?;
    let mut arena = Arena::new(alloc);
    let mut names = Interner::new(alloc);
    let globals = build(alloc, &mut arena, &mut names, &host)?;
    Ok(LibWorld {
        arena,
        names,
        owner: Owner::Script(0),
        globals,
    })
}

// What stands in a table, line by line.
fn listing(alloc: Global, world: &LibWorld, t: TableId) -> Result<Vec<u8>, Fail>
    requires { HasTable world.now.arena t }
{
    let table = world.arena.table(t);
    let mut out = Vec::new(alloc);
    for place in 0..table.len() {
        let (key, value) = table.at(place);
        plain_into(&world.arena, &world.names, &world.globals, key, &mut out)?;
        out.extend_from_slice(b" = ")?;
        plain_into(&world.arena, &world.names, &world.globals, value, &mut out)?;
        out.push(b'\n')?;
    }
    Ok(out)
}

// The table in the entry at a place.
fn table_in(table: &Table, place: usize) -> Option<TableId>
    ensures { IfSome result (λ t. (key : Value) × (slice_get table.now.entries place ≡ Some (key, variant.Table t))) }
{
    if place >= table.len() {
        return None;
    }
    match table.at(place) {
        (_, Value::Table(t)) => Some(t),
        _ => None,
    }
}

// The table at a place of the global table.
fn library(world: &LibWorld, place: usize) -> Result<TableId, Fail>
    requires { IsWorld world.now }
    ensures { IfOk result (λ t. HasTable world.now.arena t) }
{
    let table = world.arena.table(world.globals.table);
    let t = table_in(table, place).ok_or("no table")?;
    Ok(t)
}

// Compares a table, which has to be frozen and without a metatable.
fn compare(
    rt: &(impl AllocGlobal + Abort),
    world: &LibWorld,
    t: TableId,
    wanted: &str,
) -> Result<(), Fail>
    requires { HasTable world.now.arena t }
{
    let table = world.arena.table(t);
    assert!(rt; table.is_frozen());
    assert!(rt; table.meta().is_none());
    let text = listing(rt.alloc(), world, t)?;
    assert_eq!(rt; text.as_slice(), wanted.as_bytes());
    Ok(())
}

// Compares all tables.
fn compare_all(rt: &(impl AllocGlobal + Abort), world: &LibWorld) -> Result<(), Fail>
    requires { IsWorld world.now }
{
    compare(rt, world, world.globals.table, GLOBAL)?;
    compare(rt, world, world.globals.string_meta, STRING_META)?;
    for (place, wanted) in &LIBRARIES {
        let t = library(world, *place)?;
        compare(rt, world, t, wanted)?;
    }
    Ok(())
}

#[test]
fn tables_of_the_library(rt: HostRuntime) -> Result<(), Fail> {
    let world = first_world(rt.alloc())?;
    assert_eq!(rt; world.globals.hosts.len(), 0);
    assert_eq!(rt; world.globals.paths.len(), 4);
    compare_all(&rt, &world)
}
