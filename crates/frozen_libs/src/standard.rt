//! What every global table begins with.

ghost use Rattle.std.specs.Prelude.{◌≡◌, ◌++◌, ◌∷◌, [], List, IfOk, OnOk};
ghost use Rattle.frozen_libs.specs.Made.{ArePaths, Holds, IsBuilt, IsOpen, shared_id};
ghost use Rattle.frozen_libs.specs.Standard.{AreLibraries, core_table, opened, with_libraries};
ghost use Rattle.luau_tables.specs.Own.{AreTexts};
ghost use Rattle.luau_tables.specs.Worlds.{Extends};
ghost use Rattle.value_arena.specs.Arenas.{no_arena};
ghost use Rattle.value_model.specs.Fresh.{standard, string_metatable};
ghost use Rattle.value_model.specs.Store.{empty_table};

use crate::functions::{CORE, COROUTINE, MATH, STRING, TABLE};
use crate::making::{freeze, library, new_table, put_functions, put_named, put_table};
use crate::names::meta_names;
use byte_text::{Interner, StrId};
use luau_tables::Globals;
use resource::OutOfMemory;
use std::alloc::Global;
use value_arena::Arena;
use value_model::{TableId, Value};

// The tables of the library.
#[derive(Clone, Copy)]
pub(crate) struct Libraries {
    pub math: TableId,
    pub string: TableId,
    pub table: TableId,
    pub coroutine: TableId,
}

// The tables that no script owns, but for those of the host. The global table can still be written.
pub(crate) fn standard(
    alloc: Global,
    arena: &mut Arena,
    names: &mut Interner,
) -> Result<Globals, OutOfMemory>
    requires arena { arena.old ≡ no_arena }
    requires texts { AreTexts names.old }
    ensures built { IfOk result (λ g. IsBuilt names.new arena.new g standard) }
    ensures writable { IfOk result (λ g. IsOpen arena.new g.table) }
    ensures extends { Extends names.old names.new }
    ensures texts { AreTexts names.new }
{
    let table = new_table(arena)?;
    let string_meta = new_table(arena)?;
    let libraries = make_libraries(arena, names)?;
    index_strings(arena, names, string_meta, libraries.string)?;
    put_functions(arena, names, table, &CORE)?;
    let paths = put_libraries(alloc, arena, names, table, &libraries)?;
    let meta = meta_names(names)?;
    Ok(Globals {
        table,
        string_meta,
        paths,
        hosts: Vec::new(alloc),
        meta,
    })
}

// Makes the tables of the library.
fn make_libraries(arena: &mut Arena, names: &mut Interner) -> Result<Libraries, OutOfMemory>
    requires { AreTexts names.old }
    ensures made { Holds names.old arena.old opened → IfOk result (λ l. AreLibraries l × Holds names.new arena.new (with_libraries empty_table empty_table)) }
    ensures extends { Extends names.old names.new }
    ensures texts { AreTexts names.new }
{
    let math = library(arena, names, &MATH)?;
    let string = library(arena, names, &STRING)?;
    let table = library(arena, names, &TABLE)?;
    let coroutine = library(arena, names, &COROUTINE)?;
    Ok(Libraries {
        math,
        string,
        table,
        coroutine,
    })
}

// Fills the metatable of strings: they are indexed through their library.
fn index_strings(
    arena: &mut Arena,
    names: &mut Interner,
    string_meta: TableId,
    string: TableId,
) -> Result<(), OutOfMemory>
    requires writable { IsOpen arena.old string_meta }
    requires texts { AreTexts names.old }
    ensures made { Holds names.old arena.old (with_libraries empty_table empty_table) → string_meta ≡ shared_id 1 → string ≡ shared_id 3 → OnOk result (Holds names.new arena.new (with_libraries empty_table string_metatable)) }
    ensures extends { Extends names.old names.new }
    ensures texts { AreTexts names.new }
{
    put_named(arena, names, string_meta, b"__index", Value::Table(string))?;
    freeze(arena, string_meta);
    Ok(())
}

// Writes the tables of the library under their names, and gives the path of each.
fn put_libraries(
    alloc: Global,
    arena: &mut Arena,
    names: &mut Interner,
    t: TableId,
    libraries: &Libraries,
) -> Result<Vec<(TableId, StrId)>, OutOfMemory>
    requires writable { IsOpen arena.old t }
    requires texts { AreTexts names.old }
    ensures writable { OnOk result (IsOpen arena.new t) }
    ensures made { Holds names.old arena.old (with_libraries core_table string_metatable) → AreLibraries libraries.now → t ≡ shared_id 0 → OnOk result (Holds names.new arena.new standard.tables) }
    ensures paths { AreLibraries libraries.now → IfOk result (λ ps. ArePaths names.new ps.items standard.paths) }
    ensures extends { Extends names.old names.new }
    ensures texts { AreTexts names.new }
{
    let mut paths = Vec::new(alloc);
    put_table(arena, names, &mut paths, t, b"math", libraries.math)?;
    put_table(arena, names, &mut paths, t, b"string", libraries.string)?;
    put_table(arena, names, &mut paths, t, b"table", libraries.table)?;
    put_table(
        arena,
        names,
        &mut paths,
        t,
        b"coroutine",
        libraries.coroutine,
    )?;
    Ok(paths)
}
