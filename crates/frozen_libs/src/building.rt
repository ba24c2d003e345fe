//! All that is made.

ghost use Rattle.std.specs.Prelude.{◌≡◌, IfErr, IfOk, Ok};
ghost use Rattle.frozen_libs.specs.Frozen.{Starts, IsUnowned};
ghost use Rattle.frozen_libs.specs.HostForm.{host_form};
ghost use Rattle.frozen_libs.specs.Refusals.{IsRefusal};
ghost use Rattle.luau_tables.specs.Own.{AreTexts};
ghost use Rattle.luau_tables.specs.Worlds.{Extends};
ghost use Rattle.value_arena.specs.Arenas.{no_arena};
ghost use Rattle.value_model.specs.Fresh.{HostFields, NoField, fresh};

use crate::error::HostErr;
use crate::making::freeze;
use crate::standard::standard;
use byte_text::Interner;
use luau_tables::Globals;
use std::alloc::Global;
use syntax_tree::Tree;
use value_arena::Arena;

/// Makes the tables that all scripts share, in an arena without objects: the global table, those of the library, those that a host file
/// gives, and the metatable of strings. All are frozen, and no script owns them.
///
/// `host` is the tree of the host file, whose texts are numbered by `names`. So far it is one without names, `return {}`.
///
/// No script owns anything then, no table is marked and no coroutine runs. A script that owns nothing yet sees what the definition of a script's start says, and can come to nothing but what it owns and what
/// nobody owns. After a refusal nothing is known of the arena. The interner gains texts, and those that it held keep their numbers.
pub fn build(
    alloc: Global,
    arena: &mut Arena,
    names: &mut Interner,
    _host: &Tree,
) -> Result<Globals, HostErr>
    requires arena { arena.old ≡ no_arena }
    requires texts { AreTexts names.old }
    requires host { (host_form names.old _host.now).top ≡ Ok NoField }
    ensures starts { (fields : HostFields) → (host_form names.old _host.now).top ≡ Ok fields → IfOk result (λ g. Starts names.new g arena.new (fresh fields)) }
    ensures unowned { IfOk result (λ _. IsUnowned arena.new) }
    ensures refusal { IfErr result (IsRefusal names.old _host.now) }
    ensures extends { Extends names.old names.new }
    ensures texts { AreTexts names.new }
{
    let globals = standard(alloc, arena, names)?;
    freeze(arena, globals.table);
    Ok(globals)
}
