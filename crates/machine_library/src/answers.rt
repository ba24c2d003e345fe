//! What the library answers to calls of its functions.

ghost use Rattle.std.specs.Prelude.{◌≡◌, ◌<◌, true, length, map, IfOk, OnErr};
ghost use Rattle.std.specs.List.{AllByRecursion};
ghost use Rattle.value_model.specs.Library as model;
ghost use Rattle.value_model.specs.Parts.{meant};
ghost use Rattle.value_model.specs.Waits.{Elsewise};
ghost use Rattle.luau_tables.specs.Answers.{Answered, meant_continue, raised_by};
ghost use Rattle.luau_tables.specs.Worlds.{IsWorld, Keeps, MayUseIn, store_in};
ghost use Rattle.machine_world.specs.Sound.{AsksForTexts};
ghost use Rattle.machine_library.specs.Homes.{is_library};
ghost use Rattle.machine_library.specs.Leads.{IsAsking};

use crate::homes::{Home, home_of};
use luau_tables::{LibAnswer, LibWorld};
use resource::OutOfMemory;
use std::alloc::Global;
use value_model::{Builtin, Continue, Value};

/// Calls a function that the library answers by itself. The values that it gives are appended to `results`.
///
/// In every other case none are, and all in the world stays. Where memory is wanted, the script can still use the world, though it
/// may have gained texts and an edit may be half done.
pub(crate) fn answer(
    alloc: Global,
    builtin: Builtin,
    args: &[Value],
    world: &mut LibWorld,
    results: &mut Vec<Value>,
) -> Result<LibAnswer, OutOfMemory>
    requires builtin { is_library builtin ≡ true }
    requires world { IsWorld world.old }
    requires args { AllByRecursion (MayUseIn world.old) args.now }
    ensures answered { IfOk result (λ a. Answered world.old world.new results.old.items results.new.items a (raised_by builtin (map (meant world.old.names) args.now)) (model.lib builtin (map (meant world.old.names) args.now) (store_in world.old))) }
    ensures asks { IfOk result IsAsking }
    ensures err { OnErr result (results.new.items ≡ results.old.items) }
    ensures keeps { Keeps world.old world.new }
{
    match home_of(builtin) {
        Home::Core => lib_core::call(alloc, builtin, args, world, results),
        Home::Strings => lib_string::call(alloc, builtin, args, world, results),
        Home::Tables => lib_math_table::call(builtin, args, world, results),
        Home::Machine => unreachable!(),
    }
}

/// Goes on with a function that asked for a text, with the first value that the call gave.
///
/// It answers as `answer` does.
pub(crate) fn go_on(
    alloc: Global,
    rest: Continue,
    given: Value,
    world: &mut LibWorld,
    results: &mut Vec<Value>,
) -> Result<LibAnswer, OutOfMemory>
    requires builtin { AsksForTexts rest.builtin }
    requires place { rest.at < length rest.args.items }
    requires world { IsWorld world.old }
    requires args { AllByRecursion (MayUseIn world.old) rest.args.items }
    requires given { MayUseIn world.old given }
    ensures answered { IfOk result (λ a. Answered world.old world.new results.old.items results.new.items a Elsewise (model.go_on (meant_continue world.old.names rest) (meant world.old.names given) (store_in world.old))) }
    ensures asks { IfOk result IsAsking }
    ensures err { OnErr result (results.new.items ≡ results.old.items) }
    ensures keeps { Keeps world.old world.new }
{
    match rest.builtin {
        Builtin::StringFormat => lib_string::go_on(alloc, rest, given, world, results),
        _ => lib_core::go_on(alloc, rest, given, world, results),
    }
}
