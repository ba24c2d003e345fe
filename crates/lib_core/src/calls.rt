//! Calls of the functions of the global table.

ghost use Rattle.std.specs.Prelude.{◌≡◌, map, IfOk, OnErr};
ghost use Rattle.std.specs.List.{AllByRecursion};
ghost use Rattle.value_model.specs.Library.{lib};
ghost use Rattle.value_model.specs.Parts.{meant};
ghost use Rattle.luau_tables.specs.Answers.{Answered, raised_by};
ghost use Rattle.luau_tables.specs.Worlds.{IsWorld, Keeps, MayUseIn, store_in};
ghost use Rattle.lib_arguments.specs.Rows.{Runs};
ghost use Rattle.lib_arguments.specs.AtOnce.{AtOnce};
ghost use Rattle.lib_core.specs.Builtins.{IsAsker, IsCore, IsReader};

use crate::kinds::{kind_name, tonumber};
use crate::metatable::{getmetatable, setmetatable};
use crate::raise::{assert, error};
use crate::raw::{rawequal, rawget, rawlen, rawset};
use crate::select::select;
use crate::texts::{print, tostring};
use crate::walk::{ipairs, ipairs_iterator, next_entry, pairs};
use lib_arguments::{Ending, answer};
use luau_tables::{LibAnswer, LibWorld};
use resource::OutOfMemory;
use std::alloc::Global;
use value_model::{Builtin, Value};

/// Calls a function of the global table: `print`, `type`, `typeof`, `tostring`, `tonumber`, `assert`, `error`, `select`, `next`,
/// `pairs`, `ipairs` and its iterator, `rawget`, `rawset`, `rawequal`, `rawlen`, `getmetatable` or `setmetatable`.
///
/// The values that it gives are appended to `results`. In every other case none are, and all in the world stays. Where memory is
/// wanted, the script can still use the world, though it may have gained a text. Only `print` and `tostring` ask for calls.
pub fn call(
    alloc: Global,
    builtin: Builtin,
    args: &[Value],
    world: &mut LibWorld,
    results: &mut Vec<Value>,
) -> Result<LibAnswer, OutOfMemory>
    requires builtin { IsCore builtin }
    requires world { IsWorld world.old }
    requires args { AllByRecursion (MayUseIn world.old) args.now }
    ensures answered { IfOk result (λ a. Answered world.old world.new results.old.items results.new.items a (raised_by builtin (map (meant world.old.names) args.now)) (lib builtin (map (meant world.old.names) args.now) (store_in world.old))) }
    ensures at_once { (IsAsker builtin → ⊥) → IfOk result AtOnce }
    ensures err { OnErr result (results.new.items ≡ results.old.items) }
    ensures keeps { Keeps world.old world.new }
{
    match builtin {
        Builtin::Print => print(alloc, args, world),
        Builtin::Tostring => tostring(alloc, args, world, results),
        Builtin::Assert => assert(args, world, results),
        Builtin::Error => Ok(error(args, world, results)),
        Builtin::Rawset => answer(rawset(args, world, results)),
        Builtin::Setmetatable => answer(setmetatable(args, world, results)),
        Builtin::Type => answer(kind_name(Builtin::Type, args, world, results)),
        Builtin::Typeof => answer(kind_name(Builtin::Typeof, args, world, results)),
        _ => answer(read(alloc, builtin, args, world, results)),
    }
}

// Calls a function that changes nothing.
fn read(
    alloc: Global,
    builtin: Builtin,
    args: &[Value],
    world: &LibWorld,
    results: &mut Vec<Value>,
) -> Result<(), Ending>
    requires builtin { IsReader builtin }
    requires world { IsWorld world.now }
    requires args { AllByRecursion (MayUseIn world.now) args.now }
    ensures { Runs world.now world.now results.old.items results.new.items result (lib builtin (map (meant world.now.names) args.now) (store_in world.now)) }
{
    match builtin {
        Builtin::Tonumber => tonumber(alloc, args, world, results),
        Builtin::Select => select(args, world, results),
        Builtin::Next => next_entry(args, world, results),
        Builtin::Pairs => pairs(args, world, results),
        Builtin::Ipairs => ipairs(args, world, results),
        Builtin::IpairsIterator => ipairs_iterator(args, world, results),
        Builtin::Rawget => rawget(args, world, results),
        Builtin::Rawequal => rawequal(args, world, results),
        Builtin::Rawlen => rawlen(args, world, results),
        Builtin::Getmetatable => getmetatable(args, world, results),
        _ => unreachable!(),
    }
}
