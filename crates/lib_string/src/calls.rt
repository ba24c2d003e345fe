//! Calls by builtin.

ghost use Rattle.std.specs.Prelude.{◌≡◌, ◌<◌, length, map, IfOk, OnErr};
ghost use Rattle.lib_arguments.specs.AtOnce.{AtOnce};
ghost use Rattle.lib_arguments.specs.Rows.{Runs};
ghost use Rattle.lib_string.specs.Answering.{closed};
ghost use Rattle.lib_string.specs.Builtins.{IsOfString};
ghost use Rattle.lib_string.specs.Reading.{MayUseAll};
ghost use Rattle.luau_tables.specs.Answers.{meant_continue, raised_by, Answered};
ghost use Rattle.luau_tables.specs.Worlds.{IsWorld, Keeps, MayUseIn, store_in};
ghost use Rattle.value_model.specs.Library as library;
ghost use Rattle.value_model.specs.Parts.{meant};
ghost use Rattle.value_model.specs.Waits.{Elsewise};
ghost use Rattle.value_model.specs.declared.builtin.Builtin.TheVariants.{StringFormat};

use crate::characters::{byte, char_of};
use crate::format::{format, format_on};
use crate::repetition::rep;
use crate::split::split;
use crate::whole::{change, len, sub};
use lib_arguments::{Ending, answer};
use luau_tables::{LibAnswer, LibWorld};
use resource::OutOfMemory;
use std::alloc::Global;
use value_model::{Builtin, Continue, Value};

/// Calls a string function. What it gives is appended to `results`. Only `format` asks for calls.
///
/// After want of memory no values have come, and nothing but texts and tables of the script may have come to the world.
pub fn call(
    alloc: Global,
    builtin: Builtin,
    args: &[Value],
    world: &mut LibWorld,
    results: &mut Vec<Value>,
) -> Result<LibAnswer, OutOfMemory>
    requires builtin { IsOfString builtin }
    requires world { IsWorld world.old }
    requires args { MayUseAll world.old args.now }
    ensures answered { IfOk result (λ answer. Answered world.old world.new results.old.items results.new.items answer (raised_by builtin (map (meant world.old.names) args.now)) (library.lib builtin (map (meant world.old.names) args.now) (store_in world.old))) }
    ensures at_once { (builtin ≡ StringFormat → ⊥) → IfOk result AtOnce }
    ensures err { OnErr result (results.new.items ≡ results.old.items) }
    ensures keeps { Keeps world.old world.new }
{
    match builtin {
        Builtin::StringFormat => closing(format(alloc, args, world, results)),
        _ => answer(run(alloc, builtin, args, world, results)),
    }
}

/// Goes on with `format`, with the first value that a `__tostring` gave.
///
/// After want of memory it is as for `call`.
pub fn go_on(
    alloc: Global,
    then: Continue,
    answer: Value,
    world: &mut LibWorld,
    results: &mut Vec<Value>,
) -> Result<LibAnswer, OutOfMemory>
    requires builtin { then.builtin ≡ StringFormat }
    requires place { then.at < length then.args.items }
    requires world { IsWorld world.old }
    requires args { MayUseAll world.old then.args.items }
    requires answer { MayUseIn world.old answer }
    ensures answered { IfOk result (λ a. Answered world.old world.new results.old.items results.new.items a Elsewise (library.go_on (meant_continue world.old.names then) (meant world.old.names answer) (store_in world.old))) }
    ensures err { OnErr result (results.new.items ≡ results.old.items) }
    ensures keeps { Keeps world.old world.new }
{
    closing(format_on(alloc, &then, answer, world, results))
}

// Runs a function other than `format`.
fn run(
    alloc: Global,
    builtin: Builtin,
    args: &[Value],
    world: &mut LibWorld,
    results: &mut Vec<Value>,
) -> Result<(), Ending>
    requires builtin { IsOfString builtin }
    requires plain { (builtin ≡ StringFormat) → ⊥ }
    requires world { IsWorld world.old }
    requires args { MayUseAll world.old args.now }
    ensures runs { Runs world.old world.new results.old.items results.new.items result (library.lib builtin (map (meant world.old.names) args.now) (store_in world.old)) }
    ensures keeps { Keeps world.old world.new }
{
    match builtin {
        Builtin::StringByte => byte(alloc, args, world, results),
        Builtin::StringChar => char_of(alloc, args, world, results),
        Builtin::StringLen => len(alloc, args, world, results),
        Builtin::StringSub => sub(alloc, args, world, results),
        Builtin::StringRep => rep(alloc, args, world, results),
        Builtin::StringSplit => split(alloc, args, world, results),
        _ => change(alloc, builtin, args, world, results),
    }
}

// The answer of a function that ends so.
fn closing(done: Result<LibAnswer, Ending>) -> Result<LibAnswer, OutOfMemory>
    ensures { result ≡ closed done }
{
    match done {
        Ok(given) => Ok(given),
        Err(ending) => answer(Err(ending)),
    }
}
