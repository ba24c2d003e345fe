//! What `print` and `tostring` do with the text that a handler gave.

ghost use Rattle.std.specs.Prelude.{◌≡◌, ◌<◌, ◌++◌, List, length, map, drop, suc, IfOk, OnErr};
ghost use Rattle.std.specs.List.{AllByRecursion};
ghost use Rattle.value_model.specs.CoreRows as core;
ghost use Rattle.value_model.specs.Library as model;
ghost use Rattle.value_model.specs.Parts.{bytes_at, meant};
ghost use Rattle.value_model.specs.Waits as wait;
ghost use Rattle.value_model.specs.declared.value.Value.{Value};
ghost use Rattle.value_model.specs.declared.value.Value.TheVariants.{Str};
ghost use Rattle.luau_tables.specs.Answers.{Answered, meant_continue};
ghost use Rattle.luau_tables.specs.Worlds.{IsWorld, Keeps, MayUseIn, store_in};
ghost use Rattle.lib_core.specs.Builtins.{IsAsker};

use crate::texts::print_from;
use byte_text::StrId;
use lib_arguments::{answer, give};
use luau_tables::{LibAnswer, LibWorld};
use resource::OutOfMemory;
use std::alloc::Global;
use value_model::{Builtin, Continue, RunErr, Value};

/// Goes on with `print` or `tostring`, which asked for the text of an argument: with the first value that the call gave.
///
/// It answers as `call` does. A value that is no string is an error.
pub fn go_on(
    alloc: Global,
    then: Continue,
    given: Value,
    world: &mut LibWorld,
    results: &mut Vec<Value>,
) -> Result<LibAnswer, OutOfMemory>
    requires builtin { IsAsker then.builtin }
    requires place { then.at < length then.args.items }
    requires world { IsWorld world.old }
    requires args { AllByRecursion (MayUseIn world.old) then.args.items }
    requires given { MayUseIn world.old given }
    ensures answered { IfOk result (λ a. Answered world.old world.new results.old.items results.new.items a wait.Elsewise (model.go_on (meant_continue world.old.names then) (meant world.old.names given) (store_in world.old))) }
    ensures err { OnErr result (results.new.items ≡ results.old.items) }
    ensures keeps { Keeps world.old world.new }
{
    match given {
        Value::Str(text) => match then.builtin {
            Builtin::Print => print_on(alloc, &then, text, world),
            _ => answer(give(results, Value::Str(text))),
        },
        _ => Ok(LibAnswer::RunError(RunErr::NotStringByTostring)),
    }
}

// The line of a `print`, behind the argument whose text this is.
fn print_on(
    alloc: Global,
    then: &Continue,
    text: StrId,
    world: &LibWorld,
) -> Result<LibAnswer, OutOfMemory>
    requires place { then.now.at < length then.now.args.items }
    requires world { IsWorld world.now }
    requires args { AllByRecursion (MayUseIn world.now) then.now.args.items }
    requires text { text.0 < length world.now.names }
    ensures { IfOk result (λ a. (rs : List Value) → Answered world.now world.now rs rs a wait.Elsewise (core.prints (store_in world.now) (map (meant world.now.names) then.now.args.items) (suc then.now.at) (then.now.text ++ bytes_at world.now.names text.0) (drop (suc then.now.at) (map (meant world.now.names) then.now.args.items)))) }
{
    let mut line = Vec::from_slice(alloc, then.text.as_slice())?;
    line.extend_from_slice(world.names.bytes(text))?;
    print_from(alloc, then.args.as_slice(), then.at + 1, line, world)
}
