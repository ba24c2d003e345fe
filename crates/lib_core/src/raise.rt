//! Errors.

ghost use Rattle.std.specs.Prelude.{◌≡◌, map, IfOk, OnErr};
ghost use Rattle.std.specs.List.{AllByRecursion};
ghost use Rattle.value_model.specs.CoreRows as core;
ghost use Rattle.value_model.specs.Parts.{meant};
ghost use Rattle.luau_tables.specs.Worlds.{IsWorld, Keeps, MayUseIn, store_in};
ghost use Rattle.luau_tables.specs.Answers.{Answered, raised_by};
ghost use Rattle.value_model.specs.declared.builtin.Builtin.TheVariants as builtin;

use lib_arguments::{answer, any_at, argument_at, argument_or_nil, give_all};
use luau_tables::{LibAnswer, LibWorld};
use resource::OutOfMemory;
use value_model::{Builtin, RunErr, Value, truthy};

pub(crate) fn assert(
    args: &[Value],
    world: &LibWorld,
    results: &mut Vec<Value>,
) -> Result<LibAnswer, OutOfMemory>
    requires world { IsWorld world.now }
    requires args { AllByRecursion (MayUseIn world.now) args.now }
    ensures answered { IfOk result (λ a. Answered world.now world.now results.old.items results.new.items a (raised_by builtin.Assert (map (meant world.now.names) args.now)) (core.assert_row (map (meant world.now.names) args.now) (store_in world.now))) }
    ensures err { OnErr result (results.new.items ≡ results.old.items) }
{
    let v = match any_at(Builtin::Assert, 0, args) {
        Ok(v) => v,
        Err(e) => return answer(Err(e)),
    };
    if truthy(v) {
        return answer(give_all(results, args));
    }
    match argument_at(args, 1) {
        Some(message) => Ok(LibAnswer::Raise(message)),
        None => Ok(LibAnswer::RunError(RunErr::AssertionFailed)),
    }
}

pub(crate) fn error(args: &[Value], world: &LibWorld, results: &mut Vec<Value>) -> LibAnswer
    requires world { IsWorld world.now }
    requires args { AllByRecursion (MayUseIn world.now) args.now }
    ensures answered { Answered world.now world.now results.old.items results.new.items result (raised_by builtin.Error (map (meant world.now.names) args.now)) (core.error_row (map (meant world.now.names) args.now) (store_in world.now)) }
    ensures same { results.new.items ≡ results.old.items }
{
    LibAnswer::Raise(argument_or_nil(args, 0))
}
