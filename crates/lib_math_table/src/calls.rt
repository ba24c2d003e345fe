//! Calls of the functions of `math` and `table`.

ghost use Rattle.std.specs.Prelude.{◌≡◌, ◌⊎◌, ◌↔◌, IsTrue, map, IfOk, OnErr};
ghost use Rattle.std.specs.List.{AllByRecursion};
ghost use Rattle.value_model.specs.Library.{lib};
ghost use Rattle.value_model.specs.Parts.{meant};
ghost use Rattle.luau_tables.specs.Answers.{Answered, raised_by};
ghost use Rattle.luau_tables.specs.Worlds.{IsWorld, Keeps, MayUseIn, store_in};
ghost use Rattle.lib_arguments.specs.AtOnce.{AtOnce};
ghost use Rattle.lib_arguments.specs.Rows.{Runs};
ghost use Rattle.lib_math_table.specs.Builtins.{IsMath, IsTable};

use crate::cloning::clone_table;
use crate::edits::{insert, remove};
use crate::joining::concat;
use crate::making::{create, pack};
use crate::math::{absolute, best, clamp, sign, whole};
use crate::moving::move_items;
use crate::ordering::sort;
use crate::search::find;
use crate::tables::{clear, freeze, isfrozen};
use crate::unpacking::unpack;
use lib_arguments::{Ending, answer};
use luau_tables::{LibAnswer, LibWorld};
use resource::OutOfMemory;
use value_model::{Builtin, Value};

/// Calls a function of `math` or of `table`.
///
/// The values that it gives are appended to `results`. After a run error or a stop none are, and all in the world stays. Where
/// memory is wanted, an edit may be half done. None asks for a call.
pub fn call(
    builtin: Builtin,
    args: &[Value],
    world: &mut LibWorld,
    results: &mut Vec<Value>,
) -> Result<LibAnswer, OutOfMemory>
    requires builtin { IsMath builtin ⊎ IsTable builtin }
    requires world { IsWorld world.old }
    requires args { AllByRecursion (MayUseIn world.old) args.now }
    ensures answered { IfOk result (λ a. Answered world.old world.new results.old.items results.new.items a (raised_by builtin (map (meant world.old.names) args.now)) (lib builtin (map (meant world.old.names) args.now) (store_in world.old))) }
    ensures at_once { IfOk result AtOnce }
    ensures err { OnErr result (results.new.items ≡ results.old.items) }
    ensures keeps { Keeps world.old world.new }
{
    if is_math(builtin) {
        return answer(math(builtin, args, world, results));
    }
    answer(table(builtin, args, world, results))
}

// Whether a function is one of `math`.
fn is_math(builtin: Builtin) -> bool
    ensures { IsTrue result ↔ IsMath builtin }
{
    matches!(
        builtin,
        Builtin::MathAbs
            | Builtin::MathCeil
            | Builtin::MathFloor
            | Builtin::MathRound
            | Builtin::MathSign
            | Builtin::MathMax
            | Builtin::MathMin
            | Builtin::MathClamp
    )
}

// Calls a function of `math`.
fn math(
    builtin: Builtin,
    args: &[Value],
    world: &LibWorld,
    results: &mut Vec<Value>,
) -> Result<(), Ending>
    requires builtin { IsMath builtin }
    requires world { IsWorld world.now }
    requires args { AllByRecursion (MayUseIn world.now) args.now }
    ensures { Runs world.now world.now results.old.items results.new.items result (lib builtin (map (meant world.now.names) args.now) (store_in world.now)) }
{
    match builtin {
        Builtin::MathAbs => absolute(args, world, results),
        Builtin::MathCeil => whole(Builtin::MathCeil, args, world, results),
        Builtin::MathFloor => whole(Builtin::MathFloor, args, world, results),
        Builtin::MathRound => whole(Builtin::MathRound, args, world, results),
        Builtin::MathSign => sign(args, world, results),
        Builtin::MathMax => best(Builtin::MathMax, true, args, world, results),
        Builtin::MathMin => best(Builtin::MathMin, false, args, world, results),
        Builtin::MathClamp => clamp(args, world, results),
        _ => unreachable!(),
    }
}

// Calls a function of `table`.
fn table(
    builtin: Builtin,
    args: &[Value],
    world: &mut LibWorld,
    results: &mut Vec<Value>,
) -> Result<(), Ending>
    requires builtin { IsTable builtin }
    requires world { IsWorld world.old }
    requires args { AllByRecursion (MayUseIn world.old) args.now }
    ensures runs { Runs world.old world.new results.old.items results.new.items result (lib builtin (map (meant world.old.names) args.now) (store_in world.old)) }
    ensures keeps { Keeps world.old world.new }
{
    match builtin {
        Builtin::TableInsert => insert(args, world),
        Builtin::TableRemove => remove(args, world, results),
        Builtin::TableConcat => concat(args, world, results),
        Builtin::TableUnpack => unpack(args, world, results),
        Builtin::TablePack => pack(args, world, results),
        Builtin::TableCreate => create(args, world, results),
        Builtin::TableFind => find(args, world, results),
        Builtin::TableClear => clear(args, world),
        Builtin::TableClone => clone_table(args, world, results),
        Builtin::TableFreeze => freeze(args, world, results),
        Builtin::TableIsfrozen => isfrozen(args, world, results),
        Builtin::TableMove => move_items(args, world, results),
        Builtin::TableSort => sort(*results.allocator(), args, world),
        _ => unreachable!(),
    }
}
