//! Arguments, read in a world: nothing but texts may come to it.

ghost use Rattle.std.specs.Prelude.{◌≡◌, ◌<◌, length, map, IfOk, OnOk};
ghost use Rattle.lib_arguments.specs.Checks.{Checks, most_arguments};
ghost use Rattle.lib_string.specs.Reading.{MayUseAll, Reads};
ghost use Rattle.luau_tables.specs.Worlds.{IsWorld};
ghost use Rattle.value_model.specs.Arguments as row;
ghost use Rattle.value_model.specs.Parts.{bytes_at, meant};

use byte_text::StrId;
use lib_arguments::Ending;
use luau_tables::LibWorld;
use std::alloc::Global;
use value_model::{Builtin, Value};
use whole_num::Whole;

/// The text that an argument is, or its digits where it is a number.
pub(crate) fn text_at(
    alloc: Global,
    f: Builtin,
    i: usize,
    args: &[Value],
    world: &mut LibWorld,
) -> Result<StrId, Ending>
    requires place { i < most_arguments }
    requires world { IsWorld world.old }
    requires args { MayUseAll world.old args.now }
    ensures checks { Checks world.new.names (λ id. bytes_at world.new.names id.0) (row.text_at f i (map (meant world.old.names) args.now)) result }
    ensures number { IfOk result (λ id. id.0 < length world.new.names) }
    ensures reads { Reads world.old world.new args.now }
{
    lib_arguments::text_at(alloc, f, i, &mut world.names, args)
}

/// The same, or this text where the argument is absent or nil.
pub(crate) fn text_or(
    alloc: Global,
    f: Builtin,
    i: usize,
    args: &[Value],
    otherwise: &[u8],
    world: &mut LibWorld,
) -> Result<StrId, Ending>
    requires place { i < most_arguments }
    requires world { IsWorld world.old }
    requires args { MayUseAll world.old args.now }
    ensures checks { Checks world.new.names (λ id. bytes_at world.new.names id.0) (row.text_or f i (map (meant world.old.names) args.now) otherwise.now) result }
    ensures number { IfOk result (λ id. id.0 < length world.new.names) }
    ensures reads { Reads world.old world.new args.now }
{
    lib_arguments::text_or(alloc, f, i, &mut world.names, args, otherwise)
}

/// An argument that has to be a number.
pub(crate) fn number_at(
    f: Builtin,
    i: usize,
    args: &[Value],
    world: &LibWorld,
) -> Result<Whole, Ending>
    requires place { i < most_arguments }
    requires args { MayUseAll world.now args.now }
    ensures checks { Checks world.now.names (λ z. z) (row.number_at f i (map (meant world.now.names) args.now)) result }
    ensures there { OnOk result (i < length args.now) }
{
    lib_arguments::number_at(f, i, &world.names, args)
}

/// An argument that is a number, or this one where it is absent or nil.
pub(crate) fn number_or(
    f: Builtin,
    i: usize,
    args: &[Value],
    otherwise: Whole,
    world: &LibWorld,
) -> Result<Whole, Ending>
    requires place { i < most_arguments }
    requires args { MayUseAll world.now args.now }
    ensures { Checks world.now.names (λ z. z) (row.number_or f i (map (meant world.now.names) args.now) otherwise) result }
{
    lib_arguments::number_or(f, i, &world.names, args, otherwise)
}
