//! Kinds and numbers.

ghost use Rattle.std.specs.Prelude.{map};
ghost use Rattle.std.specs.List.{AllByRecursion};
ghost use Rattle.value_model.specs.CoreRows as core;
ghost use Rattle.value_model.specs.Parts.{meant};
ghost use Rattle.luau_tables.specs.Worlds.{IsWorld, Keeps, MayUseIn, store_in};
ghost use Rattle.lib_arguments.specs.Rows.{Runs};
ghost use Rattle.std.specs.Prelude.{◌≡◌, ◌≤◌, IfOk};
ghost use Rattle.value_model.specs.Arguments as row;
ghost use Rattle.value_model.specs.declared.builtin.Builtin.TheVariants as builtin;
ghost use Rattle.luau_tables.specs.Own.{HasText};
ghost use Rattle.whole_num.specs.NumberTexts.{number_of};
ghost use Rattle.lib_core.specs.Numbers.{GivesNumber, IsRadix, based_number};

use byte_text::Interner;
use lib_arguments::{
    Ending, any_at, argument_or_nil, as_number, give, give_text, number_from, out_of_range,
};
use luau_tables::LibWorld;
use resource::OutOfMemory;
use std::alloc::Global;
use value_model::{Builtin, Value, type_name};
use whole_num::{Read, Stop, Whole, print_into, read_with_base};

pub(crate) fn kind_name(
    f: Builtin,
    args: &[Value],
    world: &mut LibWorld,
    results: &mut Vec<Value>,
) -> Result<(), Ending>
    requires world { IsWorld world.old }
    requires args { AllByRecursion (MayUseIn world.old) args.now }
    ensures runs { Runs world.old world.new results.old.items results.new.items result (core.type_row f (map (meant world.old.names) args.now) (store_in world.old)) }
    ensures keeps { Keeps world.old world.new }
{
    let v = match any_at(f, 0, args) {
        Ok(v) => v,
        Err(e) => return Err(e),
    };
    give_text(type_name(v).as_bytes(), world, results)
}

pub(crate) fn tonumber(
    alloc: Global,
    args: &[Value],
    world: &LibWorld,
    results: &mut Vec<Value>,
) -> Result<(), Ending>
    requires world { IsWorld world.now }
    requires args { AllByRecursion (MayUseIn world.now) args.now }
    ensures { Runs world.now world.now results.old.items results.new.items result (core.tonumber_row (map (meant world.now.names) args.now) (store_in world.now)) }
{
    let v = match any_at(Builtin::Tonumber, 0, args) {
        Ok(v) => v,
        Err(e) => return Err(e),
    };
    match argument_or_nil(args, 1) {
        Value::Nil => give_number(as_number(&world.names, &v), results),
        base => based(alloc, &base, &v, world, results),
    }
}

// A text as a number in a base, and a number as its text.
fn based(
    alloc: Global,
    base: &Value,
    v: &Value,
    world: &LibWorld,
    results: &mut Vec<Value>,
) -> Result<(), Ending>
    requires world { IsWorld world.now }
    requires base { MayUseIn world.now base.now }
    requires v { MayUseIn world.now v.now }
    ensures { Runs world.now world.now results.old.items results.new.items result (row.number_from builtin.Tonumber 1 (meant world.now.names base.now) (core.to_number_based (store_in world.now) (meant world.now.names v.now))) }
{
    let number = match number_from(Builtin::Tonumber, 1, &world.names, base) {
        Ok(number) => number,
        Err(e) => return Err(e),
    };
    match radix(number) {
        Some(radix) => match read_in(alloc, radix, &world.names, v) {
            Ok(read) => give_number(read, results),
            Err(OutOfMemory) => Err(Ending::OutOfMemory),
        },
        None => Err(out_of_range(Builtin::Tonumber, 1)),
    }
}

// A base: a number from 2 to 36.
fn radix(number: Whole) -> Option<u32>
    ensures { IsRadix number result }
{
    let number = number.get();
    if 2 <= number && number <= 36 {
        Some(number as u32)
    } else {
        None
    }
}

// Reads a value in a base. A value that is neither a text nor a number is no number.
fn read_in(alloc: Global, radix: u32, names: &Interner, v: &Value) -> Result<Read, OutOfMemory>
    requires low { 2 ≤ radix }
    requires high { radix ≤ 36 }
    requires text { HasText names.now v.now }
    ensures { IfOk result (λ read. number_of read ≡ based_number radix (meant names.now v.now)) }
{
    match v {
        Value::Num(number) => {
            let mut digits = Vec::new(alloc);
            print_into(*number, &mut digits)?;
            Ok(read_with_base(digits.as_slice(), radix))
        }
        Value::Str(id) => Ok(read_with_base(names.bytes(*id), radix)),
        _ => Ok(Read::NotNumber),
    }
}

// Gives a number that was read, or nil.
fn give_number(read: Read, results: &mut Vec<Value>) -> Result<(), Ending>
    ensures { GivesNumber results.old.items results.new.items (number_of read) result }
{
    match read {
        Read::Whole(number) => give(results, Value::Num(number)),
        Read::NotWhole => Err(Ending::Stop(Stop::NotWhole)),
        Read::OutOfRange => Err(Ending::Stop(Stop::OutOfRange)),
        Read::NotNumber => give(results, Value::Nil),
    }
}
