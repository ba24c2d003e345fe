//! Single bytes: `byte` and `char`.

ghost use Rattle.std.specs.Prelude.{◌≡◌, ◌<◌, ◌++◌, List, drop, length, map, pos, take, true, false, [], MatchOption, OnErr, OnOk};
ghost use Rattle.lib_arguments.specs.Checks.{Checks};
ghost use Rattle.lib_arguments.specs.Rows.{Gives, Runs};
ghost use Rattle.lib_string.specs.Codes.{bytes_then, char_numbers, numbers_then};
ghost use Rattle.lib_string.specs.Reading.{AddsTexts, MayUseAll};
ghost use Rattle.luau_tables.specs.Worlds.{IsWorld, store_in};
ghost use Rattle.value_model.specs.Parts.{bytes_at, meant};
ghost use Rattle.value_model.specs.StringRows as row;
ghost use Rattle.value_model.specs.Values.{Bytes};
ghost use Rattle.value_model.specs.declared.value.Value.TheVariants.{Num};

use crate::arguments::{number_at, number_or, text_at};
use crate::giving::{give_text, whole};
use crate::positions::bytes_between;
use byte_text::StrId;
use lib_arguments::{Ending, number_from, out_of_range};
use luau_tables::LibWorld;
use resource::OutOfMemory;
use std::alloc::Global;
use value_model::{Builtin, RunErr, Value};
use whole_num::Whole;

// A call gives at most so many values.
const MOST_VALUES: usize = 8000;

/// `byte`.
pub(crate) fn byte(
    alloc: Global,
    args: &[Value],
    world: &mut LibWorld,
    results: &mut Vec<Value>,
) -> Result<(), Ending>
    requires world { IsWorld world.old }
    requires args { MayUseAll world.old args.now }
    ensures runs { Runs world.old world.new results.old.items results.new.items result (row.byte_row (map (meant world.old.names) args.now) (store_in world.old)) }
    ensures adds { AddsTexts world.old world.new }
{
    let text = match text_at(alloc, Builtin::StringByte, 0, args, world) {
        Ok(text) => text,
        Err(ending) => return Err(ending),
    };
    let first = match number_or(Builtin::StringByte, 1, args, whole(1), world) {
        Ok(first) => first,
        Err(ending) => return Err(ending),
    };
    let last = match number_or(Builtin::StringByte, 2, args, first, world) {
        Ok(last) => last,
        Err(ending) => return Err(ending),
    };
    byte_values(text, first, last, world, results)
}

// Gives the bytes of a text between two positions.
fn byte_values(
    text: StrId,
    first: Whole,
    last: Whole,
    world: &LibWorld,
    results: &mut Vec<Value>,
) -> Result<(), Ending>
    requires world { IsWorld world.now }
    requires text { text.0 < length world.now.names }
    ensures { Runs world.now world.now results.old.items results.new.items result (row.byte_values (store_in world.now) (row.bytes_between (bytes_at world.now.names text.0) first last)) }
{
    let bytes = bytes_between(world.names.bytes(text), first, last);
    if bytes.len() > MOST_VALUES {
        return Err(Ending::RunError(RunErr::TooManyValues));
    }
    give_bytes(bytes, results)
}

// Gives each byte as a number.
fn give_bytes(bytes: &[u8], results: &mut Vec<Value>) -> Result<(), Ending>
    ensures { Gives results.old.items results.new.items (map (λ b. Num (pos b)) bytes.now) result }
{
    let len = results.len();
    match append_numbers(bytes, results) {
        Ok(()) => Ok(()),
        Err(OutOfMemory) => {
            results.truncate(len);
            Err(Ending::OutOfMemory)
        }
    }
}

// Appends each byte as a number. Where memory is wanted some may have been appended.
fn append_numbers(bytes: &[u8], results: &mut Vec<Value>) -> Result<(), OutOfMemory>
    ensures ok { OnOk result (results.new.items ≡ results.old.items ++ map (λ b. Num (pos b)) bytes.now) }
    ensures err { OnErr result (take (length results.old.items) results.new.items ≡ results.old.items) }
{
    for byte in bytes {
        results.push(Value::Num(whole(i64::from(*byte))))?;
    }
    Ok(())
}

/// `char`.
pub(crate) fn char_of(
    alloc: Global,
    args: &[Value],
    world: &mut LibWorld,
    results: &mut Vec<Value>,
) -> Result<(), Ending>
    requires world { IsWorld world.old }
    requires args { MayUseAll world.old args.now }
    ensures runs { Runs world.old world.new results.old.items results.new.items result (row.char_row (map (meant world.old.names) args.now) (store_in world.old)) }
    ensures adds { AddsTexts world.old world.new }
{
    let numbers = match numbers(alloc, args, world) {
        Ok(numbers) => numbers,
        Err(ending) => return Err(ending),
    };
    match bytes_of(alloc, numbers.as_slice()) {
        Ok(bytes) => give_text(bytes.as_slice(), world, results),
        Err(ending) => Err(ending),
    }
}

// The numbers that the arguments of `char` are.
fn numbers(alloc: Global, args: &[Value], world: &LibWorld) -> Result<Vec<Whole>, Ending>
    requires { MayUseAll world.now args.now }
    ensures { Checks world.now.names (λ v. v.items) (char_numbers (map (meant world.now.names) args.now)) result }
{
    let mut numbers = Vec::new(alloc);
    match number_at(Builtin::StringChar, 0, args, world) {
        Ok(number) => match numbers.push(number) {
            Ok(()) => more_numbers(args, world, numbers),
            Err(_) => Err(Ending::OutOfMemory),
        },
        Err(ending) => Err(ending),
    }
}

// The same, of the arguments behind the first.
fn more_numbers(args: &[Value], world: &LibWorld, numbers: Vec<Whole>) -> Result<Vec<Whole>, Ending>
    requires { MayUseAll world.now args.now }
    ensures { Checks world.now.names (λ v. v.items) (numbers_then 1 numbers.items (drop 1 (map (meant world.now.names) args.now))) result }
{
    let mut numbers = numbers;
    for i in 1..args.len() {
        match number_from(Builtin::StringChar, i, &world.names, &args[i]) {
            Ok(number) => {
                if numbers.push(number).is_err() {
                    return Err(Ending::OutOfMemory);
                }
            }
            Err(ending) => return Err(ending),
        }
    }
    Ok(numbers)
}

// The bytes of numbers, each of which has to be one.
fn bytes_of(alloc: Global, numbers: &[Whole]) -> Result<Vec<u8>, Ending>
    ensures { (texts : List Bytes) → Checks texts (λ v. v.items) (bytes_then 0 [] numbers.now) result }
{
    let mut bytes = Vec::new(alloc);
    for (i, number) in numbers.iter().enumerate() {
        match byte_of(*number) {
            Some(byte) => {
                if bytes.push(byte).is_err() {
                    return Err(Ending::OutOfMemory);
                }
            }
            None => return Err(out_of_range(Builtin::StringChar, i)),
        }
    }
    Ok(bytes)
}

/// The byte that a number is, where it is one.
pub(crate) fn byte_of(number: Whole) -> Option<u8>
    ensures { MatchOption result (row.is_byte number ≡ false) (λ b. (row.is_byte number ≡ true) × (row.natural number ≡ b)) }
{
    let number = number.get();
    if 0 <= number && number <= 255 {
        Some(number as u8)
    } else {
        None
    }
}
