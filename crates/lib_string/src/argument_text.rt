//! The texts that directives make of their arguments.

ghost use Rattle.std.specs.Prelude.{◌≡◌, ◌<◌, ◌++◌, List, length, map, false, true, IfOk, OnOk};
ghost use Rattle.std.specs.Fmt.{digits, signed_decimal};
ghost use Rattle.std.specs.String.{string_bytes};
ghost use Rattle.lib_arguments.specs.Checks.{most_arguments};
ghost use Rattle.lib_string.specs.Directives.{field_of};
ghost use Rattle.lib_string.specs.Formats.{Writes};
ghost use Rattle.lib_string.specs.Reading.{MayUseAll};
ghost use Rattle.luau_tables.specs.Globals.{plain_text};
ghost use Rattle.luau_tables.specs.Worlds.{store_in};
ghost use Rattle.value_model.specs.FormatRows as row;
ghost use Rattle.value_model.specs.Parts.{meant};
ghost use Rattle.value_model.specs.Values.{Bytes};

use crate::arguments::number_at;
use crate::characters::byte_of;
use crate::directive::Field;
use crate::filling::fit_into;
use lib_arguments::{Ending, out_of_range};
use luau_tables::{LibWorld, plain_into};
use resource::OutOfMemory;
use std::alloc::Global;
use value_model::{Builtin, Value};
use whole_num::{Whole, print_into};

/// Appends the text of a value where no `__tostring` is asked.
pub(crate) fn plain_text_into(
    alloc: Global,
    field: Field,
    value: Value,
    world: &LibWorld,
    out: &mut Vec<u8>,
) -> Result<(), OutOfMemory>
    ensures { OnOk result (out.new.items ≡ out.old.items ++ row.fitted (field_of field) false (plain_text world.now.names world.now.globals value)) }
{
    let mut text = Vec::new(alloc);
    plain_into(&world.arena, &world.names, &world.globals, value, &mut text)?;
    fit_into(field, false, text.as_slice(), out)
}

/// Appends an argument that is a number, in decimal.
pub(crate) fn decimal_at(
    alloc: Global,
    field: Field,
    at: usize,
    args: &[Value],
    world: &LibWorld,
    out: &mut Vec<u8>,
) -> Result<(), Ending>
    requires place { at < most_arguments }
    requires args { MayUseAll world.now args.now }
    ensures writes { Writes world.now.names out.old.items out.new.items (row.directive_text (store_in world.now) (map (meant world.now.names) args.now) at out.old.items (field_of field) row.AsDecimal) result }
    ensures there { OnOk result (at < length args.now) }
{
    match number_at(Builtin::StringFormat, at, args, world) {
        Ok(number) => match decimal_into(alloc, field, number, out) {
            Ok(()) => Ok(()),
            Err(OutOfMemory) => Err(Ending::OutOfMemory),
        },
        Err(ending) => Err(ending),
    }
}

// Appends a number in decimal.
fn decimal_into(
    alloc: Global,
    field: Field,
    number: Whole,
    out: &mut Vec<u8>,
) -> Result<(), OutOfMemory>
    ensures { OnOk result (out.new.items ≡ out.old.items ++ row.fitted (field_of field) true (signed_decimal number)) }
{
    let mut text = Vec::new(alloc);
    print_into(number, &mut text)?;
    fit_into(field, true, text.as_slice(), out)
}

/// Appends an argument that is a number from 0 on, in hexadecimal.
pub(crate) fn hex_at(
    alloc: Global,
    field: Field,
    capital: bool,
    at: usize,
    args: &[Value],
    world: &LibWorld,
    out: &mut Vec<u8>,
) -> Result<(), Ending>
    requires place { at < most_arguments }
    requires args { MayUseAll world.now args.now }
    ensures writes { Writes world.now.names out.old.items out.new.items (row.directive_text (store_in world.now) (map (meant world.now.names) args.now) at out.old.items (field_of field) (row.AsHex capital)) result }
    ensures there { OnOk result (at < length args.now) }
{
    match number_at(Builtin::StringFormat, at, args, world) {
        Ok(number) => hex_into(alloc, field, capital, at, number, out),
        Err(ending) => Err(ending),
    }
}

// Appends a number from 0 on in hexadecimal.
fn hex_into(
    alloc: Global,
    field: Field,
    capital: bool,
    at: usize,
    number: Whole,
    out: &mut Vec<u8>,
) -> Result<(), Ending>
    requires { at < most_arguments }
    ensures { (texts : List Bytes) → Writes texts out.old.items out.new.items (λ go. row.hex_text (field_of field) capital at go number) result }
{
    match u64::try_from(number.get()) {
        Ok(number) => match hex_digits_into(alloc, field, capital, number, out) {
            Ok(()) => Ok(()),
            Err(OutOfMemory) => Err(Ending::OutOfMemory),
        },
        Err(_) => Err(out_of_range(Builtin::StringFormat, at)),
    }
}

// Appends the digits of a number in hexadecimal.
fn hex_digits_into(
    alloc: Global,
    field: Field,
    capital: bool,
    number: u64,
    out: &mut Vec<u8>,
) -> Result<(), OutOfMemory>
    ensures { OnOk result (out.new.items ≡ out.old.items ++ row.fitted (field_of field) true (digits 16 capital number)) }
{
    let text = hex_text(alloc, capital, number)?;
    fit_into(field, true, text.as_bytes(), out)
}

// The digits of a number in hexadecimal.
fn hex_text(alloc: Global, capital: bool, number: u64) -> Result<String, OutOfMemory>
    ensures { IfOk result (λ s. string_bytes s ≡ digits 16 capital number) }
{
    if capital {
        Ok(format!(in alloc; "{number:X}")?)
    } else {
        Ok(format!(in alloc; "{number:x}")?)
    }
}

/// Appends the byte of an argument that is its number.
pub(crate) fn byte_at(
    field: Field,
    at: usize,
    args: &[Value],
    world: &LibWorld,
    out: &mut Vec<u8>,
) -> Result<(), Ending>
    requires place { at < most_arguments }
    requires args { MayUseAll world.now args.now }
    ensures writes { Writes world.now.names out.old.items out.new.items (row.directive_text (store_in world.now) (map (meant world.now.names) args.now) at out.old.items (field_of field) row.AsByte) result }
    ensures there { OnOk result (at < length args.now) }
{
    match number_at(Builtin::StringFormat, at, args, world) {
        Ok(number) => byte_into(field, at, number, out),
        Err(ending) => Err(ending),
    }
}

// Appends the byte of a number.
fn byte_into(field: Field, at: usize, number: Whole, out: &mut Vec<u8>) -> Result<(), Ending>
    requires { at < most_arguments }
    ensures { (texts : List Bytes) → Writes texts out.old.items out.new.items (λ go. row.byte_text (field_of field) at go number) result }
{
    match byte_of(number) {
        Some(byte) => match fit_into(field, false, &[byte], out) {
            Ok(()) => Ok(()),
            Err(OutOfMemory) => Err(Ending::OutOfMemory),
        },
        None => Err(out_of_range(Builtin::StringFormat, at)),
    }
}
