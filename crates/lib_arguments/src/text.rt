//! Arguments that are strings, or numbers as their texts.

ghost use Rattle.std.specs.Prelude.{◌≡◌, ◌<◌, length, map, slice_get, IfOk, Some};
ghost use Rattle.lib_arguments.specs.Checks.{Checks, most_arguments};
ghost use Rattle.luau_tables.specs.Own.{AreTexts, HasText};
ghost use Rattle.luau_tables.specs.Worlds.{Extends};
ghost use Rattle.std.specs.Fmt.{signed_decimal};
ghost use Rattle.std.specs.List.{AllByRecursion};
ghost use Rattle.value_model.specs.Arguments as row;
ghost use Rattle.value_model.specs.Parts.{bytes_at, meant};
ghost use Rattle.value_model.specs.declared.value.Value.TheVariants.{Str};

use crate::argument::{argument_or_nil, invalid, wanted};
use crate::ending::Ending;
use byte_text::{Interner, StrId};
use resource::OutOfMemory;
use std::alloc::Global;
use value_model::{Builtin, Kind, Value, Wanted};
use whole_num::{Whole, print_into};

// A text has fewer bytes than this.
const LONGEST_TEXT: usize = 9_007_199_254_740_992;

/// The number of a text, which may be a new one. A text too long for its length to be a whole number wants memory.
pub fn text_value(names: &mut Interner, bytes: &[u8]) -> Result<StrId, OutOfMemory>
    ensures text { IfOk result (λ id. slice_get names.new id.0 ≡ Some bytes.now) }
    ensures extends { Extends names.old names.new }
    ensures texts { AreTexts names.old → AreTexts names.new }
{
    if bytes.len() >= LONGEST_TEXT {
        return Err(OutOfMemory);
    }
    names.intern(bytes)
}

// The number of a number's text.
fn digits(alloc: Global, names: &mut Interner, number: Whole) -> Result<StrId, OutOfMemory>
    ensures text { IfOk result (λ id. slice_get names.new id.0 ≡ Some (signed_decimal number)) }
    ensures extends { Extends names.old names.new }
    ensures texts { AreTexts names.old → AreTexts names.new }
{
    let mut text = Vec::new(alloc);
    print_into(number, &mut text)?;
    text_value(names, text.as_slice())
}

/// The text that an argument is, or its digits where it is a number.
pub fn text_from(
    alloc: Global,
    f: Builtin,
    i: usize,
    names: &mut Interner,
    v: &Value,
) -> Result<StrId, Ending>
    requires place { i < most_arguments }
    requires text { HasText names.old v.now }
    ensures checks { Checks names.new (λ id. bytes_at names.new id.0) (row.text_from f i (meant names.old v.now)) result }
    ensures number { IfOk result (λ id. id.0 < length names.new) }
    ensures extends { Extends names.old names.new }
    ensures texts { AreTexts names.old → AreTexts names.new }
{
    match *v {
        Value::Str(id) => Ok(id),
        Value::Num(number) => match digits(alloc, names, number) {
            Ok(id) => Ok(id),
            Err(OutOfMemory) => Err(Ending::OutOfMemory),
        },
        _ => Err(invalid(f, i, Wanted::OfKind(Kind::String), v)),
    }
}

/// An argument that has to be a string, or a number, which counts as its text.
pub fn text_at(
    alloc: Global,
    f: Builtin,
    i: usize,
    names: &mut Interner,
    args: &[Value],
) -> Result<StrId, Ending>
    requires place { i < most_arguments }
    requires texts { AllByRecursion (HasText names.old) args.now }
    ensures checks { Checks names.new (λ id. bytes_at names.new id.0) (row.text_at f i (map (meant names.old) args.now)) result }
    ensures number { IfOk result (λ id. id.0 < length names.new) }
    ensures extends { Extends names.old names.new }
    ensures texts { AreTexts names.old → AreTexts names.new }
{
    match wanted(f, i, Wanted::OfKind(Kind::String), args) {
        Ok(v) => text_from(alloc, f, i, names, &v),
        Err(e) => Err(e),
    }
}

/// The same, or this text where the argument is absent or nil.
pub fn text_or(
    alloc: Global,
    f: Builtin,
    i: usize,
    names: &mut Interner,
    args: &[Value],
    otherwise: &[u8],
) -> Result<StrId, Ending>
    requires place { i < most_arguments }
    requires texts { AllByRecursion (HasText names.old) args.now }
    ensures checks { Checks names.new (λ id. bytes_at names.new id.0) (row.text_or f i (map (meant names.old) args.now) otherwise.now) result }
    ensures number { IfOk result (λ id. id.0 < length names.new) }
    ensures extends { Extends names.old names.new }
    ensures texts { AreTexts names.old → AreTexts names.new }
{
    match argument_or_nil(args, i) {
        Value::Nil => match text_value(names, otherwise) {
            Ok(id) => Ok(id),
            Err(OutOfMemory) => Err(Ending::OutOfMemory),
        },
        v => text_from(alloc, f, i, names, &v),
    }
}
