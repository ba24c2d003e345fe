//! Arguments that are numbers, or texts that are read as such.

ghost use Rattle.std.specs.Prelude.{◌≡◌, ◌<◌, map};
ghost use Rattle.lib_arguments.specs.Checks.{Checks, most_arguments};
ghost use Rattle.luau_tables.specs.Own.{HasText};
ghost use Rattle.std.specs.List.{AllByRecursion};
ghost use Rattle.value_model.specs.Arguments as row;
ghost use Rattle.value_model.specs.Metamethods as model;
ghost use Rattle.value_model.specs.Parts.{meant};
ghost use Rattle.whole_num.specs.NumberTexts.{number_of};

use crate::argument::{argument_or_nil, invalid, wanted};
use crate::ending::Ending;
use byte_text::Interner;
use value_model::{Builtin, Kind, Value, Wanted};
use whole_num::{Read, Stop, Whole, read};

/// A number, or a string that is read as one.
pub fn as_number(names: &Interner, v: &Value) -> Read
    requires { HasText names.now v.now }
    ensures { number_of result ≡ model.as_number (meant names.now v.now) }
{
    match v {
        Value::Num(number) => Read::Whole(*number),
        Value::Str(id) => read(names.bytes(*id)),
        _ => Read::NotNumber,
    }
}

/// The number that an argument is, or is read as.
pub fn number_from(f: Builtin, i: usize, names: &Interner, v: &Value) -> Result<Whole, Ending>
    requires place { i < most_arguments }
    requires text { HasText names.now v.now }
    ensures { Checks names.now (λ z. z) (row.number_from f i (meant names.now v.now)) result }
{
    match as_number(names, v) {
        Read::Whole(number) => Ok(number),
        Read::NotWhole => Err(Ending::Stop(Stop::NotWhole)),
        Read::OutOfRange => Err(Ending::Stop(Stop::OutOfRange)),
        Read::NotNumber => Err(invalid(f, i, Wanted::OfKind(Kind::Number), v)),
    }
}

/// An argument that has to be a number.
pub fn number_at(f: Builtin, i: usize, names: &Interner, args: &[Value]) -> Result<Whole, Ending>
    requires place { i < most_arguments }
    requires texts { AllByRecursion (HasText names.now) args.now }
    ensures { Checks names.now (λ z. z) (row.number_at f i (map (meant names.now) args.now)) result }
{
    match wanted(f, i, Wanted::OfKind(Kind::Number), args) {
        Ok(v) => number_from(f, i, names, &v),
        Err(e) => Err(e),
    }
}

/// An argument that is a number, or this one where it is absent or nil.
pub fn number_or(
    f: Builtin,
    i: usize,
    names: &Interner,
    args: &[Value],
    otherwise: Whole,
) -> Result<Whole, Ending>
    requires place { i < most_arguments }
    requires texts { AllByRecursion (HasText names.now) args.now }
    ensures { Checks names.now (λ z. z) (row.number_or f i (map (meant names.now) args.now) otherwise) result }
{
    match argument_or_nil(args, i) {
        Value::Nil => Ok(otherwise),
        v => number_from(f, i, names, &v),
    }
}
