//! Concatenation.

ghost use Rattle.std.specs.Prelude.{◌≡◌, ◌++◌, OnOk, IfOk};
ghost use Rattle.luau_tables.specs.Own.{AreTexts, HasText, IsThere, MayUse};
ghost use Rattle.luau_tables.specs.Worlds.{Extends};
ghost use Rattle.meta_ops.specs.OnIds as kept;
ghost use Rattle.meta_ops.specs.Outcomes.{JoinsIn, MeansText};
ghost use Rattle.value_arena.specs.Arenas.{HasTable};
ghost use Rattle.value_arena.specs.Owning.{IsOwned};
ghost use Rattle.value_model.specs.Parts.{meant};

use crate::metamethod::{kind_of, metamethod_of_two};
use crate::outcome::{Outcome, call_two_or};
use byte_text::Interner;
use lib_arguments::text_value;
use luau_tables::Globals;
use resource::OutOfMemory;
use std::alloc::Global;
use value_arena::Arena;
use value_model::{RunErr, Value};
use whole_num::print_into;

// A string has at most so many bytes.
const LONGEST: usize = 16_777_216;

/// Two strings joined. A number counts as its text; a result above 16,777,216 bytes is a run error. Where an operand is neither a
/// string nor a number, the first operand's metamethod is called, else the second's; where there is none the outcome is a run error.
///
/// The interner may have gained texts.
pub fn concat(
    alloc: Global,
    arena: &Arena,
    globals: &Globals,
    names: &mut Interner,
    a: Value,
    b: Value,
) -> Result<Outcome, OutOfMemory>
    requires owned { IsOwned arena.now }
    requires strings { HasTable arena.now globals.now.string_meta }
    requires a { IsThere arena.now a }
    requires b { IsThere arena.now b }
    requires text_a { HasText names.old a }
    requires text_b { HasText names.old b }
    // In the part of each script that may use the operands, the outcome is that of the definition, by the texts as they are after.
    ensures joins { IfOk result (λ outcome. JoinsIn names.old names.new globals.now arena.now a b outcome) }
    ensures extends { Extends names.old names.new }
    ensures texts { AreTexts names.old → AreTexts names.new }
{
    let (left, right) = (&a, &b);
    if are_texts(left, right) {
        return joined(alloc, names, left, right);
    }
    Ok(not_joined(arena, globals, left, right))
}

// Two operands that are not both texts.
fn not_joined(arena: &Arena, globals: &Globals, a: &Value, b: &Value) -> Outcome
    requires owned { IsOwned arena.now }
    requires strings { HasTable arena.now globals.now.string_meta }
    requires a { IsThere arena.now a.now }
    requires b { IsThere arena.now b.now }
    ensures { result ≡ kept.not_joined arena.now globals.now a.now b.now }
{
    let handler = metamethod_of_two(arena, globals, a, b, globals.meta.concat);
    let (left, right) = (kind_of(a), kind_of(b));
    let error = Outcome::RunError(RunErr::Concatenate { left, right });
    call_two_or(&handler, a, b, error)
}

// Whether two values are strings or numbers.
fn are_texts(a: &Value, b: &Value) -> bool
    ensures { result ≡ kept.are_texts a.now b.now }
{
    is_text(a) && is_text(b)
}

// Whether a value is a string or a number.
fn is_text(v: &Value) -> bool
    ensures { result ≡ kept.is_text v.now }
{
    matches!(v, Value::Str(_) | Value::Num(_))
}

// Two texts joined.
fn joined(alloc: Global, names: &mut Interner, a: &Value, b: &Value) -> Result<Outcome, OutOfMemory>
    requires a { HasText names.old a.now }
    requires b { HasText names.old b.now }
    ensures joined { IfOk result (λ outcome. MeansText names.new outcome (kept.text_of names.old a.now ++ kept.text_of names.old b.now)) }
    ensures extends { Extends names.old names.new }
    ensures texts { AreTexts names.old → AreTexts names.new }
{
    let mut bytes = Vec::new(alloc);
    append(names, a, &mut bytes)?;
    append(names, b, &mut bytes)?;
    bounded(names, bytes.as_slice())
}

// Appends a text.
fn append(names: &Interner, v: &Value, out: &mut Vec<u8>) -> Result<(), OutOfMemory>
    requires { HasText names.now v.now }
    ensures ok { OnOk result (out.new.items ≡ out.old.items ++ kept.text_of names.now v.now) }
{
    match v {
        Value::Str(id) => out.extend_from_slice(names.bytes(*id))?,
        Value::Num(number) => print_into(*number, out)?,
        _ => {}
    }
    Ok(())
}

// A text, where it is not too long for a string.
fn bounded(names: &mut Interner, bytes: &[u8]) -> Result<Outcome, OutOfMemory>
    ensures means { IfOk result (λ outcome. MeansText names.new outcome bytes.now) }
    ensures extends { Extends names.old names.new }
    ensures texts { AreTexts names.old → AreTexts names.new }
{
    if bytes.len() > LONGEST {
        return Ok(Outcome::RunError(RunErr::StringTooLarge));
    }
    let id = text_value(names, bytes)?;
    Ok(Outcome::Done(Value::Str(id)))
}
