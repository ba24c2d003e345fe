//! Comparisons.

ghost use Rattle.std.specs.Prelude.{◌≡◌, not, int_le, int_lt};
ghost use Rattle.luau_tables.specs.Own.{HasText, IsThere, MayUse};
ghost use Rattle.meta_ops.specs.OnIds as kept;
ghost use Rattle.meta_ops.specs.Outcomes.{ChoosesIn};
ghost use Rattle.value_arena.specs.Arenas.{HasTable};
ghost use Rattle.value_arena.specs.Owning.{IsOwned};
ghost use Rattle.value_model.specs.Choices.{Compare};
ghost use Rattle.value_model.specs.Metamethods.{bytes_less};
ghost use Rattle.value_model.specs.Parts.{meant};

use crate::metamethod::{kind_of, metamethod_of_two};
use crate::outcome::{Outcome, call_two_or};
use byte_text::Interner;
use luau_tables::Globals;
use value_arena::Arena;
use value_model::{CompareOp, RunErr, Value};

/// The boolean of a comparison, or a call whose first value is turned to a boolean.
///
/// Two values that are one are equal. `__eq` is asked only for two tables that are not one; all other values differ. Two numbers have
/// their order, and two strings that of their bytes. For other operands `__lt` or `__le` is asked; where there is none the outcome is
/// a run error.
pub fn compare(
    arena: &Arena,
    globals: &Globals,
    names: &Interner,
    op: CompareOp,
    a: Value,
    b: Value,
) -> Outcome
    requires owned { IsOwned arena.now }
    requires strings { HasTable arena.now globals.now.string_meta }
    requires a { IsThere arena.now a }
    requires b { IsThere arena.now b }
    requires text_a { HasText names.now a }
    requires text_b { HasText names.now b }
    // In the part of each script that may use the operands, the outcome is that of the definition.
    ensures { ChoosesIn names.now globals.now arena.now (λ w. MayUse names.now arena.now w a × MayUse names.now arena.now w b) (Compare op (meant names.now a) (meant names.now b)) result 0 }
{
    let (left, right) = (&a, &b);
    match op {
        CompareOp::Eq => equal(arena, globals, left, right),
        CompareOp::Lt => less(arena, globals, names, left, right),
        CompareOp::Le => less_or_equal(arena, globals, names, left, right),
    }
}

// Whether two values are equal.
fn equal(arena: &Arena, globals: &Globals, a: &Value, b: &Value) -> Outcome
    requires owned { IsOwned arena.now }
    requires strings { HasTable arena.now globals.now.string_meta }
    requires a { IsThere arena.now a.now }
    requires b { IsThere arena.now b.now }
    ensures { result ≡ kept.equal arena.now globals.now a.now b.now }
{
    if *a == *b {
        return Outcome::Done(Value::Bool(true));
    }
    if both_tables(a, b) {
        let handler = metamethod_of_two(arena, globals, a, b, globals.meta.eq);
        return call_two_or(&handler, a, b, Outcome::Done(Value::Bool(false)));
    }
    Outcome::Done(Value::Bool(false))
}

// Whether two values are tables.
fn both_tables(a: &Value, b: &Value) -> bool
    ensures { result ≡ kept.both_tables a.now b.now }
{
    matches!((a, b), (Value::Table(_), Value::Table(_)))
}

// Whether a value is less than another.
fn less(arena: &Arena, globals: &Globals, names: &Interner, a: &Value, b: &Value) -> Outcome
    requires owned { IsOwned arena.now }
    requires strings { HasTable arena.now globals.now.string_meta }
    requires a { IsThere arena.now a.now }
    requires b { IsThere arena.now b.now }
    requires text_a { HasText names.now a.now }
    requires text_b { HasText names.now b.now }
    ensures { result ≡ kept.less arena.now globals.now a.now b.now (kept.ordered int_lt bytes_less names.now a.now b.now) }
{
    match are_less(names, a, b) {
        Some(answer) => Outcome::Done(Value::Bool(answer)),
        None => {
            let handler = metamethod_of_two(arena, globals, a, b, globals.meta.lt);
            let (left, right) = (kind_of(a), kind_of(b));
            let error = Outcome::RunError(RunErr::CompareLess { left, right });
            call_two_or(&handler, a, b, error)
        }
    }
}

// Whether a value is less than another or equal to it.
fn less_or_equal(
    arena: &Arena,
    globals: &Globals,
    names: &Interner,
    a: &Value,
    b: &Value,
) -> Outcome
    requires owned { IsOwned arena.now }
    requires strings { HasTable arena.now globals.now.string_meta }
    requires a { IsThere arena.now a.now }
    requires b { IsThere arena.now b.now }
    requires text_a { HasText names.now a.now }
    requires text_b { HasText names.now b.now }
    ensures { result ≡ kept.less_or_equal arena.now globals.now a.now b.now (kept.ordered int_le (λ x y. not (bytes_less y x)) names.now a.now b.now) }
{
    match are_less_or_equal(names, a, b) {
        Some(answer) => Outcome::Done(Value::Bool(answer)),
        None => {
            let handler = metamethod_of_two(arena, globals, a, b, globals.meta.le);
            let (left, right) = (kind_of(a), kind_of(b));
            let error = Outcome::RunError(RunErr::CompareLessOrEqual { left, right });
            call_two_or(&handler, a, b, error)
        }
    }
}

// The order of two numbers or of two strings.
fn are_less(names: &Interner, a: &Value, b: &Value) -> Option<bool>
    requires a { HasText names.now a.now }
    requires b { HasText names.now b.now }
    ensures { result ≡ kept.ordered int_lt bytes_less names.now a.now b.now }
{
    match (a, b) {
        (Value::Num(x), Value::Num(y)) => Some(x.get() < y.get()),
        (Value::Str(x), Value::Str(y)) => Some(bytes_less(names.bytes(*x), names.bytes(*y))),
        _ => None,
    }
}

// The same, where they may also be equal.
fn are_less_or_equal(names: &Interner, a: &Value, b: &Value) -> Option<bool>
    requires a { HasText names.now a.now }
    requires b { HasText names.now b.now }
    ensures { result ≡ kept.ordered int_le (λ x y. not (bytes_less y x)) names.now a.now b.now }
{
    match (a, b) {
        (Value::Num(x), Value::Num(y)) => Some(x.get() <= y.get()),
        (Value::Str(x), Value::Str(y)) => Some(!bytes_less(names.bytes(*y), names.bytes(*x))),
        _ => None,
    }
}

// Bytewise order. A text comes before each that it begins.
fn bytes_less(a: &[u8], b: &[u8]) -> bool
    ensures { result ≡ bytes_less a.now b.now }
{
    a < b
}
