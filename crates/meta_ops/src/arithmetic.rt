//! Arithmetic.

ghost use Rattle.std.specs.Prelude.{◌≡◌, List};
ghost use Rattle.luau_tables.specs.Own.{HasText, IsThere, MayUse};
ghost use Rattle.meta_ops.specs.OnIds as kept;
ghost use Rattle.meta_ops.specs.Outcomes.{ChoosesIn};
ghost use Rattle.value_arena.specs.Arenas.{HasTable};
ghost use Rattle.value_arena.specs.Owning.{IsOwned};
ghost use Rattle.value_model.specs.Choices.{Arith};
ghost use Rattle.value_model.specs.Metamethods as model;
ghost use Rattle.value_model.specs.Operators.{calculated};
ghost use Rattle.value_model.specs.Parts.{meant};

use crate::metamethod::{kind_of, metamethod, metamethod_of_two};
use crate::outcome::{Outcome, call_one_or, call_two_or};
use byte_text::{Interner, StrId};
use lib_arguments::as_number;
use luau_tables::{Globals, MetaNames};
use value_arena::Arena;
use value_model::{ArithOp, RunErr, Value};
use whole_num::{Read, Stop, Whole};

/// The result of an arithmetic operator. `Unm` does not look at `b`.
///
/// Numbers, and strings that are read as numbers, are calculated with; where one of them stops, the first operand's stop comes
/// first, then the second's. Any other operand's metamethod is called, of two operands the first one's, else the second's; where
/// there is none the outcome is a run error.
pub fn arith(
    arena: &Arena,
    globals: &Globals,
    names: &Interner,
    op: ArithOp,
    a: Value,
    b: Value,
) -> Outcome
    requires owned { IsOwned arena.now }
    requires strings { HasTable arena.now globals.now.string_meta }
    requires a { IsThere arena.now a }
    requires b { IsThere arena.now b }
    requires text_a { HasText names.now a }
    requires text_b { HasText names.now b }
    // In the part of each script that may use the operands, the outcome is that of the definition.
    ensures { ChoosesIn names.now globals.now arena.now (λ w. MayUse names.now arena.now w a × MayUse names.now arena.now w b) (Arith op (meant names.now a) (meant names.now b)) result 0 }
{
    let (left, right) = (&a, &b);
    match op {
        ArithOp::Unm => minus(arena, globals, names, left),
        _ => of_two(arena, globals, names, op, left, right),
    }
}

// The number of the other sign.
fn minus(arena: &Arena, globals: &Globals, names: &Interner, a: &Value) -> Outcome
    requires owned { IsOwned arena.now }
    requires strings { HasTable arena.now globals.now.string_meta }
    requires there { IsThere arena.now a.now }
    requires text { HasText names.now a.now }
    ensures { result ≡ kept.minus arena.now globals.now a.now (model.as_number (meant names.now a.now)) }
{
    match number(names, a) {
        Some(x) => negative(x),
        None => {
            let handler = metamethod(arena, globals, a, globals.meta.unm);
            call_one_or(&handler, a, arithmetic_error(ArithOp::Unm, a, a))
        }
    }
}

// The result of an operator on two operands.
fn of_two(
    arena: &Arena,
    globals: &Globals,
    names: &Interner,
    op: ArithOp,
    a: &Value,
    b: &Value,
) -> Outcome
    requires owned { IsOwned arena.now }
    requires strings { HasTable arena.now globals.now.string_meta }
    requires a { IsThere arena.now a.now }
    requires b { IsThere arena.now b.now }
    requires text_a { HasText names.now a.now }
    requires text_b { HasText names.now b.now }
    ensures { result ≡ kept.of_two arena.now globals.now op a.now b.now (model.as_number (meant names.now a.now)) (model.as_number (meant names.now b.now)) }
{
    match (number(names, a), number(names, b)) {
        (Some(x), Some(y)) => calculate(op, x, y),
        _ => {
            let name = arith_name(op, &globals.meta);
            let handler = metamethod_of_two(arena, globals, a, b, name);
            call_two_or(&handler, a, b, arithmetic_error(op, a, b))
        }
    }
}

// The number that a value is or is read as, or its stop; none where it is no number.
fn number(names: &Interner, v: &Value) -> Option<Result<Whole, Stop>>
    requires { HasText names.now v.now }
    ensures { result ≡ model.as_number (meant names.now v.now) }
{
    match as_number(names, v) {
        Read::Whole(whole) => Some(Ok(whole)),
        Read::NotWhole => Some(Err(Stop::NotWhole)),
        Read::OutOfRange => Some(Err(Stop::OutOfRange)),
        Read::NotNumber => None,
    }
}

// The result on two numbers, each of which may be a stop. The first one's stop comes first.
fn calculate(op: ArithOp, a: Result<Whole, Stop>, b: Result<Whole, Stop>) -> Outcome
    ensures { result ≡ kept.calculate op a b }
{
    match (a, b) {
        (Ok(x), Ok(y)) => numbered(calculated(op, x, y)),
        (Ok(_), Err(stop)) => Outcome::Stop(stop),
        (Err(stop), _) => Outcome::Stop(stop),
    }
}

// The number of the other sign, or the stop.
#[tactic(auto, unfolding(value_model::specs::Operators::calculated))]
fn negative(a: Result<Whole, Stop>) -> Outcome
    ensures { result ≡ kept.negative a }
{
    match a {
        Ok(x) => Outcome::Done(Value::Num(x.neg())),
        Err(stop) => Outcome::Stop(stop),
    }
}

// A number, or its stop.
fn numbered(whole: Result<Whole, Stop>) -> Outcome
    ensures { result ≡ kept.numbered whole }
{
    match whole {
        Ok(number) => Outcome::Done(Value::Num(number)),
        Err(stop) => Outcome::Stop(stop),
    }
}

// The result on two numbers. `Unm` looks at the first one only.
#[tactic(auto, unfolding(value_model::specs::Operators::calculated))]
fn calculated(op: ArithOp, a: Whole, b: Whole) -> Result<Whole, Stop>
    ensures { result ≡ calculated op a b }
{
    match op {
        ArithOp::Add => a.add(b),
        ArithOp::Sub => a.sub(b),
        ArithOp::Mul => a.mul(b),
        ArithOp::Div => a.div(b),
        ArithOp::Idiv => a.idiv(b),
        ArithOp::Mod => a.modulo(b),
        ArithOp::Pow => a.pow(b),
        ArithOp::Unm => Ok(a.neg()),
    }
}

// The name of an operator's metamethod.
fn arith_name(op: ArithOp, names: &MetaNames) -> StrId
    ensures { result ≡ kept.arith_name op names.now }
{
    match op {
        ArithOp::Add => names.add,
        ArithOp::Sub => names.sub,
        ArithOp::Mul => names.mul,
        ArithOp::Div => names.div,
        ArithOp::Idiv => names.idiv,
        ArithOp::Mod => names.mod_,
        ArithOp::Pow => names.pow,
        ArithOp::Unm => names.unm,
    }
}

// The run error of operands that are no numbers.
fn arithmetic_error(op: ArithOp, a: &Value, b: &Value) -> Outcome
    ensures { result ≡ kept.arithmetic_error op a.now b.now }
{
    Outcome::RunError(RunErr::Arithmetic {
        operator: op,
        left: kind_of(a),
        right: kind_of(b),
    })
}
