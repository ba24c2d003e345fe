//! What comes of an operation.

ghost use Rattle.std.specs.Prelude.{◌≡◌};
ghost use Rattle.meta_ops.specs.OnIds as kept;

use crate::metamethod::is_nil;
use value_model::{RunErr, Value};
use whole_num::Stop;

/// What comes of an operation.
#[derive(Clone, Copy, PartialEq, Eq, Debug)]
pub enum Outcome {
    Done(Value),
    /// The value is to be called with the first `count` of these arguments, and the first value that the call gives is the result.
    CallThis {
        callee: Value,
        args: [Value; 3],
        count: u8,
    },
    RunError(RunErr),
    /// The script stops.
    Stop(Stop),
}

/// What a table leads to that was asked.
#[derive(Clone, Copy)]
pub(crate) enum Link {
    Ends(Outcome),
    /// This value is asked in turn.
    To(Value),
}

/// A call with one argument.
pub(crate) fn call_one(callee: &Value, a: &Value) -> Outcome
    ensures { result ≡ kept.call_one callee.now a.now }
{
    Outcome::CallThis {
        callee: *callee,
        args: [*a, Value::Nil, Value::Nil],
        count: 1,
    }
}

/// A call with two arguments.
pub(crate) fn call_two(callee: &Value, a: &Value, b: &Value) -> Outcome
    ensures { result ≡ kept.call_two callee.now a.now b.now }
{
    Outcome::CallThis {
        callee: *callee,
        args: [*a, *b, Value::Nil],
        count: 2,
    }
}

/// A call with three arguments.
pub(crate) fn call_three(callee: &Value, a: &Value, b: &Value, c: &Value) -> Outcome
    ensures { result ≡ kept.call_three callee.now a.now b.now c.now }
{
    Outcome::CallThis {
        callee: *callee,
        args: [*a, *b, *c],
        count: 3,
    }
}

/// A metamethod is called with its one operand, where there is one.
pub(crate) fn call_one_or(handler: &Value, a: &Value, otherwise: Outcome) -> Outcome
    ensures { result ≡ kept.call_or_else handler.now (kept.call_one handler.now a.now) otherwise }
{
    if is_nil(handler) {
        otherwise
    } else {
        call_one(handler, a)
    }
}

/// A metamethod is called with both operands, where there is one.
pub(crate) fn call_two_or(handler: &Value, a: &Value, b: &Value, otherwise: Outcome) -> Outcome
    ensures { result ≡ kept.call_or_else handler.now (kept.call_two handler.now a.now b.now) otherwise }
{
    if is_nil(handler) {
        otherwise
    } else {
        call_two(handler, a, b)
    }
}
