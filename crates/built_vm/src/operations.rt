//! Operations on values. There is none where one of the two is no number.

ghost use Rattle.std.specs.Prelude.{◌≡◌, option_map};
ghost use Rattle.built_values.specs.Operations.{as_value, sum, difference, product, equal, less, less_or_equal};

use built_values::Value;
use whole_num::{Stop, Whole};

#[tactic(auto, unfolding(built_values::specs::Operations::sum))]
pub(crate) fn sum(left: Value, right: Value) -> Option<Result<Whole, Stop>>
    ensures { option_map as_value result ≡ sum left right }
{
    match (&left, &right) {
        (Value::Number(v), Value::Number(w)) => Some(v.add(*w)),
        _ => None,
    }
}

#[tactic(auto, unfolding(built_values::specs::Operations::difference))]
pub(crate) fn difference(left: Value, right: Value) -> Option<Result<Whole, Stop>>
    ensures { option_map as_value result ≡ difference left right }
{
    match (&left, &right) {
        (Value::Number(v), Value::Number(w)) => Some(v.sub(*w)),
        _ => None,
    }
}

#[tactic(auto, unfolding(built_values::specs::Operations::product))]
pub(crate) fn product(left: Value, right: Value) -> Option<Result<Whole, Stop>>
    ensures { option_map as_value result ≡ product left right }
{
    match (&left, &right) {
        (Value::Number(v), Value::Number(w)) => Some(v.mul(*w)),
        _ => None,
    }
}

#[tactic(auto, unfolding(built_values::specs::Operations::equal))]
pub(crate) fn equal(left: Value, right: Value) -> Option<bool>
    ensures { result ≡ equal left right }
{
    match (&left, &right) {
        (Value::Number(v), Value::Number(w)) => Some(v.get() == w.get()),
        _ => None,
    }
}

#[tactic(auto, unfolding(built_values::specs::Operations::less))]
pub(crate) fn less(left: Value, right: Value) -> Option<bool>
    ensures { result ≡ less left right }
{
    match (&left, &right) {
        (Value::Number(v), Value::Number(w)) => Some(v.get() < w.get()),
        _ => None,
    }
}

#[tactic(auto, unfolding(built_values::specs::Operations::less_or_equal))]
pub(crate) fn less_or_equal(left: Value, right: Value) -> Option<bool>
    ensures { result ≡ less_or_equal left right }
{
    match (&left, &right) {
        (Value::Number(v), Value::Number(w)) => Some(v.get() <= w.get()),
        _ => None,
    }
}
