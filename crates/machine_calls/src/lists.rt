//! Lists of values for what waits.

ghost use Rattle.std.specs.Prelude.{◌≡◌, ◌<◌, ◌∷◌, [], length, drop, OnOk};
ghost use Rattle.machine_calls.specs.Waiting.{first};
ghost use Rattle.value_model.specs.declared.value.Value.TheVariants.{Bool};
ghost use Rattle.std.specs.Prelude.{true, false};

use resource::OutOfMemory;
use value_model::Value;

// A value before all others.
pub(crate) fn put_first(values: &mut Vec<Value>, v: Value) -> Result<(), OutOfMemory>
    ensures { OnOk result (values.new.items ≡ v ∷ values.old.items) }
{
    match values.insert(0, v) {
        Ok(()) => Ok(()),
        Err(_) => Err(OutOfMemory),
    }
}

// No value but this.
pub(crate) fn only(values: &mut Vec<Value>, v: Value) -> Result<(), OutOfMemory>
    ensures { OnOk result (values.new.items ≡ v ∷ []) }
{
    values.clear();
    put_first(values, v)
}

// What a protected call gives that has failed: false, and a value.
pub(crate) fn failed(values: &mut Vec<Value>, v: Value) -> Result<(), OutOfMemory>
    ensures { OnOk result (values.new.items ≡ Bool false ∷ v ∷ []) }
{
    only(values, v)?;
    put_first(values, Value::Bool(false))
}

// The first value, and nil where there is none.
pub(crate) fn first(values: &[Value]) -> Value
    ensures { result ≡ first values.now }
{
    match values.first() {
        Some(v) => *v,
        None => Value::Nil,
    }
}

// Without the first value.
pub(crate) fn without_first(values: &mut Vec<Value>)
    requires { 0 < length values.old.items }
    ensures { values.new.items ≡ drop 1 values.old.items }
{
    let _first = values.remove(0);
}
