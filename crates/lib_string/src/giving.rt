//! What a function gives.

ghost use Rattle.std.specs.Prelude.{◌≡◌, IfOk};
ghost use Rattle.lib_arguments.specs.Rows.{Runs};
ghost use Rattle.lib_string.specs.Reading.{AddsTexts};
ghost use Rattle.luau_tables.specs.Worlds.{IsWorld, store_in};
ghost use Rattle.value_model.specs.CoreRows.{gives};
ghost use Rattle.value_model.specs.Values as model;
ghost use Rattle.whole_num.specs.Whole.{IsWhole};

use lib_arguments::{Ending, give, text_value};
use luau_tables::LibWorld;
use resource::OutOfMemory;
use value_model::Value;
use whole_num::Whole;

/// A number as a value holds it.
pub(crate) fn whole(n: i64) -> Whole
    requires { IsWhole n }
    ensures { result ≡ n }
{
    match Whole::new(n) {
        Some(number) => number,
        None => unreachable!(),
    }
}

/// Gives a text.
pub(crate) fn give_text(
    bytes: &[u8],
    world: &mut LibWorld,
    results: &mut Vec<Value>,
) -> Result<(), Ending>
    requires { IsWorld world.old }
    ensures runs { Runs world.old world.new results.old.items results.new.items result (gives (store_in world.old) (model.Text bytes.now)) }
    ensures adds { AddsTexts world.old world.new }
{
    match text_value(&mut world.names, bytes) {
        Ok(id) => give(results, Value::Str(id)),
        Err(OutOfMemory) => Err(Ending::OutOfMemory),
    }
}

/// Gives a number.
pub(crate) fn give_number(
    number: Whole,
    world: &LibWorld,
    results: &mut Vec<Value>,
) -> Result<(), Ending>
    ensures { Runs world.now world.now results.old.items results.new.items result (gives (store_in world.now) (model.Number number)) }
{
    give(results, Value::Num(number))
}

/// Gives a text that was made, where there was memory for it.
pub(crate) fn give_made(
    made: Result<Vec<u8>, OutOfMemory>,
    world: &mut LibWorld,
    results: &mut Vec<Value>,
) -> Result<(), Ending>
    requires { IsWorld world.old }
    ensures runs { (bytes : model.Bytes) → IfOk made (λ v. v.items ≡ bytes) → Runs world.old world.new results.old.items results.new.items result (gives (store_in world.old) (model.Text bytes)) }
    ensures adds { AddsTexts world.old world.new }
{
    match made {
        Ok(bytes) => give_text(bytes.as_slice(), world, results),
        Err(OutOfMemory) => Err(Ending::OutOfMemory),
    }
}
