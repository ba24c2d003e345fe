//! The values that library functions give.

ghost use Rattle.std.specs.Prelude.{◌≡◌, [], ◌∷◌, IfSome, pos};
ghost use Rattle.lib_arguments.specs.Rows.{Gives, Runs};
ghost use Rattle.luau_tables.specs.Worlds.{IsWorld, Keeps, store_in};
ghost use Rattle.value_model.specs.Answers as model;
ghost use Rattle.value_model.specs.Values as m;
ghost use Rattle.value_model.specs.declared.value.Value.TheVariants.{Num};

use crate::ending::Ending;
use crate::text::text_value;
use luau_tables::LibWorld;
use resource::OutOfMemory;
use value_model::Value;
use whole_num::Whole;

/// Appends a value.
pub fn give(results: &mut Vec<Value>, v: Value) -> Result<(), Ending>
    ensures { Gives results.old.items results.new.items (v ∷ []) result }
{
    match results.push(v) {
        Ok(()) => Ok(()),
        Err(_) => Err(Ending::OutOfMemory),
    }
}

/// Appends values, all or none.
pub fn give_all(results: &mut Vec<Value>, values: &[Value]) -> Result<(), Ending>
    ensures { Gives results.old.items results.new.items values.now result }
{
    match results.extend_from_slice(values) {
        Ok(()) => Ok(()),
        Err(_) => Err(Ending::OutOfMemory),
    }
}

/// Appends a count, as a number. One too great for a whole number wants memory.
pub fn give_count(results: &mut Vec<Value>, n: usize) -> Result<(), Ending>
    ensures { Gives results.old.items results.new.items (Num (pos n) ∷ []) result }
{
    match whole(n) {
        Some(number) => give(results, Value::Num(number)),
        None => Err(Ending::OutOfMemory),
    }
}

// A count as a whole number.
fn whole(n: usize) -> Option<Whole>
    ensures { IfSome result (λ number. number ≡ pos n) }
{
    match i64::try_from(n) {
        Ok(n) => Whole::new(n),
        Err(_) => None,
    }
}

/// Gives the text of some bytes.
pub fn give_text(bytes: &[u8], world: &mut LibWorld, results: &mut Vec<Value>) -> Result<(), Ending>
    requires { IsWorld world.old }
    ensures runs { Runs world.old world.new results.old.items results.new.items result (model.Answers (m.Text bytes.now ∷ []) (store_in world.old)) }
    ensures keeps { Keeps world.old world.new }
{
    match text_value(&mut world.names, bytes) {
        Ok(id) => give(results, Value::Str(id)),
        Err(OutOfMemory) => Err(Ending::OutOfMemory),
    }
}
