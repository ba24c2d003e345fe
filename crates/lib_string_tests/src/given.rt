//! Arguments.

ghost use Rattle.std.specs.Prelude.{◌≡◌, true, IfOk, IsTrue};
ghost use Rattle.lib_string.specs.Builtins.{IsOfString};
ghost use Rattle.luau_tables.specs.Worlds.{IsWorld, Keeps, MayUseIn};
ghost use Rattle.luau_tables.specs.declared.globals.LibWorld.{LibWorld};

use lib_arguments::text_value;
use luau_tables::LibWorld;
use resource::OutOfMemory;
use value_model::{Builtin, Value};
use whole_num::Whole;

/// A number as a value; `None` and what is no whole number are nil.
pub(crate) fn number(given: Option<i64>) -> Value
    ensures { (w : LibWorld) → MayUseIn w result }
{
    match given {
        Some(n) => whole(n),
        None => Value::Nil,
    }
}

fn whole(n: i64) -> Value
    ensures { (w : LibWorld) → MayUseIn w result }
{
    match Whole::new(n) {
        Some(number) => Value::Num(number),
        None => Value::Nil,
    }
}

/// Whether a function is one of `string`.
pub(crate) fn is_of_string(f: Builtin) -> bool
    ensures { IsTrue result → IsOfString f }
{
    matches!(
        f,
        Builtin::StringByte
            | Builtin::StringChar
            | Builtin::StringLen
            | Builtin::StringSub
            | Builtin::StringLower
            | Builtin::StringUpper
            | Builtin::StringRep
            | Builtin::StringReverse
            | Builtin::StringSplit
            | Builtin::StringFormat
    )
}

/// A text as a value.
pub(crate) fn text(bytes: &[u8], world: &mut LibWorld) -> Result<Value, OutOfMemory>
    requires { IsWorld world.old }
    ensures usable { IfOk result (MayUseIn world.new) }
    ensures keeps { Keeps world.old world.new }
{
    let id = text_value(&mut world.names, bytes)?;
    Ok(Value::Str(id))
}
