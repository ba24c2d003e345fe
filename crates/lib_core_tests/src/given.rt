//! Arguments.

ghost use Rattle.std.specs.Prelude.{IsTrue, IfOk};
ghost use Rattle.std.specs.List.{AllByRecursion};
ghost use Rattle.lib_core.specs.Builtins.{IsAsker, IsCore};
ghost use Rattle.luau_tables.specs.Worlds.{IsWorld, Keeps, MayUseIn};
ghost use Rattle.luau_tables.specs.declared.globals.LibWorld.{LibWorld};
ghost use Rattle.value_model.specs.declared.value.Value.TheVariants.{Table};

use lib_arguments::text_value;
use luau_tables::LibWorld;
use std::test::Fail;
use value_model::{Builtin, TableId, Value};
use whole_num::Whole;

/// An argument.
#[derive(Clone, Copy)]
pub(crate) enum Given {
    Nil,
    True,
    False,
    Number(i64),
    Text(&'static str),
    /// The function `print`.
    Function,
    /// The table of the script.
    Own,
    /// The global table, which is frozen.
    Global,
}

/// The value of an argument.
pub(crate) fn value_of(given: &Given, world: &mut LibWorld, own: TableId) -> Result<Value, Fail>
    requires world { IsWorld world.old }
    requires own { MayUseIn world.old (Table own) }
    ensures usable { IfOk result (MayUseIn world.new) }
    ensures keeps { Keeps world.old world.new }
{
    match given {
        Given::Nil => Ok(Value::Nil),
        Given::True => Ok(Value::Bool(true)),
        Given::False => Ok(Value::Bool(false)),
        Given::Number(n) => number(*n),
        Given::Text(text) => text_value_of(text, world),
        Given::Function => Ok(Value::Native(Builtin::Print)),
        Given::Own => Ok(Value::Table(own)),
        Given::Global => Ok(global(world)),
    }
}

// A number.
fn number(n: i64) -> Result<Value, Fail>
    ensures { IfOk result (λ v. (w : LibWorld) → MayUseIn w v) }
{
    let number = Whole::new(n).ok_or("out of range")?;
    Ok(Value::Num(number))
}

// A text.
fn text_value_of(text: &str, world: &mut LibWorld) -> Result<Value, Fail>
    requires { IsWorld world.old }
    ensures usable { IfOk result (MayUseIn world.new) }
    ensures keeps { Keeps world.old world.new }
{
    let id = text_value(&mut world.names, text.as_bytes())?;
    Ok(Value::Str(id))
}

// The global table.
fn global(world: &LibWorld) -> Value
    requires { IsWorld world.now }
    ensures { MayUseIn world.now result }
{
    Value::Table(world.globals.table)
}

/// The values of arguments.
pub(crate) fn values_of(
    rt: &impl AllocGlobal,
    args: &[Given],
    world: &mut LibWorld,
    own: TableId,
) -> Result<Vec<Value>, Fail>
    requires world { IsWorld world.old }
    requires own { MayUseIn world.old (Table own) }
    ensures usable { IfOk result (λ vs. AllByRecursion (MayUseIn world.new) vs.items) }
    ensures keeps { Keeps world.old world.new }
{
    let mut values = Vec::new(rt.alloc());
    for given in args {
        let value = value_of(given, world, own)?;
        values.push(value)?;
    }
    Ok(values)
}

/// Whether a function is one of the global table that can be called.
pub(crate) fn is_core(builtin: Builtin) -> bool
    ensures { IsTrue result → IsCore builtin }
{
    matches!(
        builtin,
        Builtin::Print
            | Builtin::Type
            | Builtin::Typeof
            | Builtin::Tostring
            | Builtin::Tonumber
            | Builtin::Assert
            | Builtin::Error
            | Builtin::Select
            | Builtin::Next
            | Builtin::Pairs
            | Builtin::Ipairs
            | Builtin::IpairsIterator
            | Builtin::Rawget
            | Builtin::Rawset
            | Builtin::Rawequal
            | Builtin::Rawlen
            | Builtin::Getmetatable
            | Builtin::Setmetatable
    )
}

/// Whether a function asks for the texts of its arguments.
pub(crate) fn is_asker(builtin: Builtin) -> bool
    ensures { IsTrue result → IsAsker builtin }
{
    matches!(builtin, Builtin::Print | Builtin::Tostring)
}
