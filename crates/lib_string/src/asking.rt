//! Directives, filled in with their arguments.

ghost use Rattle.std.specs.Prelude.{◌≡◌, ◌<◌, length, OnOk};
ghost use Rattle.lib_arguments.specs.Checks.{most_arguments};
ghost use Rattle.lib_string.specs.Directives.{field_of, form_of};
ghost use Rattle.lib_string.specs.Formats.{unasked, Fills};
ghost use Rattle.lib_string.specs.Reading.{MayUseAll};
ghost use Rattle.luau_tables.specs.Worlds.{IsWorld};
ghost use Rattle.value_model.specs.FormatRows as row;

use crate::argument_text::{byte_at, decimal_at, hex_at, plain_text_into};
use crate::directive::{Field, Form};
use lib_arguments::{Ending, any_at, tostring_of};
use luau_tables::LibWorld;
use resource::OutOfMemory;
use std::alloc::Global;
use value_model::{Builtin, Value};

/// A value whose text its `__tostring` has to give.
#[derive(Clone, Copy)]
pub(crate) struct Asking {
    pub handler: Value,
    pub value: Value,
}

/// Appends what a directive makes of its argument. Nothing is appended where a `__tostring` has to be called.
pub(crate) fn directive_into(
    alloc: Global,
    field: Field,
    at: usize,
    args: &[Value],
    world: &LibWorld,
    out: &mut Vec<u8>,
) -> Result<Option<Asking>, Ending>
    requires place { at < most_arguments }
    requires world { IsWorld world.now }
    requires args { MayUseAll world.now args.now }
    ensures fills { Fills world.now args.now at out.old.items out.new.items (field_of field) (form_of field.form) result }
    ensures there { OnOk result (at < length args.now) }
{
    match field.form {
        Form::Text => text_into(alloc, field, at, args, world, out),
        Form::Decimal => written(decimal_at(alloc, field, at, args, world, out)),
        Form::Hex(capital) => written(hex_at(alloc, field, capital, at, args, world, out)),
        Form::Byte => written(byte_at(field, at, args, world, out)),
    }
}

// What was appended asks for nothing.
fn written(done: Result<(), Ending>) -> Result<Option<Asking>, Ending>
    ensures { result ≡ unasked done }
{
    match done {
        Ok(()) => Ok(None),
        Err(ending) => Err(ending),
    }
}

// Appends the text of a value, or says what has to be called for it.
fn text_into(
    alloc: Global,
    field: Field,
    at: usize,
    args: &[Value],
    world: &LibWorld,
    out: &mut Vec<u8>,
) -> Result<Option<Asking>, Ending>
    requires place { at < most_arguments }
    requires world { IsWorld world.now }
    requires args { MayUseAll world.now args.now }
    ensures fills { Fills world.now args.now at out.old.items out.new.items (field_of field) row.AsText result }
    ensures there { OnOk result (at < length args.now) }
{
    let value = match any_at(Builtin::StringFormat, at, args) {
        Ok(value) => value,
        Err(ending) => return Err(ending),
    };
    match tostring_of(world, &value) {
        Value::Nil => match plain_text_into(alloc, field, value, world, out) {
            Ok(()) => Ok(None),
            Err(OutOfMemory) => Err(Ending::OutOfMemory),
        },
        handler => Ok(Some(Asking { handler, value })),
    }
}
