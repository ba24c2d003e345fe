//! Texts of values: `tostring` and `print`, which ask for `__tostring`.

ghost use Rattle.std.specs.Prelude.{◌≡◌, ◌++◌, List, map, drop, IfOk, OnOk, OnErr};
ghost use Rattle.std.specs.List.{AllByRecursion};
ghost use Rattle.value_model.specs.CoreRows as core;
ghost use Rattle.value_model.specs.Names.{plain_text};
ghost use Rattle.value_model.specs.Parts.{meant};
ghost use Rattle.value_model.specs.Values.{Text};
ghost use Rattle.value_model.specs.Waits as wait;
ghost use Rattle.luau_tables.specs.Answers.{Answered};
ghost use Rattle.luau_tables.specs.Worlds.{IsWorld, Keeps, MayUseIn, store_in};
ghost use Rattle.lib_arguments.specs.Rows.{Runs};
ghost use Rattle.lib_core.specs.Asking.{Asks, PrintsOne};

use byte_text::Bytes;
use lib_arguments::{Ending, answer, any_at, give_text, tostring_of};
use luau_tables::{LibAnswer, LibWorld, plain_into};
use resource::OutOfMemory;
use std::alloc::Global;
use value_model::{Builtin, Continue, Value};

pub(crate) fn tostring(
    alloc: Global,
    args: &[Value],
    world: &mut LibWorld,
    results: &mut Vec<Value>,
) -> Result<LibAnswer, OutOfMemory>
    requires world { IsWorld world.old }
    requires args { AllByRecursion (MayUseIn world.old) args.now }
    ensures answered { IfOk result (λ a. Answered world.old world.new results.old.items results.new.items a wait.Elsewise (core.tostring_row (map (meant world.old.names) args.now) (store_in world.old))) }
    ensures err { OnErr result (results.new.items ≡ results.old.items) }
    ensures keeps { Keeps world.old world.new }
{
    let v = match any_at(Builtin::Tostring, 0, args) {
        Ok(v) => v,
        Err(e) => return answer(Err(e)),
    };
    match tostring_of(world, &v) {
        Value::Nil => answer(give_plain(alloc, &v, world, results)),
        handler => call_back(alloc, handler, v, Builtin::Tostring, args, 0, &[]),
    }
}

// Gives the plain text of a value.
fn give_plain(
    alloc: Global,
    v: &Value,
    world: &mut LibWorld,
    results: &mut Vec<Value>,
) -> Result<(), Ending>
    requires world { IsWorld world.old }
    requires v { MayUseIn world.old v.now }
    ensures runs { Runs world.old world.new results.old.items results.new.items result (core.gives (store_in world.old) (Text (plain_text (store_in world.old) (meant world.old.names v.now)))) }
    ensures keeps { Keeps world.old world.new }
{
    let mut text = Vec::new(alloc);
    match add_plain(v, world, &mut text) {
        Ok(()) => give_text(text.as_slice(), world, results),
        Err(OutOfMemory) => Err(Ending::OutOfMemory),
    }
}

// Appends the plain text of a value.
fn add_plain(v: &Value, world: &LibWorld, text: &mut Vec<u8>) -> Result<(), OutOfMemory>
    ensures ok { OnOk result (text.new.items ≡ text.old.items ++ plain_text (store_in world.now) (meant world.now.names v.now)) }
{
    plain_into(&world.arena, &world.names, &world.globals, *v, text)
}

// The call of a handler for the text of a value. Behind it the function goes on with its arguments, of which the value is that
// at a place, and with the text so far.
fn call_back(
    alloc: Global,
    handler: Value,
    v: Value,
    f: Builtin,
    args: &[Value],
    at: usize,
    text: &[u8],
) -> Result<LibAnswer, OutOfMemory>
    ensures { IfOk result (Asks handler v f args.now at text.now) }
{
    let mut values = Vec::new(alloc);
    values.push(v)?;
    let args = Vec::from_slice(alloc, args)?;
    let text = Bytes::from_slice(alloc, text)?;
    Ok(LibAnswer::CallBack {
        callee: handler,
        args: values,
        then: Continue {
            builtin: f,
            args,
            at,
            text,
        },
    })
}

/// The line of a `print` of all arguments.
pub(crate) fn print(
    alloc: Global,
    args: &[Value],
    world: &LibWorld,
) -> Result<LibAnswer, OutOfMemory>
    requires world { IsWorld world.now }
    requires args { AllByRecursion (MayUseIn world.now) args.now }
    ensures { IfOk result (λ a. (rs : List Value) → Answered world.now world.now rs rs a wait.Elsewise (core.print_row (map (meant world.now.names) args.now) (store_in world.now))) }
{
    print_from(alloc, args, 0, Vec::new(alloc), world)
}

/// The line of a `print`, from the argument at a place on, behind the text so far.
pub(crate) fn print_from(
    alloc: Global,
    args: &[Value],
    from: usize,
    mut text: Vec<u8>,
    world: &LibWorld,
) -> Result<LibAnswer, OutOfMemory>
    requires world { IsWorld world.now }
    requires args { AllByRecursion (MayUseIn world.now) args.now }
    ensures { IfOk result (λ a. (rs : List Value) → Answered world.now world.now rs rs a wait.Elsewise (core.prints (store_in world.now) (map (meant world.now.names) args.now) from text.items (drop from (map (meant world.now.names) args.now)))) }
{
    for at in from..args.len() {
        if let Some(call) = print_one(alloc, args, at, &args[at], world, &mut text)? {
            return Ok(call);
        }
    }
    let line = Bytes::from_slice(alloc, text.as_slice())?;
    Ok(LibAnswer::Print(line))
}

// Appends the text of an argument, with a tab before each but the first; or the call of its handler.
fn print_one(
    alloc: Global,
    args: &[Value],
    at: usize,
    v: &Value,
    world: &LibWorld,
    text: &mut Vec<u8>,
) -> Result<Option<LibAnswer>, OutOfMemory>
    requires world { IsWorld world.now }
    requires args { AllByRecursion (MayUseIn world.now) args.now }
    requires v { MayUseIn world.now v.now }
    ensures { IfOk result (PrintsOne world.now (map (meant world.now.names) args.now) at (meant world.now.names v.now) text.old.items text.new.items) }
{
    add_tab(at, text)?;
    match tostring_of(world, v) {
        Value::Nil => {
            add_plain(v, world, text)?;
            Ok(None)
        }
        handler => {
            let call = call_back(
                alloc,
                handler,
                *v,
                Builtin::Print,
                args,
                at,
                text.as_slice(),
            )?;
            Ok(Some(call))
        }
    }
}

// Appends a tab, but not before the first argument.
fn add_tab(at: usize, text: &mut Vec<u8>) -> Result<(), OutOfMemory>
    ensures { OnOk result (text.new.items ≡ core.with_tab at text.old.items) }
{
    if at > 0 {
        text.push(b'\t')?;
    }
    Ok(())
}
