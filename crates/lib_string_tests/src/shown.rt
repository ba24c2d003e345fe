//! The texts of answers.

ghost use Rattle.std.specs.List.{AllByRecursion};
ghost use Rattle.luau_tables.specs.Answers.{MayAnswer};
ghost use Rattle.luau_tables.specs.Worlds.{MayUseIn};
ghost use Rattle.value_arena.specs.Arenas.{HasTable};

use luau_tables::{LibAnswer, LibWorld, plain_into};
use std::test::Fail;
use value_model::{TableId, Value};
use whole_num::print_into;

/// Appends what a call gave: its values, each behind a blank, the text of its run error, `stop`, or `call`.
pub(crate) fn answer_into(
    answer: &LibAnswer,
    results: &[Value],
    world: &LibWorld,
    out: &mut Vec<u8>,
) -> Result<(), Fail>
    requires answer { MayAnswer world.now answer.now }
    requires results { AllByRecursion (MayUseIn world.now) results.now }
{
    match answer {
        LibAnswer::Values => values_into(results, world, out),
        LibAnswer::RunError(error) => Ok(error.text_into(&world.names, out)?),
        LibAnswer::Stop(_) => Ok(out.extend_from_slice(b"stop")?),
        _ => Ok(out.extend_from_slice(b"call")?),
    }
}

fn values_into(results: &[Value], world: &LibWorld, out: &mut Vec<u8>) -> Result<(), Fail>
    requires { AllByRecursion (MayUseIn world.now) results.now }
{
    for i in 0..results.len() {
        out.push(b' ')?;
        value_into(results[i], world, out)?;
    }
    Ok(())
}

// A number, a text in brackets, or the values of a table in braces.
fn value_into(value: Value, world: &LibWorld, out: &mut Vec<u8>) -> Result<(), Fail>
    requires { MayUseIn world.now value }
{
    match value {
        Value::Num(number) => Ok(print_into(number, out)?),
        Value::Table(id) => table_into(id, world, out),
        _ => text_into(value, world, out),
    }
}

fn table_into(id: TableId, world: &LibWorld, out: &mut Vec<u8>) -> Result<(), Fail>
    requires { HasTable world.now.arena id }
{
    let table = world.arena.table(id);
    out.push(b'{')?;
    for place in 0..table.len() {
        text_into(table.at(place).1, world, out)?;
    }
    out.push(b'}')?;
    Ok(())
}

fn text_into(value: Value, world: &LibWorld, out: &mut Vec<u8>) -> Result<(), Fail> {
    out.push(b'[')?;
    plain_into(&world.arena, &world.names, &world.globals, value, out)?;
    out.push(b']')?;
    Ok(())
}
