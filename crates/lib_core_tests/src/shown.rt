//! The texts of answers.

ghost use Rattle.luau_tables.specs.Answers.{MayAnswer};

use luau_tables::{LibAnswer, LibWorld, plain_into};
use std::test::Fail;
use value_model::Value;
use whole_num::Stop;

/// Appends what a call gave: its values, each behind a blank; `prints` and a line; `raises` and a value; the text of a run error;
/// `stop` and its cause; or `calls`, a value that is to be called, and what it is given.
pub(crate) fn answer_into(
    answer: &LibAnswer,
    results: &[Value],
    world: &LibWorld,
    out: &mut Vec<u8>,
) -> Result<(), Fail>
    requires { MayAnswer world.now answer.now }
{
    match answer {
        LibAnswer::Values => values_into(results, world, out),
        LibAnswer::Print(line) => line_into(line.as_slice(), out),
        LibAnswer::RunError(error) => Ok(error.text_into(&world.names, out)?),
        LibAnswer::Raise(value) => behind(b"raises", &[*value], world, out),
        LibAnswer::Stop(Stop::NotWhole) => Ok(out.extend_from_slice(b"stop not whole")?),
        LibAnswer::Stop(Stop::OutOfRange) => Ok(out.extend_from_slice(b"stop out of range")?),
        LibAnswer::CallBack { callee, args, .. } => {
            behind(b"calls", &[*callee], world, out)?;
            values_into(args.as_slice(), world, out)
        }
    }
}

// Appends a line that is printed.
fn line_into(line: &[u8], out: &mut Vec<u8>) -> Result<(), Fail> {
    out.extend_from_slice(b"prints ")?;
    Ok(out.extend_from_slice(line)?)
}

// Appends a word, and values behind it.
fn behind(word: &[u8], values: &[Value], world: &LibWorld, out: &mut Vec<u8>) -> Result<(), Fail> {
    out.extend_from_slice(word)?;
    values_into(values, world, out)
}

// Appends the texts of values, each behind a blank.
fn values_into(values: &[Value], world: &LibWorld, out: &mut Vec<u8>) -> Result<(), Fail> {
    for value in values {
        out.push(b' ')?;
        plain_into(&world.arena, &world.names, &world.globals, *value, out)?;
    }
    Ok(())
}
