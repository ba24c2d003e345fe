//! Instructions that take values in hand.

ghost use Rattle.std.specs.Prelude.{◌≡◌, [], cond, true, IfOk, OnOk};
ghost use Rattle.op_words.specs.Chunks.{ChunkOf, ProtoOf};
ghost use Rattle.machine_world.specs.Sound.{IsMachine, GoesOn, Runs};
ghost use Rattle.machine_steps.specs.Courses.{Executes, IsDone, Stays, course, is_done};
ghost use Rattle.machine_steps.specs.Groups.{is_call};
ghost use Rattle.machine_steps.specs.Ready.{BeginsWithin, IsReady, StandsAt, reaches};

use crate::done::Done;
use luau_tables::LibWorld;
use machine_flow::{ask, get_varargs};
use machine_rows::Next;
use machine_world::{Line, Machine};
use op_words::Insn;
use resource::OutOfMemory;
use value_model::Value;

/// Calls a value, leaves the function that runs, takes its variable arguments, or asks the generator of a loop.
pub(crate) fn call(
    machine: &mut Machine,
    world: &mut LibWorld,
    line: Line,
    values: &mut Vec<Value>,
) -> Result<Done, OutOfMemory>
    requires sound { IsMachine world.old machine.old.stack }
    requires goes { GoesOn machine.old.stack }
    requires ready { IsReady world.old machine.old.code machine.old.stack line.insn }
    requires group { is_call line.insn ≡ true }
    requires empty { values.old.items ≡ [] }
    ensures does { IfOk result (λ done. (chunk : ChunkOf) (p : ProtoOf) → StandsAt chunk p world.old machine.old.code machine.old.stack line.insn line.next → Executes chunk line.insn world.old machine.old.code machine.old.stack 0 (course world.new.names values.new.items done) world.new machine.new.stack) }
    ensures sound { OnOk result (IsMachine world.new machine.new.stack) }
    ensures done { IfOk result (λ done. IsDone world.new machine.new.stack values.new.items done) }
    ensures built { IfOk result (λ done. BeginsWithin machine.old.stack line.insn → is_done done ≡ true) }
    ensures stays { Stays world.old world.new }
    ensures code { machine.new.code ≡ machine.old.code }
{
    let next = line.next;
    match line.insn {
        Insn::Call {
            base,
            arguments,
            results,
        } => {
            let callee = machine.call(world, base, arguments, results, next, values)?;
            Ok(Done::Invokes(callee))
        }
        Insn::Return {
            base,
            values: count,
        } => {
            let from = begin(machine, base);
            machine.return_(world, from, count, values)?;
            Ok(Done::Hands)
        }
        Insn::GetVarargs {
            base,
            values: count,
        } => {
            if reaches(machine, base) {
                get_varargs(machine, world, base, count, next, values)?;
                Ok(Done::Next(Next::Continues))
            } else {
                Ok(Done::NotBuilt)
            }
        }
        Insn::ForGLoop {
            base,
            by,
            variables,
        } => {
            let generator = ask(machine, world, base, variables, by, next, values)?;
            Ok(Done::Invokes(generator))
        }
        _ => unreachable!(),
    }
}

// Whether a register is one of the function that runs, or the one behind them.
fn reaches(machine: &Machine, register: u8) -> bool
    requires { Runs machine.now.stack }
    ensures { result ≡ reaches machine.now.stack register }
{
    let Some(frame) = machine.stack.frame() else {
        unreachable!()
    };
    register <= frame.registers
}

/// Where a list of values begins. One that begins beyond the registers has none, and begins anywhere.
pub(crate) fn begin(machine: &Machine, register: u8) -> u8
    requires { Runs machine.now.stack }
    ensures { result ≡ cond (reaches machine.now.stack register) register 0 }
{
    if reaches(machine, register) {
        register
    } else {
        0
    }
}
