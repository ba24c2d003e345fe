//! The reply to what was read from a file, and the run of a script.

ghost use Rattle.std.specs.Prelude.{◌≡◌, ℕ, List, IfOk};
ghost use Rattle.built_values.specs.declared.end.End.{End};
ghost use Rattle.built_vm.specs.Shown.{line_of};
ghost use Rattle.luau_cli.specs.Answer.{AnswersBytes, AnswersScript, AnswersTree, Prints, IsProper, IsReported};
ghost use Rattle.luau_cli.specs.Making.{answer_of};
ghost use Rattle.luau_cli.specs.Refusals.{not_run};
ghost use Rattle.luau_cli.specs.Readings.{IsSound};

use crate::chunks::{reply_to_compile, reply_to_list};
use crate::refusal::ScriptErr;
use crate::reply::{Reply, SPENT, line};
use crate::script::{Reading, Script, read_script};
use crate::words::Mode;
use built_emitter::{compile, first_unbuilt};
use built_values::End;
use built_vm::{Ran, run};
use resource::OutOfMemory;
use std::alloc::Global;

const ENDED: u8 = 0;

const STOPPED: u8 = 1;

/// The reply to what was read, by the mode.
pub fn reply_to(alloc: Global, mode: Mode, bytes: &[u8], turns: u32) -> Result<Reply, OutOfMemory>
    ensures answers { IfOk result (λ r. AnswersBytes mode turns bytes.now (answer_of r)) }
    ensures proper { IfOk result (λ r. IsProper (answer_of r)) }
{
    match mode {
        Mode::Run => reply_to_run(alloc, bytes, turns),
        Mode::Compile => reply_to_compile(alloc, bytes),
        Mode::List => reply_to_list(alloc, bytes),
    }
}

/// What a script that is run answers: why and where it is refused, or what it prints with so many turns and how it ends.
fn reply_to_run(alloc: Global, source: &[u8], turns: u32) -> Result<Reply, OutOfMemory>
    ensures answers { IfOk result (λ r. AnswersScript not_run (Prints turns) source.now (answer_of r)) }
    ensures proper { IfOk result (λ r. IsProper (answer_of r)) }
{
    match read_script(alloc, source)? {
        Reading::Refused(why) => Reply::refused(alloc, ScriptErr::Refused(why)),
        Reading::Accepted(script) => run_script(alloc, &script, turns),
    }
}

/// The reply to an accepted script that is run.
fn run_script(alloc: Global, script: &Script, turns: u32) -> Result<Reply, OutOfMemory>
    requires { IsSound script.now }
    ensures answers { IfOk result (λ r. AnswersTree not_run (Prints turns) script.now.tree script.now.names (answer_of r)) }
    ensures proper { IfOk result (λ r. IsProper (answer_of r)) }
{
    match first_unbuilt(&script.tree, &script.bindings) {
        Some(at) => Reply::refused(alloc, ScriptErr::NotBuilt { at }),
        None => {
            let code = compile(alloc, &script.tree, &script.bindings)?;
            let ran = run(alloc, &code, turns)?;
            reply_to_ran(alloc, ran)
        }
    }
}

/// The reply to a script that ran.
fn reply_to_ran(alloc: Global, ran: Ran) -> Result<Reply, OutOfMemory>
    requires { (status : ℕ) × (text : List ℕ) × IsReported ran.end status text }
    ensures answers { IfOk result (λ r. (status : ℕ) × (text : List ℕ) × IsReported ran.end status text
        × (answer_of r ≡ record { status = status; output = ran.output.items; report = line_of text })) }
    ensures proper { IfOk result (λ r. IsProper (answer_of r)) }
{
    let Ran { output, end } = ran;
    let (status, report) = match end {
        End::Ended => (ENDED, line(alloc, b"1 ended", b"")?),
        End::Stopped(stop) => {
            let stop = format!(in alloc; "{stop}")?;
            (STOPPED, line(alloc, b"1 stopped: ", stop.as_bytes())?)
        }
        End::Unfinished => (SPENT, line(alloc, b"1 turns spent", b"")?),
        End::Stuck => unreachable!(),
    };
    Ok(Reply {
        status,
        output,
        report,
    })
}
