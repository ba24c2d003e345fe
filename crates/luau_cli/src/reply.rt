//! Answers: what is written, and with which status the program ends.

ghost use Rattle.std.specs.Prelude.{◌≡◌, ◌⊎◌, ◌↔◌, ◌++◌, [], IfOk, IsTrue};
ghost use Rattle.built_vm.specs.Shown.{line_of};
ghost use Rattle.luau_cli.specs.Answer.{refusal, refused_text, written, IsDone, HasRefused};
ghost use Rattle.luau_cli.specs.Delivery.{Delivers, change};
ghost use Rattle.luau_cli.specs.Making.{answer_of};

use crate::refusal::ScriptErr;
use outside_io::{Sink, WriteErr, put_all};
use resource::OutOfMemory;
use std::alloc::Global;

/// The status where what was asked for was written.
const WRITTEN: u8 = 0;

/// The status of a script that is refused.
const REFUSED: u8 = 3;

/// The status where a write failed.
pub const WRITE_FAULT: u8 = 5;

/// The status where a script's turns are spent.
pub const SPENT: u8 = 7;

/// A status, and the bytes for the output and the report.
#[derive(Drop)]
pub struct Reply {
    pub status: u8,
    pub output: Vec<u8>,
    pub report: Vec<u8>,
}

impl Reply {
    /// A refusal: no output, and a line of two parts for the report.
    pub fn refusal(
        alloc: Global,
        status: u8,
        about: &[u8],
        detail: &[u8],
    ) -> Result<Reply, OutOfMemory>
        ensures { IfOk result (λ r. answer_of r ≡ refusal status (about.now ++ detail.now)) }
    {
        let report = line(alloc, about, detail)?;
        Ok(Reply {
            status,
            output: Vec::new(alloc),
            report,
        })
    }

    /// The refusal of a script.
    pub fn refused(alloc: Global, why: ScriptErr) -> Result<Reply, OutOfMemory>
        ensures { IfOk result (λ r. answer_of r ≡ refusal 3 (refused_text why)) }
    {
        let text = format!(in alloc; "{why}")?;
        Reply::refusal(alloc, REFUSED, b"1 refused: ", text.as_bytes())
    }

    /// Some bytes, and nothing to report.
    pub fn written(alloc: Global, output: Vec<u8>) -> Reply
        ensures { answer_of result ≡ written output.items }
    {
        Reply {
            status: WRITTEN,
            output,
            report: Vec::new(alloc),
        }
    }

    /// Writes the output and then the report, and gives the status.
    ///
    /// Behind a failed write nothing more is written.
    pub fn deliver<O: Sink, E: Sink>(&self, out: &mut O, report: &mut E) -> u8
        requires { IsDone self.now.status ⊎ (HasRefused self.now.status × (self.now.output.items ≡ [])) }
        ensures { Delivers (answer_of self.now)
            (change (O.bytes out.old) (O.bytes out.new) (O.faults out.old) (O.faults out.new))
            (change (E.bytes report.old) (E.bytes report.new) (E.faults report.old) (E.faults report.new))
            result }
    {
        match put_all(out, self.output.as_slice()) {
            Ok(()) => {}
            Err(WriteErr::WriteFault) => return WRITE_FAULT,
        }
        match put_all(report, self.report.as_slice()) {
            Ok(()) => self.status,
            Err(WriteErr::WriteFault) if self.is_done() => WRITE_FAULT,
            Err(WriteErr::WriteFault) => self.status,
        }
    }

    /// Whether the status is that of work that was done.
    fn is_done(&self) -> bool
        ensures { IsTrue result ↔ IsDone self.now.status }
    {
        self.status <= 1 || self.status == SPENT
    }
}

/// A line of two parts.
pub fn line(alloc: Global, about: &[u8], detail: &[u8]) -> Result<Vec<u8>, OutOfMemory>
    ensures { IfOk result (λ v. v.items ≡ line_of (about.now ++ detail.now)) }
{
    let mut line = Vec::from_slice(alloc, about)?;
    line.extend_from_slice(detail)?;
    line.push(b'\n')?;
    Ok(line)
}
