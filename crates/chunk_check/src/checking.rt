//! Chunks are checked.

ghost use Rattle.chunk_check.specs.Checks.{Checks};
ghost use Rattle.chunk_check.specs.Faults.{before_of, fault_of};
ghost use Rattle.chunk_check.specs.Lines.{lines_of};
ghost use Rattle.machine_meaning.specs.WellFormed as rules;
ghost use Rattle.op_words.specs.Chunks.{chunk_of, proto_of};
ghost use Rattle.std.specs.Prelude.{◌≡◌, IfOk, false, option_map};

use crate::checked::Checked;
use crate::error::CheckErr;
use crate::faults::{Fault, located, sooner};
use crate::layout::Layout;
use crate::rules::{Before, end_fault, line_rule, main_fault, start_fault};
use op_words::{Chunk, Proto};
use std::alloc::{AllocError, Global};

/// The chunk itself, with the knowledge that it is well formed; else the first broken rule, by prototype, place and the number of the rule.
pub fn check(alloc: Global, chunk: Chunk) -> Result<Checked, CheckErr>
    ensures { Checks (chunk_of chunk) result }
{
    match code_fault(alloc, &chunk) {
        Ok(None) => Ok(Checked::new(chunk)),
        Ok(Some(fault)) => Err(CheckErr::BadCode {
            proto: fault.proto,
            place: fault.place,
            rule: fault.rule,
        }),
        Err(AllocError) => Err(CheckErr::OutOfMemory),
    }
}

// The first broken rule of a chunk.
fn code_fault(alloc: Global, chunk: &Chunk) -> Result<Option<Fault>, AllocError>
    ensures { IfOk result (λ found. option_map fault_of found ≡ rules.code_fault (chunk_of chunk.now)) }
{
    let mut found = main_fault(chunk);
    for (number, proto) in chunk.protos.iter().enumerate() {
        found = sooner(found, proto_fault(alloc, chunk, number, proto)?);
    }
    Ok(found)
}

// The first broken rule of a function.
fn proto_fault(
    alloc: Global,
    chunk: &Chunk,
    number: usize,
    proto: &Proto,
) -> Result<Option<Fault>, AllocError>
    ensures { IfOk result (λ found. option_map fault_of found ≡ rules.first_of (rules.proto_faults (chunk_of chunk.now) number (proto_of proto.now))) }
{
    let layout = Layout::new(alloc, &proto.code)?;
    let line = line_fault(chunk, number, proto, &layout);
    let end = end_fault(number, proto.code.len(), layout.lines());
    let start = start_fault(chunk, number, proto, layout.lines());
    Ok(sooner(sooner(line, end), start))
}

// The first rule that an instruction breaks.
fn line_fault(chunk: &Chunk, number: usize, proto: &Proto, layout: &Layout) -> Option<Fault>
    ensures { option_map fault_of result ≡ rules.first_of (rules.line_faults (chunk_of chunk.now) number (proto_of proto.now)
        layout.now (rules.landings false false layout.now) rules.at_start layout.now) }
{
    let lines = layout.lines();
    let mut before = Before::start();
    let mut found = None;
    for (index, line) in lines.iter().enumerate() {
        let rule = line_rule(
            chunk,
            number,
            proto,
            layout,
            before,
            *line,
            &lines[index + 1..],
        );
        found = sooner(found, located(number, line.place, rule));
        before = before.passing(line.insn);
    }
    found
}
