//! The instructions of a function, in order.

ghost use Rattle.chunk_check.specs.Lines.{IsWithin, lines_of};
ghost use Rattle.machine_meaning.specs.Needs.{lines};
ghost use Rattle.std.specs.List.{All};
ghost use Rattle.std.specs.Prelude.{◌≡◌, ◌+◌, IfOk, length};

use op_words::{Insn, decode};
use std::alloc::{AllocError, Global};

/// An instruction with its place and the place behind its words.
#[derive(Clone, Copy)]
pub(crate) struct Line {
    pub(crate) place: usize,
    pub(crate) insn: Insn,
    pub(crate) next: usize,
}

/// The instructions of the code, up to the first place where none stands.
pub(crate) fn decode_all(alloc: Global, code: &[u32]) -> Result<Vec<Line>, AllocError>
    ensures lines { IfOk result (λ found. lines_of found.items ≡ lines code.now) }
    ensures within { IfOk result (λ found. All (IsWithin (length code.now + 1)) found.items) }
{
    let mut found = Vec::new(alloc);
    let mut place = 0;
    for _ in 0..code.len() {
        let Some((insn, next)) = decode(code, place) else {
            return Ok(found);
        };
        found.push(Line { place, insn, next })?;
        place = next;
    }
    Ok(found)
}
