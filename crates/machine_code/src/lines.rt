//! The instructions of a function, by place.

ghost use Rattle.std.specs.Prelude.{◌≡◌, IfOk};
ghost use Rattle.op_words.specs.Decoding.{insn_at};
ghost use Rattle.machine_code.specs.Code.{AreLinesOf, line_of, no_line};

use crate::code::Line;
use op_words::{Insn, decode};
use resource::OutOfMemory;
use sqlite_items::Items;
use std::alloc::Global;

/// What stands at each place of the code.
pub(crate) fn lines(alloc: Global, code: &[u32]) -> Result<Items<Line>, OutOfMemory>
    ensures { IfOk result (AreLinesOf code.now) }
{
    let mut found = Items::new(alloc);
    for place in 0..code.len() {
        found.push(line_at(code, place))?;
    }
    Ok(found)
}

// What stands at a place.
fn line_at(code: &[u32], place: usize) -> Line
    ensures { result ≡ line_of (insn_at code.now place) }
{
    match decode(code, place) {
        Some((insn, next)) => Line { insn, next },
        None => no_line(),
    }
}

// What stands where no instruction begins.
fn no_line() -> Line
    ensures { result ≡ no_line }
{
    Line {
        insn: Insn::Nop { turns: -1 },
        next: 0,
    }
}
