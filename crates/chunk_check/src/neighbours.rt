//! Instructions that belong together: those that stand behind one.

ghost use Rattle.chunk_check.specs.Lines.{lines_of};
ghost use Rattle.machine_meaning.specs.WellFormed as rules;
ghost use Rattle.op_words.specs.Chunks.{chunk_of, proto_of};
ghost use Rattle.std.specs.Prelude.{◌≡◌};

use crate::lines::Line;
use crate::needs::{child_of, is_capture, is_fast, reads_top};
use op_words::{Chunk, Insn, Proto};

// ---- pairs

// Whether they are a move of a register to itself, which holds the callee, and its call.
fn is_move_before(insn: Insn, call: Insn) -> bool
    ensures { result ≡ rules.is_move_before insn call }
{
    match (insn, call) {
        (Insn::Move { to, from }, Insn::Call { base, .. }) => to == from && base == to,
        _ => false,
    }
}

// Whether a move of the callee and its call stand first, the call so many words behind the next word.
fn is_move_and_call(over: u8, place: usize, rest: &[Line]) -> bool
    ensures { result ≡ rules.is_move_and_call over place (lines_of rest.now) }
{
    let (Some(first), Some(second)) = (rest.first(), rest.get(1)) else {
        return false;
    };
    is_move_before(first.insn, second.insn)
        && second.place as u128 == place as u128 + 1 + over as u128
}

fn is_builtin(number: u8) -> bool
    ensures { result ≡ rules.is_builtin number }
{
    number >= 1 && number <= 17
}

/// Whether what a fast call needs stands behind it.
pub(crate) fn calls_well(place: usize, rest: &[Line], insn: Insn) -> bool
    ensures { result ≡ rules.calls_well place (lines_of rest.now) insn }
{
    match insn {
        Insn::FastCall { builtin, skip }
        | Insn::FastCall1 { builtin, skip, .. }
        | Insn::FastCall2 { builtin, skip, .. }
        | Insn::FastCall2K { builtin, skip, .. } => is_builtin(builtin)
            && is_move_and_call(skip, place, rest),
        _ => true,
    }
}

// How many captures stand first.
fn leading(rest: &[Line]) -> usize
    ensures { result ≡ rules.leading (lines_of rest.now) }
{
    for (count, line) in rest.iter().enumerate() {
        if !is_capture(line.insn) {
            return count;
        }
    }
    rest.len()
}

// How many upvalues the child has.
fn upvalues_at(chunk: &Chunk, child: Option<u32>) -> u8
    ensures { result ≡ rules.upvalues_at (chunk_of chunk.now) child }
{
    let Some(child) = child else {
        return 0;
    };
    match chunk.protos.get(child as usize) {
        Some(proto) => proto.upvalues,
        None => 0,
    }
}

/// Whether as many captures stand behind a closure as it has upvalues.
pub(crate) fn captures_well(chunk: &Chunk, proto: &Proto, rest: &[Line], insn: Insn) -> bool
    ensures { result ≡ rules.captures_well (chunk_of chunk.now) (proto_of proto.now) (lines_of rest.now) insn }
{
    match insn {
        Insn::NewClosure { child, .. } => {
            leading(rest) == usize::from(upvalues_at(chunk, child_of(proto, child)))
        }
        _ => true,
    }
}

// ---- lists without an end

// The instruction that comes next, a fast call and its move aside.
fn next_past_fast(rest: &[Line]) -> Option<Insn>
    ensures { result ≡ rules.first_insn (rules.past_fast (lines_of rest.now)) }
{
    let first = rest.first()?;
    if is_fast(first.insn) {
        Some(rest.get(2)?.insn)
    } else {
        Some(first.insn)
    }
}

/// Whether a list without an end, from this register on, is read by what comes next.
pub(crate) fn is_read(sets: Option<u8>, rest: &[Line]) -> bool
    ensures { result ≡ rules.is_read sets (lines_of rest.now) }
{
    let Some(from) = sets else {
        return true;
    };
    let Some(reader) = next_past_fast(rest) else {
        return false;
    };
    match reads_top(reader) {
        Some(first) => first <= u16::from(from),
        None => false,
    }
}
