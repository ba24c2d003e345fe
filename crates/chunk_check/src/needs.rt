//! What an instruction needs: known fields, upvalues, children and places to jump to.

ghost use Rattle.machine_meaning.specs.Needs as needs;
ghost use Rattle.op_words.specs.Chunks.{proto_of};
ghost use Rattle.op_words.specs.declared.insn.Insn.TheVariants.{Capture};
ghost use Rattle.std.specs.Prelude.{◌≡◌, is_some};

use op_words::{Insn, Proto};

// ---- opcodes

/// Whether the fields that hold only some numbers hold one of these.
pub(crate) fn is_known(insn: Insn) -> bool
    ensures { result ≡ needs.is_known insn }
{
    match insn {
        Insn::Nop { turns } => turns == 0 || turns == 1,
        Insn::Capture { kind, .. } => kind <= 2,
        _ => true,
    }
}

// ---- upvalues and children

// A capture of kind 2 is that of an upvalue.
fn captured_upvalue(kind: u8, from: u8) -> Option<u8>
    ensures { result ≡ needs.upvalue_of (Capture kind from) }
{
    match kind {
        2 => Some(from),
        _ => None,
    }
}

/// The upvalue that is read, written or captured.
fn upvalue_of(insn: Insn) -> Option<u8>
    ensures { result ≡ needs.upvalue_of insn }
{
    match insn {
        Insn::GetUpvalue { upvalue, .. } | Insn::SetUpvalue { upvalue, .. } => Some(upvalue),
        Insn::Capture { kind, from } => captured_upvalue(kind, from),
        _ => None,
    }
}

/// Whether the upvalue is one of the first `count`.
pub(crate) fn has_upvalue(count: u8, insn: Insn) -> bool
    ensures { result ≡ needs.all_below count (needs.upvalue_of insn) }
{
    match upvalue_of(insn) {
        None => true,
        Some(upvalue) => upvalue < count,
    }
}

/// The number of the prototype of a child.
pub(crate) fn child_of(proto: &Proto, child: i16) -> Option<u32>
    ensures { result ≡ needs.child_of (proto_of proto.now) child }
{
    if child < 0 {
        return None;
    }
    proto.children.get(child as usize).copied()
}

pub(crate) fn has_child(proto: &Proto, insn: Insn) -> bool
    ensures { result ≡ needs.has_child (proto_of proto.now) insn }
{
    match insn {
        Insn::NewClosure { child, .. } => child_of(proto, child).is_some(),
        _ => true,
    }
}

// ---- jumps

/// By how many words from behind its first word an instruction may jump.
pub(crate) fn jump_of(insn: Insn) -> Option<i32>
    ensures { result ≡ needs.jump_of insn }
{
    match insn {
        Insn::LoadB { skip, .. } => Some(i32::from(skip)),
        Insn::JumpX { by: far } => Some(far),
        Insn::Jump { by } => Some(i32::from(by)),
        Insn::JumpBack { by } => Some(i32::from(by)),
        Insn::JumpIf { by, .. } => Some(i32::from(by)),
        Insn::JumpIfNot { by, .. } => Some(i32::from(by)),
        Insn::JumpIfEq { by, .. } => Some(i32::from(by)),
        Insn::JumpIfLe { by, .. } => Some(i32::from(by)),
        Insn::JumpIfLt { by, .. } => Some(i32::from(by)),
        Insn::JumpIfNotEq { by, .. } => Some(i32::from(by)),
        Insn::JumpIfNotLe { by, .. } => Some(i32::from(by)),
        Insn::JumpIfNotLt { by, .. } => Some(i32::from(by)),
        Insn::ForNPrep { by, .. } => Some(i32::from(by)),
        Insn::ForNLoop { by, .. } => Some(i32::from(by)),
        Insn::ForGPrep { by, .. } => Some(i32::from(by)),
        Insn::ForGLoop { by, .. } => Some(i32::from(by)),
        Insn::JumpXEqKNil { by, .. } => Some(i32::from(by)),
        Insn::JumpXEqKB { by, .. } => Some(i32::from(by)),
        Insn::JumpXEqKN { by, .. } => Some(i32::from(by)),
        Insn::JumpXEqKS { by, .. } => Some(i32::from(by)),
        _ => None,
    }
}

/// The word that a jump leads to.
pub(crate) fn target(place: usize, by: i32) -> i128
    ensures { result ≡ needs.target place by }
{
    place as i128 + 1 + by as i128
}

pub(crate) fn goes_back(insn: Insn) -> bool
    ensures { result ≡ needs.goes_back insn }
{
    matches!(
        insn,
        Insn::JumpBack { .. } | Insn::ForNLoop { .. } | Insn::ForGLoop { .. }
    )
}

// ---- neighbours

pub(crate) fn is_fast(insn: Insn) -> bool
    ensures { result ≡ needs.is_fast insn }
{
    matches!(
        insn,
        Insn::FastCall { .. }
            | Insn::FastCall1 { .. }
            | Insn::FastCall2 { .. }
            | Insn::FastCall2K { .. }
    )
}

pub(crate) fn is_capture(insn: Insn) -> bool
    ensures { result ≡ needs.is_capture insn }
{
    matches!(insn, Insn::Capture { .. })
}

/// The first register of the list without an end that an instruction sets.
pub(crate) fn sets_top(insn: Insn) -> Option<u8>
    ensures { result ≡ needs.sets_top insn }
{
    match insn {
        Insn::Call { base, results, .. } if results == 0 => Some(base),
        Insn::GetVarargs { base, values } if values == 0 => Some(base),
        _ => None,
    }
}

/// The first register of the list without an end that an instruction reads.
pub(crate) fn reads_top(insn: Insn) -> Option<u16>
    ensures { result ≡ needs.reads_top insn }
{
    match insn {
        Insn::Call {
            base,
            arguments,
            ..
        } if arguments == 0 => Some(u16::from(base) + 1),
        Insn::Return { base, values } if values == 0 => Some(u16::from(base)),
        Insn::SetList { from, count, .. } if count == 0 => Some(u16::from(from)),
        _ => None,
    }
}

/// Whether an instruction belongs to the one before, where the last one is a fast call or not, and the one before that.
pub(crate) fn is_bound(fast: bool, fast_two: bool, insn: Insn) -> bool
    ensures { result ≡ needs.bound_by fast fast_two insn }
{
    fast || fast_two || is_capture(insn) || reads_top(insn).is_some()
}
