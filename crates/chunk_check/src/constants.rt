//! Constants that an instruction reads, and constants by themselves.

ghost use Rattle.machine_meaning.specs.Constants.{constant_at, name_at};
ghost use Rattle.machine_meaning.specs.Needs as needs;
ghost use Rattle.machine_meaning.specs.Needs.{AName, ANumber, AValue, AnImport, Want, constants_of};
ghost use Rattle.op_words.specs.Chunks.{chunk_of};
ghost use Rattle.std.specs.List.{list_all};
ghost use Rattle.std.specs.Prelude.{pos, ◌≡◌, ◌^◌, ◌%◌, ◌/◌, nat_lt, [], ◌∷◌, is_some};

use op_words::{Chunk, Const, Insn};

// The constant of a prototype.
fn constant_at(chunk: &Chunk, proto: usize, index: i64) -> Option<Const>
    ensures { result ≡ constant_at (chunk_of chunk.now) proto index }
{
    if index < 0 {
        return None;
    }
    match chunk.protos.get(proto) {
        Some(proto) => proto.consts.get(index as usize).copied(),
        None => None,
    }
}

// Whether the constant is there and is no import.
fn is_value(chunk: &Chunk, proto: usize, index: i64) -> bool
    ensures { result ≡ list_all (needs.finds (chunk_of chunk.now) proto) ((index, AValue) ∷ []) }
{
    match constant_at(chunk, proto, index) {
        None | Some(Const::Import(_)) => false,
        Some(_) => true,
    }
}

// Whether the constant is there and is a string.
fn is_name(chunk: &Chunk, proto: usize, index: i64) -> bool
    ensures { result ≡ list_all (needs.finds (chunk_of chunk.now) proto) ((index, AName) ∷ []) }
{
    matches!(constant_at(chunk, proto, index), Some(Const::Str(_)))
}

// Whether the constant is there and is a number.
fn is_number(chunk: &Chunk, proto: usize, index: i64) -> bool
    ensures { result ≡ list_all (needs.finds (chunk_of chunk.now) proto) ((index, ANumber) ∷ []) }
{
    matches!(constant_at(chunk, proto, index), Some(Const::Num(_)))
}

// Whether the constant is there and is the import of this word.
fn is_path(chunk: &Chunk, proto: usize, index: i64, word: u32) -> bool
    ensures { result ≡ list_all (needs.finds (chunk_of chunk.now) proto) ((index, AnImport word) ∷ []) }
{
    match constant_at(chunk, proto, index) {
        Some(Const::Import(path)) => path == word,
        _ => false,
    }
}

/// Whether the constant that is read is there, and of the kind that is wanted.
pub(crate) fn has_constant(chunk: &Chunk, proto: usize, insn: Insn) -> bool
    ensures { result ≡ list_all (needs.finds (chunk_of chunk.now) proto) (constants_of insn) }
{
    match insn {
        Insn::LoadK { constant, .. } => is_value(chunk, proto, i64::from(constant)),
        Insn::LoadKX { constant: far, .. } | Insn::FastCall2K { constant: far, .. } => is_value(
            chunk,
            proto,
            i64::from(far),
        ),
        Insn::GetGlobal { constant: name, .. }
        | Insn::SetGlobal { constant: name, .. }
        | Insn::GetTableKS { constant: name, .. }
        | Insn::SetTableKS { constant: name, .. }
        | Insn::NameCall { constant: name, .. } => is_name(chunk, proto, i64::from(name)),
        Insn::GetImport {
            constant: import,
            path,
            ..
        } => is_path(chunk, proto, i64::from(import), path),
        Insn::AddK {
            constant: operand,
            ..
        }
        | Insn::SubK {
            constant: operand,
            ..
        }
        | Insn::MulK {
            constant: operand,
            ..
        }
        | Insn::DivK {
            constant: operand,
            ..
        }
        | Insn::ModK {
            constant: operand,
            ..
        }
        | Insn::PowK {
            constant: operand,
            ..
        }
        | Insn::IdivK {
            constant: operand,
            ..
        }
        | Insn::SubRK {
            constant: operand,
            ..
        }
        | Insn::DivRK {
            constant: operand,
            ..
        }
        | Insn::AndK {
            constant: operand,
            ..
        }
        | Insn::OrK {
            constant: operand,
            ..
        } => is_value(chunk, proto, i64::from(operand)),
        Insn::JumpXEqKN { test, .. } => is_number(chunk, proto, i64::from(test % 16_777_216)),
        Insn::JumpXEqKS { test, .. } => is_name(chunk, proto, i64::from(test % 16_777_216)),
        _ => true,
    }
}

// ---- constants by themselves

// Whether the constant has a text.
fn has_text(chunk: &Chunk, proto: usize, index: u32) -> bool
    ensures { result ≡ is_some (name_at (chunk_of chunk.now) proto index) }
{
    match constant_at(chunk, proto, i64::from(index)) {
        Some(Const::Str(string)) => (string as usize) < chunk.strings.len(),
        _ => false,
    }
}

// Whether an import has one to three names, and does not use its other indices.
fn is_import(chunk: &Chunk, proto: usize, word: u32) -> bool
    ensures { result ≡ needs.is_import (chunk_of chunk.now) proto word }
{
    let count = word / 1_073_741_824;
    let first = word / 1_048_576 % 1024;
    let second = word / 1024 % 1024;
    let third = word % 1024;
    match count {
        0 => false,
        1 => has_text(chunk, proto, first) && second == 0 && third == 0,
        2 => has_text(chunk, proto, first) && has_text(chunk, proto, second) && third == 0,
        _ => has_text(chunk, proto, first)
            && has_text(chunk, proto, second)
            && has_text(chunk, proto, third),
    }
}

/// Whether a constant is sound by itself: the string is there, and an import is spelled well.
pub(crate) fn is_sound(chunk: &Chunk, proto: usize, constant: Const) -> bool
    ensures { result ≡ needs.is_sound (chunk_of chunk.now) proto constant }
{
    match constant {
        Const::Str(string) => (string as usize) < chunk.strings.len(),
        Const::Import(word) => is_import(chunk, proto, word),
        _ => true,
    }
}
