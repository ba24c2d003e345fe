//! The texts of a chunk's strings.

ghost use Rattle.std.specs.Prelude.{◌≡◌, map, IfOk};
ghost use Rattle.script_compiler.specs.Compiled.{text_of};

use byte_text::{Bytes, Interner, StrId};
use resource::OutOfMemory;
use std::alloc::Global;

fn text_of(alloc: Global, names: &Interner, id: StrId) -> Result<Bytes, OutOfMemory>
    ensures { IfOk result (λ text. text ≡ text_of names.now id) }
{
    if id.0 < names.count() {
        Bytes::from_slice(alloc, names.bytes(id))
    } else {
        Bytes::from_slice(alloc, &[])
    }
}

/// The texts of some numbers, in order.
pub fn texts_of(alloc: Global, names: &Interner, ids: &[StrId]) -> Result<Vec<Bytes>, OutOfMemory>
    ensures { IfOk result (λ texts. texts.items ≡ map (text_of names.now) ids.now) }
{
    let mut texts = Vec::new(alloc);
    for id in ids {
        texts.push(text_of(alloc, names, *id)?)?;
    }
    Ok(texts)
}
