//! The strings of a chunk, by their numbers.

ghost use Rattle.std.specs.Prelude.{IfOk};
ghost use Rattle.byte_text.specs.Texts.{AreDistinct};
ghost use Rattle.machine_code.specs.Kept.{Adds, AreNumbersOf};

use byte_text::{Bytes, Interner, StrId};
use resource::OutOfMemory;
use sqlite_items::Items;
use std::alloc::Global;

/// The numbers of the strings, which are noted where they are new.
pub fn numbers(
    alloc: Global,
    strings: &[Bytes],
    names: &mut Interner,
) -> Result<Items<StrId>, OutOfMemory>
    ensures numbers { IfOk result (AreNumbersOf names.new strings.now) }
    ensures adds { Adds strings.now names.old names.new }
{
    let mut found = Items::new(alloc);
    for string in strings {
        found.push(names.intern(string.as_slice())?)?;
    }
    Ok(found)
}
