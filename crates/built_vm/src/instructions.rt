//! Code as instructions.

ghost use Rattle.std.specs.Prelude.{◌≡◌, IfOk};
ghost use Rattle.built_vm.specs.Instructions.{Entry, entry_at, AreReadTo, AreReadOf};

use op_words::{Insn, decode};
use resource::OutOfMemory;
use std::alloc::Global;

/// The instruction that stands at each place of the code, and the place behind its words, read once.
#[derive(Drop)]
pub(crate) struct Instructions {
    entries: Vec<Option<(Insn, usize)>>,
}

impl Instructions {
    pub fn read(alloc: Global, words: &[u32]) -> Result<Instructions, OutOfMemory>
        ensures { IfOk result (λ read. AreReadOf words.now read.entries.items) }
    {
        let mut entries = Vec::new(alloc);
        entries.reserve_exact(words.len())?;
        for at in 0..words.len() {
            entries.push(decode(words, at))?;
        }
        Ok(Instructions { entries })
    }

    #[inline(always)]
    pub fn at(&self, place: usize) -> Option<(Insn, usize)>
        ensures { result ≡ entry_at self.now.entries.items place }
    {
        match self.entries.as_slice().get(place) {
            Some(entry) => *entry,
            None => None,
        }
    }
}
