//! An interner: each text that it was given has a number, and no text has two.

ghost use Rattle.std.specs.Prelude.{◌≡◌, ◌+◌, ◌^◌, ◌<◌, length, Some, false, MatchOption, IfOk, OnOk, OnErr, slice_get};
ghost use Rattle.std.specs.List.{list_any};
ghost use Rattle.std.specs.Str.{bytes_eq};
ghost use Rattle.byte_text.specs.Texts.{fixed_texts, noted, AreDistinct, HoldsFixed};

use crate::fixed::{FIXED_LEN, StrId, fixed_at, fixed_place};
use indexmap::IndexSet;
use resource::OutOfMemory;
use std::alloc::Global;
use std::marker::Model;

/// Texts and their numbers. Clauses see the list of the texts: the number of a text is its place there.
///
/// The fixed texts come first. A text that was noted keeps its number.
#[derive(Drop)]
pub struct Interner {
    alloc: Global,
    others: IndexSet<Vec<u8>>,
}

impl Model for Interner {
    ghost use Rattle.std.specs.Prelude.{ℕ, List};
    ghost use Rattle.byte_text.specs.Texts.{AreDistinct, with_stored};

    ghost Value = { List (List ℕ) };

    ghost view = { λ n. with_stored n.others.keys };

    ghost invariant = { λ n. AreDistinct (with_stored n.others.keys) };
}

impl Interner {
    /// An interner that holds the fixed texts alone. It takes no memory.
    pub fn new(alloc: Global) -> Interner
        ensures { result ≡ fixed_texts }
    {
        Interner {
            alloc,
            others: IndexSet::new(alloc),
        }
    }

    /// How many texts the interner holds. Their numbers are those below it.
    pub fn count(&self) -> usize
        ensures count { result ≡ length self.now }
        ensures fits { result < 2 ^ 60 }
        ensures distinct { AreDistinct self.now }
        ensures fixed { HoldsFixed self.now }
    {
        FIXED_LEN + self.others.as_slice().len()
    }

    /// The number of a text, which is noted at the end where it is new.
    ///
    /// Only a new text takes memory.
    pub fn intern(&mut self, bytes: &[u8]) -> Result<StrId, OutOfMemory>
        ensures ok { IfOk result (λ id. slice_get self.new id.0 ≡ Some bytes.now) }
        ensures grown { OnOk result (self.new ≡ noted self.old bytes.now) }
        ensures absent { OnErr result (list_any (bytes_eq bytes.now) self.old ≡ false) }
        ensures err { OnErr result (self.new ≡ self.old) }

        // What holds of every interner.
        ensures distinct { AreDistinct self.new }
        ensures fixed { HoldsFixed self.new }
        ensures fits { length self.new < 2 ^ 63 }
    {
        let next = self.count();
        if let Some(place) = self.place(bytes) {
            return Ok(StrId(place));
        }
        let text = Vec::from_slice(self.alloc, bytes)?;
        self.others.insert(text)?;
        Ok(StrId(next))
    }

    /// The text of a number.
    pub fn bytes(&self, id: StrId) -> &[u8]
        requires { id.0 < length self.now }
        ensures text { slice_get self.now id.0 ≡ Some result.now }
        ensures distinct { AreDistinct self.now }
        ensures fixed { HoldsFixed self.now }
    {
        if id.0 < FIXED_LEN {
            fixed_at(id.0)
        } else {
            self.others.as_slice()[id.0 - FIXED_LEN].as_slice()
        }
    }

    // The place of a text among those that the interner holds.
    fn place(&self, bytes: &[u8]) -> Option<usize>
        ensures { MatchOption result (list_any (bytes_eq bytes.now) self.now ≡ false) (λ i. slice_get self.now i ≡ Some bytes.now) }
    {
        let others = &self.others;
        if let Some(place) = fixed_place(bytes) {
            return Some(place);
        }
        let index = others.get_index_of(bytes)?;
        prove!(index < others.as_slice().len());
        Some(FIXED_LEN + index)
    }
}
