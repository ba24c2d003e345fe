//! The locals whose names are visible.

ghost use Rattle.std.specs.Prelude.{◌≡◌, ◌-◌, ◌<◌, ℕ, [], ◌∷◌, ◌++◌, take, length, slice_get, slice_index, OnOk};
ghost use Rattle.scopes.specs.Heads.{local_in};
ghost use Rattle.syntax_tree.specs.Scope.{look};

use byte_text::StrId;
use resource::OutOfMemory;
use sqlite_items::Items;
use std::alloc::Global;
use std::marker::Model;
use syntax_tree::Visible;

/// A visible name with its local.
#[derive(Clone, Copy)]
struct Entry {
    visible: Visible,
    /// One more than the place of the latest entry before this one that has the same name, or 0.
    before: usize,
}

/// The visible names with their locals, seen as their list, the earliest first.
///
/// A name is looked up in constant time. The numbers of names are small: there is a head for each number up to the
/// greatest that was ever visible.
#[derive(Drop)]
pub struct Scope {
    entries: Items<Entry>,
    /// For each name one more than the place of its latest entry, or 0.
    heads: Items<usize>,
}

impl Model for Scope {
    ghost use Rattle.std.specs.Prelude.{List};
    ghost use Rattle.syntax_tree.specs.declared.notes.Visible.{Visible};
    ghost use Rattle.scopes.specs.Heads.{IsLinked, visible_of};

    ghost Value = { List Visible };

    ghost view = { λ s. visible_of s.entries };

    ghost invariant = { λ s. IsLinked s.entries s.heads };
}

/// The head of a name.
fn head(heads: &[usize], name: usize) -> usize
    ensures { result ≡ slice_index heads.now name }
{
    match heads.get(name) {
        Some(head) => *head,
        None => 0,
    }
}

/// The local of the entry at a place.
fn local_at(entries: &Items<Entry>, place: usize) -> Option<usize>
    ensures { result ≡ local_in (slice_get entries.now place) }
{
    match entries.get(place) {
        Some(entry) => Some(entry.visible.local),
        None => None,
    }
}

/// Makes a head for a name that has none yet.
fn reach(heads: &mut Items<usize>, name: usize) -> Result<(), OutOfMemory>
    ensures same { (n : ℕ) → slice_index heads.new n ≡ slice_index heads.old n }
    ensures within { OnOk result (name < length heads.new) }
{
    while heads.len() <= name {
        heads.push(0)?;
    }
    Ok(())
}

impl Scope {
    pub fn new(alloc: Global) -> Scope
        ensures { result ≡ [] }
    {
        Scope {
            entries: Items::new(alloc),
            heads: Items::new(alloc),
        }
    }

    pub fn len(&self) -> usize
        ensures { result ≡ length self.now }
    {
        self.entries.len()
    }

    /// Makes a name visible.
    pub fn push(&mut self, visible: Visible) -> Result<(), OutOfMemory>
        ensures { OnOk result (self.new ≡ self.old ++ visible ∷ []) }
    {
        let name = visible.name.0;
        reach(&mut self.heads, name)?;
        let before = head(self.heads.as_slice(), name);
        self.entries.push(Entry { visible, before })?;
        self.heads.set(name, self.entries.len());
        Ok(())
    }

    /// Makes the latest name invisible.
    fn pop(&mut self)
        ensures { self.new ≡ take (length self.old - 1) self.old }
    {
        if let Some(last) = self.entries.pop() {
            self.heads.set(last.visible.name.0, last.before);
        }
    }

    /// Leaves the first `len` names visible.
    pub fn leave(&mut self, len: usize)
        ensures { self.new ≡ take len self.old }
    {
        while self.len() > len {
            self.pop();
        }
    }

    /// The latest local of the name.
    pub fn look(&self, name: StrId) -> Option<usize>
        ensures { result ≡ look name self.now }
    {
        let place = head(self.heads.as_slice(), name.0);
        if place == 0 {
            return None;
        }
        local_at(&self.entries, place - 1)
    }
}
