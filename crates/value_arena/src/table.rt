//! Tables from values to values, in the order in which keys came.

ghost use Rattle.std.specs.Prelude.{◌≡◌, ◌<◌, ◌≤◌, ◌++◌, ◌∷◌, [], true, false, length, slice_get, IfSome, Some, None, OnOk, OnErr};
ghost use Rattle.std.specs.List.{IsDistinct};
ghost use Rattle.std.specs.Map.{keys_of};
ghost use Rattle.value_arena.specs.Tables as spec;
ghost use Rattle.value_model.specs.declared.value.Value.TheVariants.{Nil, Num};

use crate::entries;
use indexmap::IndexMap;
use resource::OutOfMemory;
use std::alloc::Global;
use std::marker::Model;
use value_model::{TableId, Value};
use whole_num::Whole;

// A table has so many entries at most.
const MOST_ENTRIES: usize = 9_007_199_254_740_992;

/// A table. Clauses see the list of its entries, its metatable, and whether it is frozen and marked.
///
/// Its border is kept as a number.
#[derive(Drop)]
pub struct Table {
    entries: IndexMap<Value, Value>,
    border: usize,
    meta: Option<TableId>,
    is_frozen: bool,
    is_marked: bool,
}

impl Model for Table {
    ghost use Rattle.std.specs.Prelude.{◌≡◌, ◌≤◌, length};
    ghost use Rattle.value_arena.specs.Tables.{HasKeys, TableView, border_of, most_entries};

    ghost Value = { TableView };

    ghost view = { λ t. record { entries = t.entries.entries; meta = t.meta; is_frozen = t.is_frozen; is_marked = t.is_marked } };

    ghost invariant = { λ t. (t.border ≡ border_of t.entries.entries) × (length t.entries.entries ≤ most_entries) × HasKeys t.entries.entries };
}

impl Table {
    pub(crate) fn new(alloc: Global) -> Table
        ensures { result ≡ spec.no_table }
    {
        Table {
            entries: IndexMap::new(alloc),
            border: 0,
            meta: None,
            is_frozen: false,
            is_marked: false,
        }
    }

    /// How many keys were inserted.
    pub fn len(&self) -> usize
        ensures len { result ≡ length self.now.entries }
        ensures few { result ≤ spec.most_entries }
        ensures distinct { IsDistinct spec.same (keys_of self.now.entries) }
        ensures keys { spec.HasKeys self.now.entries }
    {
        self.entries.len()
    }

    /// The entry at a place.
    pub fn at(&self, place: usize) -> (Value, Value)
        requires { place < length self.now.entries }
        ensures { slice_get self.now.entries place ≡ Some result }
    {
        match self.entries.get_index(place) {
            Some((key, value)) => (*key, *value),
            None => unreachable!(),
        }
    }

    /// The place of a key, or none where it was never inserted.
    pub fn place(&self, key: Value) -> Option<usize>
        ensures place { result ≡ spec.place_of key self.now.entries }
        ensures within { IfSome result (λ place. place < length self.now.entries) }
        ensures small { IfSome result (λ place. place < spec.most_entries) }
    {
        entries::place(&self.entries, &key)
    }

    /// The value under a key, else nil.
    pub fn value(&self, key: Value) -> Value
        ensures { result ≡ spec.value_in self.now.entries key }
    {
        entries::value(&self.entries, &key)
    }

    /// The value under a whole number, which is nil where the number is out of range.
    pub fn item(&self, number: i64) -> Value
        ensures value { result ≡ spec.value_in self.now.entries (Num number) }
        ensures beyond { (spec.IsKey (Num number) → ⊥) → result ≡ Nil }
    {
        let entries = &self.entries;
        match Whole::new(number) {
            Some(number) => entries::value(entries, &Value::Num(number)),
            None => Value::Nil,
        }
    }

    /// The border: the least number from 0 on behind which there is nil.
    pub fn border(&self) -> usize
        ensures { result ≡ spec.border_of self.now.entries }
    {
        self.border
    }

    /// Writes the value at a place.
    pub fn write(&mut self, place: usize, value: Value)
        requires { place < length self.old.entries }
        ensures { self.new ≡ record self.old { entries = spec.with_value self.old.entries place value } }
    {
        let key = self.at(place).0;
        entries::write(&mut self.entries, place, value);
        self.border = entries::border_after(&self.entries, self.border, &key, &value);
    }

    /// Appends an entry. A table that has as many as there can be wants memory.
    pub fn push(&mut self, key: Value, value: Value) -> Result<(), OutOfMemory>
        requires key { spec.is_nil key ≡ false }
        requires new { spec.place_of key self.old.entries ≡ None }
        requires value { spec.is_nil value ≡ false }
        ensures ok { OnOk result (self.new ≡ record self.old { entries = self.old.entries ++ (key, value) ∷ [] }) }
        ensures err { OnErr result (self.new ≡ self.old) }
    {
        if self.entries.len() >= MOST_ENTRIES {
            return Err(OutOfMemory);
        }
        let (pushed, stored) = (&key, &value);
        entries::key_in_range(pushed);
        self.entries.insert(*pushed, *stored)?;
        self.border = entries::border_after(&self.entries, self.border, pushed, stored);
        Ok(())
    }

    /// The metatable.
    pub fn meta(&self) -> Option<TableId>
        ensures { result ≡ self.now.meta }
    {
        self.meta
    }

    /// Sets the metatable.
    pub fn put_meta(&mut self, meta: Option<TableId>)
        ensures { self.new ≡ record self.old { meta = meta } }
    {
        self.meta = meta;
    }

    /// Whether the table is frozen.
    pub fn is_frozen(&self) -> bool
        ensures { result ≡ self.now.is_frozen }
    {
        self.is_frozen
    }

    pub(crate) fn freeze(&mut self)
        ensures { self.new ≡ record self.old { is_frozen = true } }
    {
        self.is_frozen = true;
    }

    pub(crate) fn is_marked(&self) -> bool
        ensures { result ≡ self.now.is_marked }
    {
        self.is_marked
    }

    pub(crate) fn set_mark(&mut self, mark: bool)
        ensures { self.new ≡ record self.old { is_marked = mark } }
    {
        self.is_marked = mark;
    }
}
