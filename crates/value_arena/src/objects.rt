//! The objects of one owner.

ghost use Rattle.std.specs.Prelude.{◌≡◌, ◌<◌, ◌≤◌, ◌++◌, ◌∷◌, [], length, slice_index_or, slice_set, OnErr, IfOk};
ghost use Rattle.std.specs.Borrow.{sem};
ghost use Rattle.std.specs.List.{sum_by};
ghost use Rattle.value_model.specs.declared.value.Value.TheVariants.{Nil};
ghost use Rattle.value_arena.specs.Arenas.{owner_count};
ghost use Rattle.value_arena.specs.Lending.{LendsTable};
ghost use Rattle.value_arena.specs.Objects as spec;
ghost use Rattle.value_arena.specs.Tables as tables;

use crate::closure::{Closure, Thread};
use crate::table::Table;
use resource::OutOfMemory;
use std::alloc::Global;
use std::marker::Model;
use value_model::{CoStatus, TableId, Value};

/// The objects of one owner, kind by kind, each at its place. They only grow.
#[derive(Drop)]
pub(crate) struct Objects {
    tables: Vec<Table>,
    closures: Vec<Closure>,
    cells: Vec<Value>,
    threads: Vec<Thread>,
}

impl Model for Objects {
    ghost use Rattle.value_arena.specs.Objects.{ObjectsView, AreFew};

    ghost Value = { ObjectsView };

    ghost view = { λ o. record { tables = o.tables.items; closures = o.closures.items; cells = o.cells.items; threads = o.threads.items } };

    ghost invariant = { λ o. AreFew (record { tables = o.tables.items; closures = o.closures.items; cells = o.cells.items; threads = o.threads.items }) };
}

impl Objects {
    pub fn new(alloc: Global) -> Objects
        ensures { result ≡ spec.no_objects }
    {
        Objects {
            tables: Vec::new(alloc),
            closures: Vec::new(alloc),
            cells: Vec::new(alloc),
            threads: Vec::new(alloc),
        }
    }

    /// How many objects there are.
    pub fn count(&self) -> usize
        ensures count { result ≡ spec.object_count self.now }
        ensures few { spec.AreFew self.now }
    {
        self.tables.len() + self.closures.len() + self.cells.len() + self.threads.len()
    }

    #[inline(always)]
    pub fn table(&self, place: u32) -> &Table
        requires { place < length self.now.tables }
        ensures { result.now ≡ slice_index_or self.now.tables place tables.no_table }
    {
        &self.tables[place as usize]
    }

    #[inline(always)]
    pub fn table_mut(&mut self, place: u32) -> &mut Table
        requires { place < length self.old.tables }
        ensures* writes_back { sem 𝓛 (LendsTable self.entry place result) }
        ensures value { result.now ≡ slice_index_or self.old.tables place tables.no_table }
    {
        &mut self.tables[place as usize]
    }

    pub fn new_table(&mut self, alloc: Global) -> Result<u32, OutOfMemory>
        ensures place { IfOk result (λ place. place ≡ length self.old.tables) }
        ensures made { IfOk result (λ _. self.new ≡ record self.old { tables = self.old.tables ++ tables.no_table ∷ [] }) }
        ensures err { OnErr result (self.new ≡ self.old) }
    {
        let place = next(self.tables.len())?;
        self.tables.push(Table::new(alloc))?;
        Ok(place)
    }

    pub fn closure(&self, place: u32) -> &Closure
        requires { place < length self.now.closures }
        ensures { result.now ≡ slice_index_or self.now.closures place spec.no_closure }
    {
        &self.closures[place as usize]
    }

    pub fn set_env(&mut self, place: u32, env: TableId)
        requires { place < length self.old.closures }
        ensures { self.new ≡ record self.old { closures = slice_set self.old.closures place (record (slice_index_or self.old.closures place spec.no_closure) { env = env }) } }
    {
        self.closures[place as usize].env = env;
    }

    pub fn new_closure(&mut self, closure: Closure) -> Result<u32, OutOfMemory>
        ensures place { IfOk result (λ place. place ≡ length self.old.closures) }
        ensures made { IfOk result (λ _. self.new ≡ record self.old { closures = self.old.closures ++ closure ∷ [] }) }
        ensures err { OnErr result (self.new ≡ self.old) }
    {
        let place = next(self.closures.len())?;
        self.closures.push(closure)?;
        Ok(place)
    }

    #[inline(always)]
    pub fn cell(&self, place: u32) -> Value
        requires { place < length self.now.cells }
        ensures { result ≡ slice_index_or self.now.cells place Nil }
    {
        self.cells[place as usize]
    }

    #[inline(always)]
    pub fn set_cell(&mut self, place: u32, v: Value)
        requires { place < length self.old.cells }
        ensures { self.new ≡ record self.old { cells = slice_set self.old.cells place v } }
    {
        self.cells[place as usize] = v;
    }

    pub fn new_cell(&mut self, v: Value) -> Result<u32, OutOfMemory>
        ensures place { IfOk result (λ place. place ≡ length self.old.cells) }
        ensures made { IfOk result (λ _. self.new ≡ record self.old { cells = self.old.cells ++ v ∷ [] }) }
        ensures err { OnErr result (self.new ≡ self.old) }
    {
        let place = next(self.cells.len())?;
        self.cells.push(v)?;
        Ok(place)
    }

    pub fn thread(&self, place: u32) -> Thread
        requires { place < length self.now.threads }
        ensures { result ≡ slice_index_or self.now.threads place spec.no_coroutine }
    {
        self.threads[place as usize]
    }

    pub fn set_thread(&mut self, place: u32, thread: Thread)
        requires { place < length self.old.threads }
        ensures { self.new ≡ record self.old { threads = slice_set self.old.threads place thread } }
    {
        self.threads[place as usize] = thread;
    }

    pub fn new_thread(&mut self, body: Value) -> Result<u32, OutOfMemory>
        ensures place { IfOk result (λ place. place ≡ length self.old.threads) }
        ensures made { IfOk result (λ _. self.new ≡ record self.old { threads = self.old.threads ++ spec.new_coroutine body ∷ [] }) }
        ensures err { OnErr result (self.new ≡ self.old) }
    {
        let place = next(self.threads.len())?;
        self.threads.push(Thread {
            body,
            state: CoStatus::Suspended,
            resumer: None,
            failure: None,
        })?;
        Ok(place)
    }
}

// The place of the next object, where it has a number.
fn next(count: usize) -> Result<u32, OutOfMemory>
    ensures { IfOk result (λ place. (place ≡ count) × (count < spec.most_objects)) }
{
    u32::try_from(count).map_err(|_| OutOfMemory)
}

/// How many objects these owners have together.
pub(crate) fn count_all(owners: &[Objects]) -> usize
    requires { length owners.now ≤ owner_count }
    ensures { result ≡ sum_by spec.object_count owners.now }
{
    let mut count = 0;
    for objects in owners {
        count += objects.count();
    }
    count
}
