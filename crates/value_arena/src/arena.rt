//! All objects.

ghost use Rattle.std.specs.Prelude.{◌≡◌, ◌<◌, ◌≤◌, length, OnOk, OnErr, IfOk, true};
ghost use Rattle.std.specs.Borrow.{sem};
ghost use Rattle.value_model.specs.Owners.{wide};
ghost use Rattle.value_arena.specs.ArenaLending.{LendsTableOf};
ghost use Rattle.value_arena.specs.Arenas as spec;

use crate::closure::{Closure, Thread};
use crate::objects::{Objects, count_all};
use crate::table::Table;
use resource::OutOfMemory;
use sqlite_items::Items;
use std::alloc::Global;
use std::marker::Model;
use value_model::{CellId, ClosureId, Owner, ShortOwner, TableId, ThreadId, Value};

/// All objects of all scripts, and which coroutine runs. It only grows.
///
/// Each call that takes an owner asks that its script's number is below 64. Each call that takes an id asks that it names an
/// object of this arena. What a call changes, its clauses say as one change of the whole arena, so that all else stays.
#[derive(Drop)]
pub struct Arena {
    alloc: Global,
    owners: Vec<Objects>,
    running: Option<ThreadId>,
}

impl Model for Arena {
    ghost use Rattle.std.specs.Prelude.{◌≤◌, length};
    ghost use Rattle.value_arena.specs.Arenas.{ArenaView, padded, owner_count};

    ghost Value = { ArenaView };

    ghost view = { λ a. record { owners = padded a.owners.items; running = a.running } };

    ghost invariant = { λ a. length a.owners.items ≤ owner_count };
}

// The place of an owner's objects.
fn slot(owner: Owner) -> usize
    requires { spec.IsOwner owner }
    ensures { result ≡ spec.slot owner }
{
    match owner {
        Owner::Frozen => 0,
        Owner::Script(number) => number + 1,
    }
}

// The same, of the owner in an id.
#[inline(always)]
fn slot_of(owner: ShortOwner) -> usize
    ensures { result ≡ spec.slot (wide owner) }
{
    match owner {
        ShortOwner::Frozen => 0,
        ShortOwner::Script(number) => number as usize + 1,
    }
}

// The owner as ids hold it.
fn narrow(owner: Owner) -> ShortOwner
    requires { spec.IsOwner owner }
    ensures { result ≡ spec.narrow owner }
{
    owner.short()
}

// Makes room for the objects up to a slot.
fn reach(alloc: Global, owners: &mut Vec<Objects>, slot: usize) -> Result<(), OutOfMemory>
    requires slot { slot < spec.owner_count }
    requires few { length owners.old.items ≤ spec.owner_count }
    ensures few { length owners.new.items ≤ spec.owner_count }
    ensures same { spec.padded owners.new.items ≡ spec.padded owners.old.items }
    ensures there { OnOk result (slot < length owners.new.items) }
{
    while owners.len() <= slot {
        owners.push(Objects::new(alloc))?;
    }
    Ok(())
}

impl Arena {
    /// An arena without objects. It takes no memory.
    pub fn new(alloc: Global) -> Arena
        ensures { result ≡ spec.no_arena }
    {
        Arena {
            alloc,
            owners: Vec::new(alloc),
            running: None,
        }
    }

    /// The table of an id.
    #[inline(always)]
    #[tactic(auto, unfolding(crate::specs::Arenas::table_at, crate::specs::Arenas::HasTable))]
    pub fn table(&self, id: TableId) -> &Table
        requires { spec.HasTable self.now id }
        ensures { result.now ≡ spec.table_at self.now id }
    {
        let owners = &self.owners;
        owners[slot_of(id.owner)].table(id.place)
    }

    /// The table of an id, to be changed.
    #[inline(always)]
    #[tactic(auto, unfolding(crate::specs::Arenas::table_at, crate::specs::Arenas::HasTable))]
    pub fn table_mut(&mut self, id: TableId) -> &mut Table
        requires { spec.HasTable self.old id }
        ensures* writes_back { sem 𝓛 (LendsTableOf self.entry id result) }
        ensures value { result.now ≡ spec.table_at self.old id }
    {
        let slot = slot_of(id.owner);
        let objects = &mut self.owners[slot];
        objects.table_mut(id.place)
    }

    /// A new table, which is empty, has no metatable, and is neither frozen nor marked.
    pub fn new_table(&mut self, owner: Owner) -> Result<TableId, OutOfMemory>
        requires { spec.IsOwner owner }
        ensures id { IfOk result (λ id. id ≡ spec.next_table self.old owner) }
        ensures made { OnOk result (self.new ≡ spec.new_table self.old owner) }
        ensures there { IfOk result (λ id. spec.HasTable self.new id) }
        ensures err { OnErr result (self.new ≡ self.old) }
    {
        let slot = slot(owner);
        reach(self.alloc, &mut self.owners, slot)?;
        let place = self.owners[slot].new_table(self.alloc)?;
        let owner = narrow(owner);
        Ok(TableId { owner, place })
    }

    /// Freezes a table, for good.
    pub fn freeze(&mut self, id: TableId)
        requires { spec.HasTable self.old id }
        ensures { self.new ≡ spec.with_table self.old id (record (spec.table_at self.old id) { is_frozen = true }) }
    {
        self.table_mut(id).freeze();
    }

    /// Whether a table has the mark of a safe environment.
    pub fn marked(&self, t: TableId) -> bool
        requires { spec.HasTable self.now t }
        ensures { result ≡ (spec.table_at self.now t).is_marked }
    {
        self.table(t).is_marked()
    }

    /// Gives a table the mark of a safe environment, or takes it away.
    pub fn set_mark(&mut self, t: TableId, mark: bool)
        requires { spec.HasTable self.old t }
        ensures { self.new ≡ spec.with_table self.old t (record (spec.table_at self.old t) { is_marked = mark }) }
    {
        self.table_mut(t).set_mark(mark);
    }

    /// The Luau function of an id.
    #[inline(always)]
    #[tactic(auto, unfolding(crate::specs::Arenas::closure_at, crate::specs::Arenas::HasClosure))]
    pub fn closure(&self, id: ClosureId) -> &Closure
        requires { spec.HasClosure self.now id }
        ensures { result.now ≡ spec.closure_at self.now id }
    {
        let owners = &self.owners;
        owners[slot_of(id.owner)].closure(id.place)
    }

    /// Sets the table of a function's globals.
    pub fn set_env(&mut self, id: ClosureId, env: TableId)
        requires { spec.HasClosure self.old id }
        ensures { self.new ≡ spec.with_closure self.old id (record (spec.closure_at self.old id) { env = env }) }
    {
        let slot = slot_of(id.owner);
        self.owners[slot].set_env(id.place, env);
    }

    /// A new Luau function, of the code with this number.
    pub fn new_closure(
        &mut self,
        owner: Owner,
        proto: usize,
        env: TableId,
        cells: Vec<CellId>,
    ) -> Result<ClosureId, OutOfMemory>
        requires { spec.IsOwner owner }
        ensures id { IfOk result (λ id. id ≡ spec.next_closure self.old owner) }
        ensures made { OnOk result (self.new ≡ spec.new_closure self.old owner (record { proto = proto; env = env; cells = cells.items })) }
        ensures there { IfOk result (λ id. spec.HasClosure self.new id) }
        ensures err { OnErr result (self.new ≡ self.old) }
    {
        let slot = slot(owner);
        reach(self.alloc, &mut self.owners, slot)?;
        let cells = Items::from_vec(cells);
        let place = self.owners[slot].new_closure(Closure { proto, env, cells })?;
        let owner = narrow(owner);
        Ok(ClosureId { owner, place })
    }

    /// What a cell holds.
    #[inline(always)]
    #[tactic(auto, unfolding(crate::specs::Arenas::cell_at, crate::specs::Arenas::HasCell))]
    pub fn cell(&self, id: CellId) -> Value
        requires { spec.HasCell self.now id }
        ensures { result ≡ spec.cell_at self.now id }
    {
        let owners = &self.owners;
        owners[slot_of(id.owner)].cell(id.place)
    }

    /// Writes a cell.
    #[inline(always)]
    pub fn set_cell(&mut self, id: CellId, v: Value)
        requires { spec.HasCell self.old id }
        ensures { self.new ≡ spec.with_cell self.old id v }
    {
        let slot = slot_of(id.owner);
        self.owners[slot].set_cell(id.place, v);
    }

    /// A new cell.
    pub fn new_cell(&mut self, owner: Owner, v: Value) -> Result<CellId, OutOfMemory>
        requires { spec.IsOwner owner }
        ensures id { IfOk result (λ id. id ≡ spec.next_cell self.old owner) }
        ensures made { OnOk result (self.new ≡ spec.new_cell self.old owner v) }
        ensures there { IfOk result (λ id. spec.HasCell self.new id) }
        ensures err { OnErr result (self.new ≡ self.old) }
    {
        let slot = slot(owner);
        reach(self.alloc, &mut self.owners, slot)?;
        let place = self.owners[slot].new_cell(v)?;
        let owner = narrow(owner);
        Ok(CellId { owner, place })
    }

    /// The coroutine of an id.
    #[tactic(auto, unfolding(crate::specs::Arenas::thread_at, crate::specs::Arenas::HasThread))]
    pub fn thread(&self, id: ThreadId) -> Thread
        requires { spec.HasThread self.now id }
        ensures { result ≡ spec.thread_at self.now id }
    {
        let owners = &self.owners;
        owners[slot_of(id.owner)].thread(id.place)
    }

    /// Writes a coroutine.
    pub fn set_thread(&mut self, id: ThreadId, thread: Thread)
        requires { spec.HasThread self.old id }
        ensures { self.new ≡ spec.with_thread self.old id thread }
    {
        let slot = slot_of(id.owner);
        self.owners[slot].set_thread(id.place, thread);
    }

    /// A new coroutine that runs the function. It is suspended, and nobody has resumed it.
    pub fn new_thread(&mut self, owner: Owner, body: Value) -> Result<ThreadId, OutOfMemory>
        requires { spec.IsOwner owner }
        ensures id { IfOk result (λ id. id ≡ spec.next_thread self.old owner) }
        ensures made { OnOk result (self.new ≡ spec.new_thread self.old owner body) }
        ensures there { IfOk result (λ id. spec.HasThread self.new id) }
        ensures err { OnErr result (self.new ≡ self.old) }
    {
        let slot = slot(owner);
        reach(self.alloc, &mut self.owners, slot)?;
        let place = self.owners[slot].new_thread(body)?;
        let owner = narrow(owner);
        Ok(ThreadId { owner, place })
    }

    /// The coroutine that runs; none while a script's main thread runs.
    pub fn running(&self) -> Option<ThreadId>
        ensures { result ≡ self.now.running }
    {
        self.running
    }

    /// Sets which coroutine runs.
    pub fn set_running(&mut self, id: Option<ThreadId>)
        ensures { self.new ≡ record self.old { running = id } }
    {
        self.running = id;
    }

    /// The owner of an object, and `Frozen` for what is no table, Luau function or coroutine. A function of `coroutine.wrap`
    /// has its coroutine's.
    pub fn owner(&self, v: Value) -> Owner
        ensures { result ≡ spec.owner_of v }
    {
        match v {
            Value::Table(id) => id.owner.owner(),
            Value::Closure(id) => id.owner.owner(),
            Value::Wrap(id) | Value::Thread(id) => id.owner.owner(),
            _ => Owner::Frozen,
        }
    }

    /// The number of an object among those of its kind and owner, from 1 in the order in which they were made, and 0 for what
    /// is no table, Luau function or coroutine. A function of `coroutine.wrap` has its coroutine's.
    pub fn ordinal(&self, v: Value) -> u64
        ensures { result ≡ spec.ordinal_of v }
    {
        match v {
            Value::Table(id) => id.place as u64 + 1,
            Value::Closure(id) => id.place as u64 + 1,
            Value::Wrap(id) | Value::Thread(id) => id.place as u64 + 1,
            _ => 0,
        }
    }

    /// How many objects there are, of all kinds and owners.
    pub fn objects(&self) -> usize
        ensures { result ≡ spec.objects_in self.now }
    {
        count_all(self.owners.as_slice())
    }
}
