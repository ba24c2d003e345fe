//! Stacks.

ghost use Rattle.std.specs.Prelude.{◌≡◌, ◌+◌, ◌-◌, ◌<◌, ◌≤◌, ◌++◌, ◌∷◌, [], length, take, drop, slice_index_or, slice_set, slice_get, IfOk, OnOk, OnErr, IfSome, OnSome, MatchOption, Some, None, max, replicate, ℕ};
ghost use Rattle.std.specs.Option.{option_copied};
ghost use Rattle.value_model.specs.declared.value.Value.TheVariants.{Nil};
ghost use Rattle.value_arena.specs.Arenas as arenas;
ghost use Rattle.value_arena.specs.Growing.{Grows};
ghost use Rattle.call_frames.specs.Stacks as spec;
ghost use Rattle.call_frames.specs.Cells as opens;

use crate::frame::{Frame, OpenCell, ReturnKind};
use resource::OutOfMemory;
use smallvec::SmallVec;
use std::alloc::Global;
use std::marker::Model;
use value_arena::Arena;
use value_model::{CellId, ClosureId, Owner, Value};

/// The stack of a coroutine.
#[derive(Drop)]
pub struct Stack {
    registers: Vec<Value>,
    top: usize,
    frames: Vec<Frame>,
    // By rising registers.
    cells: SmallVec<OpenCell, 4>,
}

impl Model for Stack {
    ghost use Rattle.std.specs.Prelude.{length, ◌≤◌};
    ghost use Rattle.call_frames.specs.Stacks.{StackView, Rises, AreBelow, AreApart, AreLive, Once};

    ghost Value = { StackView };

    ghost view = { λ s. record { registers = s.registers.items; top = s.top; frames = s.frames.items; cells = s.cells.items } };

    ghost invariant = { λ s. Rises 0 (length s.registers.items) s.cells.items × (s.top ≤ length s.registers.items) × AreBelow (length s.registers.items) s.frames.items × AreApart s.frames.items × AreLive s.frames.items s.cells.items × Once s.cells.items };
}

impl Stack {
    /// An empty stack. It takes no memory.
    pub fn new(alloc: Global) -> Stack
        ensures { result ≡ spec.no_stack }
    {
        Stack {
            registers: Vec::new(alloc),
            top: 0,
            frames: Vec::new(alloc),
            cells: SmallVec::new(alloc),
        }
    }

    /// How many registers there are.
    pub fn size(&self) -> usize
        ensures { result ≡ length self.now.registers }
    {
        self.registers.len()
    }

    /// Where a list of values ends.
    pub fn top(&self) -> usize
        ensures { result ≡ self.now.top }
    {
        self.top
    }

    /// How many calls have not returned.
    pub fn depth(&self) -> usize
        ensures { result ≡ length self.now.frames }
    {
        self.frames.len()
    }

    /// Hands out how the frames and the open cells lie. It does nothing.
    pub fn lies(&self)
        ensures { spec.Layout self.now }
    {
        let _top = self.top;
    }

    /// Sets where a list of values ends.
    pub fn set_top(&mut self, top: usize)
        requires { top ≤ length self.old.registers }
        ensures { self.new ≡ record self.old { top = top } }
    {
        self.top = top;
    }

    /// One more value of the list that ends at the top.
    pub fn append(&mut self, v: Value)
        requires { self.old.top < length self.old.registers }
        ensures { self.new ≡ spec.appended self.old v }
    {
        let top = self.top;
        self.registers[top] = v;
        self.top = top + 1;
    }

    /// The place of a register of the innermost frame.
    pub fn place(&self, register: u8) -> usize
        requires { opens.HasLocal self.now register }
        ensures value { result ≡ opens.place_of self.now register }
        ensures within { result < length self.now.registers }
        ensures layout { spec.Layout self.now }
    {
        let frame = &self.frames[self.frames.len() - 1];
        frame.base + usize::from(register)
    }

    /// A register.
    pub fn get(&self, register: usize) -> Value
        requires { register < length self.now.registers }
        ensures { result ≡ opens.register_at self.now register }
    {
        self.registers[register]
    }

    /// Writes a register.
    pub fn set(&mut self, register: usize, v: Value)
        requires { register < length self.old.registers }
        ensures { self.new ≡ record self.old { registers = slice_set self.old.registers register v } }
    {
        self.registers[register] = v;
    }

    /// A register of the innermost frame.
    pub fn local(&self, register: u8) -> Value
        requires { opens.HasLocal self.now register }
        ensures value { result ≡ opens.local self.now register }
        ensures layout { spec.Layout self.now }
    {
        let frame = &self.frames[self.frames.len() - 1];
        self.registers[frame.base + usize::from(register)]
    }

    /// Writes a register of the innermost frame.
    pub fn set_local(&mut self, register: u8, v: Value)
        requires { opens.HasLocal self.old register }
        ensures written { self.new ≡ opens.with_local self.old register v }
        ensures layout { spec.Layout self.old }
    {
        let base = self.frames[self.frames.len() - 1].base;
        self.registers[base + usize::from(register)] = v;
    }

    /// The frame of the innermost call.
    pub fn frame(&self) -> Option<&Frame>
        ensures { option_copied result ≡ slice_get self.now.frames (length self.now.frames - 1) }
    {
        self.frames.last()
    }

    /// The innermost frame goes on at another instruction.
    pub fn set_place(&mut self, place: usize)
        requires { 0 < length self.old.frames }
        ensures { self.new ≡ opens.placed place self.old }
    {
        let last = self.frames.len() - 1;
        self.frames[last].place = place;
    }

    /// The innermost frame does something else with the values of the call that it waits for.
    pub fn set_kind(&mut self, kind: ReturnKind)
        requires { 0 < length self.old.frames }
        ensures { self.new ≡ opens.waiting kind self.old }
    {
        let last = self.frames.len() - 1;
        self.frames[last].kind = kind;
    }

    /// Where the registers of the innermost frame end, and 0 where there is none.
    pub fn end(&self) -> usize
        ensures value { result ≡ opens.end_of self.now }
        ensures within { result ≤ length self.now.registers }
    {
        let depth = self.frames.len();
        if depth == 0 {
            return 0;
        }
        let frame = &self.frames[depth - 1];
        frame.base + usize::from(frame.registers)
    }

    /// So many registers from one on.
    pub fn values(&self, from: usize, count: usize) -> &[Value]
        requires { from + count ≤ length self.now.registers }
        ensures { result.now ≡ take count (drop from self.now.registers) }
    {
        &self.registers[from..from + count]
    }

    /// Enters a function behind all frames: first come its variable arguments, and then its own registers, of which the first
    /// are given and the others nil. Its list of values ends behind those that are given.
    pub fn call(
        &mut self,
        closure: ClosureId,
        registers: u8,
        given: &[Value],
        extra: &[Value],
    ) -> Result<(), OutOfMemory>
        requires { length given.now ≤ registers }
        ensures { OnOk result (self.new ≡ opens.called closure registers given.now extra.now self.old) }
    {
        let end = self.end();
        self.frames.reserve(1)?;
        self.top = end;
        lay(&mut self.registers, end, extra, given, registers)?;
        let base = end + extra.len();
        self.top = base + given.len();
        let frame = Frame {
            closure: Some(closure),
            base,
            registers,
            extra: extra.len(),
            place: 0,
            kind: ReturnKind::Idle,
        };
        match self.frames.push(frame) {
            Ok(()) => Ok(()),
            Err(_) => unreachable!(),
        }
    }

    /// Values into the registers of the innermost frame from one on. Its list of values ends behind them, and registers that are
    /// no frame's and lie behind that end go.
    pub fn deliver(&mut self, to: u8, vs: &[Value]) -> Result<(), OutOfMemory>
        requires { opens.HasPlace self.old to }
        ensures { OnOk result (self.new ≡ opens.delivered to vs.now self.old) }
    {
        let end = self.end();
        let at = self.frames[self.frames.len() - 1].base + usize::from(to);
        self.top = end;
        overlay(&mut self.registers, end, at, vs)?;
        self.top = at + vs.len();
        Ok(())
    }

    /// So many registers directly below those of the innermost frame are its variable arguments.
    pub fn set_extra(&mut self, extra: usize)
        requires { opens.MayHaveExtra self.old extra }
        ensures { self.new ≡ opens.extended extra self.old }
    {
        let last = self.frames.len() - 1;
        self.frames[last].extra = extra;
    }

    /// Whether a cell is open in this stack.
    pub fn holds(&self, cell: CellId) -> bool
        ensures { result ≡ opens.holds self.now cell }
    {
        register_of(self.cells.as_slice(), cell).is_some()
    }

    /// What an upvalue holds.
    pub fn read_up(&self, arena: &Arena, cell: CellId) -> Value
        requires { arenas.HasCell arena.now cell }
        ensures { result ≡ opens.read_up self.now arena.now cell }
    {
        match register_of(self.cells.as_slice(), cell) {
            Some(register) => self.registers[register],
            None => arena.cell(cell),
        }
    }

    /// Writes an upvalue.
    pub fn write_up(&mut self, arena: &mut Arena, cell: CellId, v: Value)
        requires { arenas.HasCell arena.old cell }
        ensures written { opens.write_up self.old arena.old cell v ≡ (self.new, arena.new) }
        ensures there { opens.AreIn arena.old self.old.cells → opens.AreIn arena.new self.new.cells }
        ensures grows { Grows arena.old arena.new }
    {
        match register_of(self.cells.as_slice(), cell) {
            Some(register) => self.registers[register] = v,
            None => arena.set_cell(cell, v),
        }
    }

    /// Adds a frame, whose registers are those from `base` on. Those of them below the top stay, the others become nil.
    pub fn push_call(
        &mut self,
        closure: ClosureId,
        registers: u8,
        base: usize,
        kind: ReturnKind,
    ) -> Result<(), OutOfMemory>
        requires apart { spec.AreBelow base self.old.frames }
        requires base { base ≤ self.old.top }
        ensures ok { OnOk result (self.new ≡ spec.pushed self.old (record { closure = Some closure; base = base; registers = registers; extra = 0; place = 0; kind = kind })) }
        ensures err { OnErr result (self.new ≡ self.old) }
    {
        let top = self.top;
        let end = base + usize::from(registers);
        let frame = Frame {
            closure: Some(closure),
            base,
            registers,
            extra: 0,
            place: 0,
            kind,
        };
        self.frames.reserve(1)?;
        enter(&mut self.registers, top, end)?;
        match self.frames.push(frame) {
            Ok(()) => Ok(()),
            Err(_) => unreachable!(),
        }
    }

    /// A library function waits behind all frames, for the values of a call. It has no registers.
    pub fn push_library(&mut self, kind: ReturnKind) -> Result<(), OutOfMemory>
        ensures ok { OnOk result (self.new ≡ opens.library_called kind self.old) }
        ensures err { OnErr result (self.new ≡ self.old) }
    {
        let base = self.end();
        self.frames.reserve(1)?;
        let frame = Frame {
            closure: None,
            base,
            registers: 0,
            extra: 0,
            place: 0,
            kind,
        };
        match self.frames.push(frame) {
            Ok(()) => Ok(()),
            Err(_) => unreachable!(),
        }
    }

    /// The open cell of a register of the innermost frame: the one that there is, or else a new one of this owner.
    pub fn capture(
        &mut self,
        arena: &mut Arena,
        owner: Owner,
        register: usize,
    ) -> Result<CellId, OutOfMemory>
        requires owner { arenas.IsOwner owner }
        requires register { opens.IsOwn self.old register }
        requires there { opens.AreIn arena.old self.old.cells }
        ensures ok { IfOk result (λ c. (c, self.new, arena.new) ≡ opens.captured self.old arena.old owner register) }
        ensures there { IfOk result (λ c. arenas.HasCell arena.new c × opens.AreIn arena.new self.new.cells) }
        ensures grows { Grows arena.old arena.new }
        ensures err { OnErr result ((self.new ≡ self.old) × (arena.new ≡ arena.old)) }
    {
        let at = lower(self.cells.as_slice(), register);
        if let Some(cell) = cell_at(self.cells.as_slice(), at, register) {
            return Ok(cell);
        }
        self.cells.reserve(1)?;
        let cell = arena.new_cell(owner, self.registers[register])?;
        match self.cells.insert(at, OpenCell { register, cell }) {
            Ok(()) => Ok(cell),
            Err(_) => unreachable!(),
        }
    }

    /// Closes the open cells from a register up: each keeps the value of its register.
    pub fn close_from(&mut self, arena: &mut Arena, register: usize)
        requires { opens.AreIn arena.old self.old.cells }
        ensures stack { self.new ≡ record self.old { cells = opens.kept register self.old.cells } }
        ensures arena { arena.new ≡ opens.closed register self.old.registers self.old.cells arena.old }
        ensures there { opens.AreIn arena.new self.new.cells }
        ensures grows { Grows arena.old arena.new }
    {
        close(self.registers.as_slice(), &mut self.cells, arena, register);
    }

    /// Closes the open cells of the innermost frame, and takes it off.
    pub fn pop(&mut self, arena: &mut Arena) -> Frame
        requires some { 0 < length self.old.frames }
        requires there { opens.AreIn arena.old self.old.cells }
        ensures frame { slice_get self.old.frames (length self.old.frames - 1) ≡ Some result }
        ensures popped { (self.new, arena.new) ≡ opens.popped (self.old, arena.old) }
        ensures there { opens.AreIn arena.new self.new.cells }
        ensures grows { Grows arena.old arena.new }
    {
        match self.frames.pop() {
            Some(frame) => {
                close(
                    self.registers.as_slice(),
                    &mut self.cells,
                    arena,
                    frame.base.saturating_sub(frame.extra),
                );
                frame
            }
            None => unreachable!(),
        }
    }

    /// Closes and takes off frames until so many are left.
    pub fn unwind(&mut self, arena: &mut Arena, depth: usize)
        requires depth { depth ≤ length self.old.frames }
        requires there { opens.AreIn arena.old self.old.cells }
        ensures unwound { (self.new, arena.new) ≡ opens.unwound (length self.old.frames - depth) (self.old, arena.old) }
        ensures there { opens.AreIn arena.new self.new.cells }
        ensures grows { Grows arena.old arena.new }
    {
        while self.depth() > depth {
            let_go(self.pop(arena));
        }
    }
}

// The register that an open cell stands for. The newest are looked at first.
fn register_of(cells: &[OpenCell], cell: CellId) -> Option<usize>
    ensures { result ≡ opens.register_of cell cells.now }
{
    for at in (0..cells.len()).rev() {
        let entry = cells[at];
        if entry.cell == cell {
            return Some(entry.register);
        }
    }
    None
}

// Makes registers up to the end, those from the top on nil.
fn enter(registers: &mut Vec<Value>, top: usize, end: usize) -> Result<(), OutOfMemory>
    requires { top ≤ length registers.old.items }
    ensures ok { OnOk result (registers.new.items ≡ spec.entered registers.old.items top end) }
    ensures err { OnErr result (registers.new.items ≡ registers.old.items) }
    ensures size { OnOk result ((end ≤ length registers.new.items) × (length registers.old.items ≤ length registers.new.items)) }
{
    if registers.len() < end {
        registers.resize(end, Value::Nil)?;
    }
    clear(registers.as_mut_slice(), top, end);
    Ok(())
}

// Behind the end come values, and behind them so many registers, of which the first are given and the others nil.
fn lay(
    registers: &mut Vec<Value>,
    end: usize,
    extra: &[Value],
    given: &[Value],
    size: u8,
) -> Result<(), OutOfMemory>
    requires end { end ≤ length registers.old.items }
    requires given { length given.now ≤ size }
    ensures ok { OnOk result (registers.new.items ≡ take end registers.old.items ++ extra.now ++ given.now ++ replicate (size - length given.now) Nil) }
    ensures kept { end ≤ length registers.new.items }
{
    registers.truncate(end);
    registers.extend_from_slice(extra)?;
    registers.extend_from_slice(given)?;
    let size = registers.len() + (usize::from(size) - given.len());
    registers.resize(size, Value::Nil)?;
    Ok(())
}

// Values into registers from one on, of those up to the end or behind them.
fn overlay(
    registers: &mut Vec<Value>,
    end: usize,
    at: usize,
    vs: &[Value],
) -> Result<(), OutOfMemory>
    requires end { end ≤ length registers.old.items }
    requires at { at ≤ end }
    ensures ok { OnOk result (registers.new.items ≡ opens.overlaid (take end registers.old.items) at vs.now) }
    ensures within { OnOk result (at + length vs.now ≤ length registers.new.items) }
    ensures kept { end ≤ length registers.new.items }
{
    registers.truncate(end);
    let further = vs.len().saturating_sub(end - at);
    registers.resize(end + further, Value::Nil)?;
    registers[at..at + vs.len()].copy_from_slice(vs);
    Ok(())
}

// Makes registers nil.
fn clear(registers: &mut [Value], from: usize, to: usize)
    requires from { from ≤ length registers.old }
    requires to { to ≤ length registers.old }
    ensures { registers.new ≡ spec.entered registers.old from to }
{
    for at in from..to {
        registers[at] = Value::Nil;
    }
}

// Drops a frame.
fn let_go(_frame: Frame) {}

// How many of the cells stand for lower registers.
fn lower(cells: &[OpenCell], register: usize) -> usize
    requires { (end : ℕ) × spec.Rises 0 end cells.now }
    ensures value { result ≡ opens.lower register cells.now }
    ensures within { result ≤ length cells.now }
{
    let mut at = cells.len();
    while at > 0 && register <= cells[at - 1].register {
        at -= 1;
    }
    at
}

// The cell at a place, where it stands for this register.
fn cell_at(cells: &[OpenCell], at: usize, register: usize) -> Option<CellId>
    ensures { result ≡ opens.on_place register cells.now at }
{
    let entry = cells.get(at)?;
    if entry.register == register {
        Some(entry.cell)
    } else {
        None
    }
}

// Closes the cells from a register up.
fn close(registers: &[Value], cells: &mut SmallVec<OpenCell, 4>, arena: &mut Arena, register: usize)
    requires rises { spec.Rises 0 (length registers.now) cells.old.items }
    requires there { opens.AreIn arena.old cells.old.items }
    ensures cells { cells.new.items ≡ opens.kept register cells.old.items }
    ensures arena { arena.new ≡ opens.closed register registers.now cells.old.items arena.old }
{
    while let Some(entry) = last_from(cells.as_slice(), register) {
        arena.set_cell(entry.cell, read(registers, entry.register));
        cells.pop();
    }
}

// A register.
fn read(registers: &[Value], register: usize) -> Value
    requires { register < length registers.now }
    ensures { result ≡ slice_index_or registers.now register Nil }
{
    registers[register]
}

// The last cell, where it stands for this register or a higher one.
fn last_from(cells: &[OpenCell], register: usize) -> Option<OpenCell>
    ensures { MatchOption result (opens.EndsBelow register cells.now) (λ o. (register ≤ o.register) × (slice_get cells.now (length cells.now - 1) ≡ Some o)) }
{
    let last = *cells.last()?;
    if last.register < register {
        None
    } else {
        Some(last)
    }
}
