//! The running state of a script.

ghost use Rattle.std.specs.Prelude.{◌≡◌, ◌<◌, ◌≤◌, List, [], length, map, OnOk, IfOk, OnErr};
ghost use Rattle.std.specs.List.{AllByRecursion};
ghost use Rattle.value_model.specs.declared.value.Value.TheVariants.{Closure};
ghost use Rattle.value_model.specs.Parts.{meant};
ghost use Rattle.value_model.specs.Values as m;
ghost use Rattle.value_model.specs.declared.event.Reply.{Reply};
ghost use Rattle.value_arena.specs.Growing.{Grows};
ghost use Rattle.luau_tables.specs.Worlds.{MayUseIn};
ghost use Rattle.machine_meaning.specs.States as machine;
ghost use Rattle.call_frames.specs.Cells.{outer};
ghost use Rattle.machine_world.specs.Functions.{purpose_of, wait_by};
ghost use Rattle.machine_world.specs.Parts as parts;
ghost use Rattle.machine_world.specs.Rows.{place_here};
ghost use Rattle.machine_world.specs.Sound.{IsMachine, MayWaitInCode, MayWaitInLibrary, HasRegister, HasUpvalue, HasPlaceOf, HasList, IsCell, Up, Runs, GoesOn, LibraryWaits, LibraryWaitsFor, UsesStay};

use call_frames::{Frame, ReturnKind, Stack};
use luau_tables::LibWorld;
use machine_code::Code;
use resource::OutOfMemory;
use value_model::{CellId, ClosureId, Value};

/// The running state of a script, beside the world of which it is the owner.
#[derive(Drop)]
pub struct Machine {
    pub stack: Stack,
    pub code: Code,
}

impl Machine {
    /// A register of the function that runs.
    pub fn read(&self, world: &LibWorld, register: u8) -> Value
        requires sound { IsMachine world.now self.now.stack }
        requires has { HasRegister self.now.stack register }
        ensures value { (x : machine.Focus) (replies : List Reply) → meant world.now.names result ≡ parts.read_of m.Nil (parts.register_value register) (parts.part world.now self.now.code self.now.stack x replies) }
        ensures usable { MayUseIn world.now result }
    {
        self.stack.local(register)
    }

    /// Writes a register of the function that runs.
    pub fn write(&mut self, world: &LibWorld, register: u8, v: Value)
        requires sound { IsMachine world.now self.old.stack }
        requires has { HasRegister self.old.stack register }
        requires usable { MayUseIn world.now v }
        ensures written { parts.Becomes (parts.changed (machine.set register (meant world.now.names v))) world.now self.old.code self.old.stack world.now self.new.stack }
        ensures sound { IsMachine world.now self.new.stack }
        ensures frames { self.new.stack.frames ≡ self.old.stack.frames }
        ensures code { self.new.code ≡ self.old.code }
    {
        self.stack.set_local(register, v);
    }

    /// The cell of an upvalue of the function that runs.
    pub fn upvalue_cell(&self, world: &LibWorld, upvalue: u8) -> CellId
        requires sound { IsMachine world.now self.now.stack }
        requires has { HasUpvalue world.now.arena self.now.stack upvalue }
        ensures { Up world.now self.now.code self.now.stack upvalue result }
    {
        let Some(frame) = self.stack.frame() else {
            unreachable!()
        };
        let Some(id) = frame.closure else {
            unreachable!()
        };
        let closure = world.arena.closure(id);
        closure.cells.as_slice()[usize::from(upvalue)]
    }

    /// What an upvalue of the function that runs holds.
    pub fn read_up(&self, world: &LibWorld, upvalue: u8) -> Value
        requires sound { IsMachine world.now self.now.stack }
        requires has { HasUpvalue world.now.arena self.now.stack upvalue }
        ensures value { (x : machine.Focus) (replies : List Reply) → meant world.now.names result ≡ parts.read_of m.Nil (parts.upvalue upvalue) (parts.part world.now self.now.code self.now.stack x replies) }
        ensures usable { MayUseIn world.now result }
    {
        self.stack.lies();
        let cell = self.upvalue_cell(world, upvalue);
        self.stack.read_up(&world.arena, cell)
    }

    /// Writes an upvalue of the function that runs.
    pub fn write_up(&mut self, world: &mut LibWorld, upvalue: u8, v: Value)
        requires sound { IsMachine world.old self.old.stack }
        requires has { HasUpvalue world.old.arena self.old.stack upvalue }
        requires usable { MayUseIn world.old v }
        ensures written { parts.Becomes (parts.changed (parts.set_upvalue upvalue (meant world.old.names v))) world.old self.old.code self.old.stack world.new self.new.stack }
        ensures world { world.new ≡ record world.old { arena = world.new.arena } }
        ensures uses { UsesStay world.old world.new }
        ensures sound { IsMachine world.new self.new.stack }
        ensures frames { self.new.stack.frames ≡ self.old.stack.frames }
        ensures code { self.new.code ≡ self.old.code }
    {
        self.stack.lies();
        let cell = self.upvalue_cell(world, upvalue);
        self.stack.write_up(&mut world.arena, cell, v);
    }

    /// The cell of a register of the function that runs, which is opened if need be.
    pub fn capture(&mut self, world: &mut LibWorld, register: u8) -> Result<CellId, OutOfMemory>
        requires sound { IsMachine world.old self.old.stack }
        requires has { HasRegister self.old.stack register }
        ensures captured { OnOk result (parts.Becomes (parts.changed (λ i. (parts.captured register i).inside)) world.old self.old.code self.old.stack world.new self.new.stack) }
        ensures cell { IfOk result (λ c. (x : machine.Focus) (replies : List Reply) → c.place ≡ parts.read_of 0 (parts.captured_cell register) (parts.part world.old self.old.code self.old.stack x replies)) }
        ensures own { IfOk result (λ c. IsCell world.new.owner world.new.arena c) }
        ensures world { world.new ≡ record world.old { arena = world.new.arena } }
        ensures grows { Grows world.old.arena world.new.arena }
        ensures frames { OnOk result (self.new.stack.frames ≡ self.old.stack.frames) }
        ensures sound { OnOk result (IsMachine world.new self.new.stack) }
        ensures code { self.new.code ≡ self.old.code }
    {
        let place = self.stack.place(register);
        self.stack.capture(&mut world.arena, world.owner, place)
    }

    /// Closes the open cells of the registers of the function that runs, from one on.
    pub fn close(&mut self, world: &mut LibWorld, register: u8)
        requires sound { IsMachine world.old self.old.stack }
        requires has { HasRegister self.old.stack register }
        ensures closed { parts.Becomes (parts.changed (parts.close register)) world.old self.old.code self.old.stack world.new self.new.stack }
        ensures world { world.new ≡ record world.old { arena = world.new.arena } }
        ensures uses { UsesStay world.old world.new }
        ensures sound { IsMachine world.new self.new.stack }
        ensures frames { self.new.stack.frames ≡ self.old.stack.frames }
        ensures code { self.new.code ≡ self.old.code }
    {
        let place = self.stack.place(register);
        self.stack.close_from(&mut world.arena, place);
    }

    /// The function that runs goes on at a place.
    pub fn go(&mut self, world: &LibWorld, place: usize)
        requires sound { IsMachine world.now self.old.stack }
        requires runs { Runs self.old.stack }
        ensures placed { parts.Becomes (parts.changed (parts.placed place)) world.now self.old.code self.old.stack world.now self.new.stack }
        ensures sound { IsMachine world.now self.new.stack }
        ensures frames { GoesOn self.old.stack → GoesOn self.new.stack }
        ensures code { self.new.code ≡ self.old.code }
    {
        self.stack.set_place(place);
    }

    /// The function that runs waits for no call any more.
    pub fn awake(&mut self, world: &LibWorld)
        requires sound { IsMachine world.now self.old.stack }
        requires runs { Runs self.old.stack }
        ensures awake { parts.Becomes (parts.changed parts.awake) world.now self.old.code self.old.stack world.now self.new.stack }
        ensures sound { IsMachine world.now self.new.stack }
        ensures goes { GoesOn self.new.stack }
        ensures code { self.new.code ≡ self.old.code }
    {
        self.stack.set_kind(ReturnKind::Idle);
    }

    /// The place of the instruction at which the function that runs stands.
    pub fn place(&self) -> usize
        requires { Runs self.now.stack }
        ensures { result ≡ place_here self.now.stack }
    {
        let Some(frame) = self.stack.frame() else {
            unreachable!()
        };
        frame.place
    }

    /// The function that runs waits for a call, and then does this with its values.
    pub fn wait(&mut self, world: &LibWorld, kind: ReturnKind)
        requires sound { IsMachine world.now self.old.stack }
        requires runs { Runs self.old.stack }
        requires kind { MayWaitInCode world.now kind }
        ensures waits { parts.Becomes (parts.changed (parts.waits (purpose_of world.now.names kind))) world.now self.old.code self.old.stack world.now self.new.stack }
        ensures top { self.new.stack.top ≡ 0 }
        ensures sound { IsMachine world.now self.new.stack }
        ensures code { self.new.code ≡ self.old.code }
    {
        self.stack.set_kind(kind);
        self.stack.set_top(0);
    }

    /// One value fewer than `count` from a register on, or at 0 all up to where the list of values ends.
    pub fn list(&self, world: &LibWorld, from: u8, count: u8) -> &[Value]
        requires sound { IsMachine world.now self.now.stack }
        requires has { HasList self.now.stack count from }
        ensures values { (x : machine.Focus) (replies : List Reply) → map (meant world.now.names) result.now ≡ parts.read_of [] (parts.list_of count from) (parts.part world.now self.now.code self.now.stack x replies) }
        ensures usable { AllByRecursion (MayUseIn world.now) result.now }
    {
        self.stack.lies();
        let _end = self.stack.end();
        let top = self.stack.top();
        let Some(frame) = self.stack.frame() else {
            unreachable!()
        };
        let at = frame.base + usize::from(from);
        let values = span(count, top, at);
        self.stack.values(at, values)
    }

    /// Values into the registers of the function that runs, from one on. Its list of values ends behind them.
    pub fn deliver(&mut self, world: &LibWorld, to: u8, vs: &[Value]) -> Result<(), OutOfMemory>
        requires sound { IsMachine world.now self.old.stack }
        requires has { HasPlaceOf self.old.stack to }
        requires usable { AllByRecursion (MayUseIn world.now) vs.now }
        ensures delivered { OnOk result (parts.Becomes (parts.changed (parts.delivered to (map (meant world.now.names) vs.now))) world.now self.old.code self.old.stack world.now self.new.stack) }
        ensures sound { OnOk result (IsMachine world.now self.new.stack) }
        ensures frames { OnOk result (self.new.stack.frames ≡ self.old.stack.frames) }
        ensures code { self.new.code ≡ self.old.code }
    {
        self.stack.lies();
        self.stack.deliver(to, vs)
    }

    /// Leaves the function that runs.
    pub fn leave(&mut self, world: &mut LibWorld)
        requires sound { IsMachine world.old self.old.stack }
        requires runs { Runs self.old.stack }
        ensures left { parts.Becomes parts.left world.old self.old.code self.old.stack world.new self.new.stack }
        ensures sound { IsMachine world.new self.new.stack }
        ensures top { self.new.stack.top ≡ 0 }
        ensures frames { self.new.stack.frames ≡ outer self.old.stack }
        ensures world { world.new ≡ record world.old { arena = world.new.arena } }
        ensures uses { UsesStay world.old world.new }
        ensures code { self.new.code ≡ self.old.code }
    {
        self.stack.lies();
        let_go(self.stack.pop(&mut world.arena));
        self.stack.set_top(0);
    }

    /// A library function waits for the values of a call, and does this with them.
    pub fn await_library(&mut self, world: &LibWorld, kind: ReturnKind) -> Result<(), OutOfMemory>
        requires sound { IsMachine world.now self.old.stack }
        requires waits { self.old.stack.top ≡ 0 }
        requires kind { MayWaitInLibrary world.now kind }
        ensures awaited { OnOk result (parts.Becomes (parts.awaited (wait_by world.now.names kind)) world.now self.old.code self.old.stack world.now self.new.stack) }
        ensures sound { OnOk result (IsMachine world.now self.new.stack) }
        ensures top { OnOk result (self.new.stack.top ≡ 0) }
        ensures code { self.new.code ≡ self.old.code }
    {
        self.stack.lies();
        self.stack.push_library(kind)
    }

    /// The library function that waits innermost waits no longer. What it would have done with the values is given.
    pub fn leave_library(&mut self, world: &mut LibWorld) -> ReturnKind
        requires sound { IsMachine world.old self.old.stack }
        requires waits { LibraryWaits self.old.stack }
        ensures over { parts.Becomes parts.over world.old self.old.code self.old.stack world.new self.new.stack }
        ensures kind { LibraryWaitsFor self.old.stack result }
        ensures may { MayWaitInLibrary world.new result }
        ensures sound { IsMachine world.new self.new.stack }
        ensures top { self.new.stack.top ≡ 0 }
        ensures frames { self.new.stack.frames ≡ outer self.old.stack }
        ensures world { world.new ≡ record world.old { arena = world.new.arena } }
        ensures uses { UsesStay world.old world.new }
        ensures code { self.new.code ≡ self.old.code }
    {
        self.stack.lies();
        let frame = self.stack.pop(&mut world.arena);
        self.stack.set_top(0);
        frame.kind
    }

    /// Enters a function with so many registers, of which the first are given, and with variable arguments.
    pub fn enter(
        &mut self,
        world: &LibWorld,
        closure: ClosureId,
        registers: u8,
        given: &[Value],
        extra: &[Value],
    ) -> Result<(), OutOfMemory>
        requires sound { IsMachine world.now self.old.stack }
        requires waits { self.old.stack.top ≡ 0 }
        requires room { length given.now ≤ registers }
        requires closure { MayUseIn world.now (Closure closure) }
        requires given { AllByRecursion (MayUseIn world.now) given.now }
        requires extra { AllByRecursion (MayUseIn world.now) extra.now }
        ensures entered { OnOk result (parts.Becomes (parts.entered closure.place registers (map (meant world.now.names) given.now) (map (meant world.now.names) extra.now)) world.now self.old.code self.old.stack world.now self.new.stack) }
        ensures sound { OnOk result (IsMachine world.now self.new.stack) }
        ensures goes { OnOk result (GoesOn self.new.stack) }
        ensures code { self.new.code ≡ self.old.code }
    {
        self.stack.lies();
        let _end = self.stack.end();
        self.stack.call(closure, registers, given, extra)
    }
}

// How many values there are from a place on: one fewer than `count`, or at 0 all up to the top.
fn span(count: u8, top: usize, at: usize) -> usize
    ensures { result ≡ parts.span count top at }
{
    if count == 0 {
        top.saturating_sub(at)
    } else {
        usize::from(count) - 1
    }
}

// Drops a frame.
fn let_go(_frame: Frame) {}
