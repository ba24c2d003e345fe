//! Instructions that call nothing, each as the machine's row of it.

ghost use Rattle.std.specs.Prelude.{◌≡◌, ℕ, ◌+◌, ◌<◌, List, [], map, IfOk, OnOk};
ghost use Rattle.op_words.specs.Chunks.{ChunkOf};
ghost use Rattle.op_words.specs.declared.insn.Insn.TheVariants.{LoadNil, Move, GetUpvalue, SetUpvalue, CloseUpvalues, Not, Call, Return};
ghost use Rattle.machine_meaning.specs.Instructions.{row};
ghost use Rattle.value_model.specs.Parts.{meant};
ghost use Rattle.luau_tables.specs.Worlds.{MayUseIn};
ghost use Rattle.machine_meaning.specs.Moves as moves;
ghost use Rattle.std.specs.List.{AllByRecursion};
ghost use Rattle.value_model.specs.Waits.{ByScript};
ghost use Rattle.machine_meaning.specs.States.{Invoke, Hand};
ghost use Rattle.machine_world.specs.Rows.{Makes, MakesTo};
ghost use Rattle.machine_world.specs.Sound.{IsMachine, HasRegister, HasUpvalue, HasList, GoesOn, UsesStay};

use crate::machine::Machine;
use call_frames::ReturnKind;
use luau_tables::LibWorld;
use resource::OutOfMemory;
use value_model::{Value, truthy};

impl Machine {
    /// Gives a value to a register, and goes on.
    pub fn give(&mut self, world: &LibWorld, to: u8, v: Value, next: usize)
        requires sound { IsMachine world.now self.old.stack }
        requires goes { GoesOn self.old.stack }
        requires has { HasRegister self.old.stack to }
        requires usable { MayUseIn world.now v }
        ensures makes { Makes (moves.give to (meant world.now.names v) next) world.now self.old.code self.old.stack world.now self.new.stack }
        ensures sound { IsMachine world.now self.new.stack }
        ensures goes { GoesOn self.new.stack }
        ensures code { self.new.code ≡ self.old.code }
    {
        self.write(world, to, v);
        self.go(world, next);
    }

    /// Nil into a register.
    pub fn load_nil(&mut self, world: &LibWorld, to: u8, next: usize)
        requires sound { IsMachine world.now self.old.stack }
        requires goes { GoesOn self.old.stack }
        requires has { HasRegister self.old.stack to }
        ensures makes { (chunk : ChunkOf) (words : List ℕ) → Makes (row chunk words (LoadNil to) next) world.now self.old.code self.old.stack world.now self.new.stack }
        ensures sound { IsMachine world.now self.new.stack }
        ensures goes { GoesOn self.new.stack }
        ensures code { self.new.code ≡ self.old.code }
    {
        self.give(world, to, Value::Nil, next);
    }

    /// The value of a register into another one.
    pub fn move_(&mut self, world: &LibWorld, to: u8, from: u8, next: usize)
        requires sound { IsMachine world.now self.old.stack }
        requires goes { GoesOn self.old.stack }
        requires has { HasRegister self.old.stack to }
        requires from { HasRegister self.old.stack from }
        ensures makes { (chunk : ChunkOf) (words : List ℕ) → Makes (row chunk words (Move to from) next) world.now self.old.code self.old.stack world.now self.new.stack }
        ensures sound { IsMachine world.now self.new.stack }
        ensures goes { GoesOn self.new.stack }
        ensures code { self.new.code ≡ self.old.code }
    {
        let v = self.read(world, from);
        self.give(world, to, v, next);
    }

    /// What an upvalue holds, into a register.
    pub fn get_upvalue(&mut self, world: &LibWorld, to: u8, upvalue: u8, next: usize)
        requires sound { IsMachine world.now self.old.stack }
        requires goes { GoesOn self.old.stack }
        requires has { HasRegister self.old.stack to }
        requires up { HasUpvalue world.now.arena self.old.stack upvalue }
        ensures makes { (chunk : ChunkOf) (words : List ℕ) → Makes (row chunk words (GetUpvalue to upvalue) next) world.now self.old.code self.old.stack world.now self.new.stack }
        ensures sound { IsMachine world.now self.new.stack }
        ensures goes { GoesOn self.new.stack }
        ensures code { self.new.code ≡ self.old.code }
    {
        let v = self.read_up(world, upvalue);
        self.give(world, to, v, next);
    }

    /// The value of a register into an upvalue.
    pub fn set_upvalue(&mut self, world: &mut LibWorld, from: u8, upvalue: u8, next: usize)
        requires sound { IsMachine world.old self.old.stack }
        requires goes { GoesOn self.old.stack }
        requires from { HasRegister self.old.stack from }
        requires up { HasUpvalue world.old.arena self.old.stack upvalue }
        ensures makes { (chunk : ChunkOf) (words : List ℕ) → Makes (row chunk words (SetUpvalue from upvalue) next) world.old self.old.code self.old.stack world.new self.new.stack }
        ensures world { world.new ≡ record world.old { arena = world.new.arena } }
        ensures uses { UsesStay world.old world.new }
        ensures sound { IsMachine world.new self.new.stack }
        ensures goes { GoesOn self.new.stack }
        ensures code { self.new.code ≡ self.old.code }
    {
        let v = self.read(world, from);
        self.write_up(world, upvalue, v);
        self.go(world, next);
    }

    /// Closes the open cells of the registers from one on.
    pub fn close_upvalues(&mut self, world: &mut LibWorld, from: u8, next: usize)
        requires sound { IsMachine world.old self.old.stack }
        requires goes { GoesOn self.old.stack }
        requires from { HasRegister self.old.stack from }
        ensures makes { (chunk : ChunkOf) (words : List ℕ) → Makes (row chunk words (CloseUpvalues from) next) world.old self.old.code self.old.stack world.new self.new.stack }
        ensures world { world.new ≡ record world.old { arena = world.new.arena } }
        ensures uses { UsesStay world.old world.new }
        ensures sound { IsMachine world.new self.new.stack }
        ensures goes { GoesOn self.new.stack }
        ensures code { self.new.code ≡ self.old.code }
    {
        self.close(world, from);
        self.go(world, next);
    }

    /// Whether the value of a register is nil or false, into a register.
    pub fn not(&mut self, world: &LibWorld, to: u8, from: u8, next: usize)
        requires sound { IsMachine world.now self.old.stack }
        requires goes { GoesOn self.old.stack }
        requires has { HasRegister self.old.stack to }
        requires from { HasRegister self.old.stack from }
        ensures makes { (chunk : ChunkOf) (words : List ℕ) → Makes (row chunk words (Not to from) next) world.now self.old.code self.old.stack world.now self.new.stack }
        ensures sound { IsMachine world.now self.new.stack }
        ensures goes { GoesOn self.new.stack }
        ensures code { self.new.code ≡ self.old.code }
    {
        let v = self.read(world, from);
        let holds = truthy(v);
        self.give(world, to, Value::Bool(!holds), next);
    }

    /// The register behind one that the function that runs has.
    pub fn behind(&self, register: u8) -> u8
        requires { HasRegister self.now.stack register }
        ensures { result ≡ register + 1 }
    {
        let Some(frame) = self.stack.frame() else {
            unreachable!()
        };
        next(register, frame.registers)
    }

    /// Begins a call: what is called, with its arguments behind the values. The function that runs waits for their values.
    pub fn call(
        &mut self,
        world: &LibWorld,
        base: u8,
        arguments: u8,
        results: u8,
        next: usize,
        values: &mut Vec<Value>,
    ) -> Result<Value, OutOfMemory>
        requires sound { IsMachine world.now self.old.stack }
        requires goes { GoesOn self.old.stack }
        requires has { HasRegister self.old.stack base }
        requires list { HasList self.old.stack arguments (base + 1) }
        requires empty { values.old.items ≡ [] }
        ensures makes { IfOk result (λ f. (chunk : ChunkOf) (words : List ℕ) → MakesTo (row chunk words (Call base arguments results) next) world.now self.old.code self.old.stack (Invoke ByScript (meant world.now.names f) (map (meant world.now.names) values.new.items)) world.now self.new.stack) }
        ensures sound { IsMachine world.now self.new.stack }
        ensures top { OnOk result (self.new.stack.top ≡ 0) }
        ensures usable { IfOk result (λ f. MayUseIn world.now f × AllByRecursion (MayUseIn world.now) values.new.items) }
        ensures code { self.new.code ≡ self.old.code }
    {
        let callee = self.read(world, base);
        let first = self.behind(base);
        values.extend_from_slice(self.list(world, first, arguments))?;
        let kind = ReturnKind::Call {
            to: base,
            results,
            next,
        };
        self.wait(world, kind);
        Ok(callee)
    }

    /// Leaves the function that runs, with values.
    pub fn return_(
        &mut self,
        world: &mut LibWorld,
        base: u8,
        count: u8,
        values: &mut Vec<Value>,
    ) -> Result<(), OutOfMemory>
        requires sound { IsMachine world.old self.old.stack }
        requires goes { GoesOn self.old.stack }
        requires list { HasList self.old.stack count base }
        requires empty { values.old.items ≡ [] }
        ensures makes { OnOk result ((chunk : ChunkOf) (words : List ℕ) (next : ℕ) → MakesTo (row chunk words (Return base count) next) world.old self.old.code self.old.stack (Hand (map (meant world.old.names) values.new.items)) world.new self.new.stack) }
        ensures sound { IsMachine world.new self.new.stack }
        ensures world { world.new ≡ record world.old { arena = world.new.arena } }
        ensures uses { UsesStay world.old world.new }
        ensures usable { OnOk result (AllByRecursion (MayUseIn world.new) values.new.items) }
        ensures top { OnOk result (self.new.stack.top ≡ 0) }
        ensures code { self.new.code ≡ self.old.code }
    {
        values.extend_from_slice(self.list(world, base, count))?;
        self.leave(world);
        Ok(())
    }
}

// The register behind one of so many.
fn next(register: u8, registers: u8) -> u8
    requires { register < registers }
    ensures { result ≡ register + 1 }
{
    register + 1
}
