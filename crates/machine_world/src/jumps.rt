//! Instructions that jump, each as the machine's row of it.

ghost use Rattle.std.specs.Prelude.{◌≡◌, ℕ, zero, suc, ℤ, pos, negsuc, ◌+◌, ◌<◌, ◌≤◌, ◌^◌, ◌/◌, ◌%◌, List, Some, nat_eq, cond, ◌+ℤ◌};
ghost use Rattle.op_words.specs.Chunks.{ChunkOf};
ghost use Rattle.op_words.specs.declared.insn.Insn.TheVariants.{Nop, PrepVarargs, Jump, JumpX, JumpBack, JumpIf, JumpIfNot, JumpXEqKNil, JumpXEqKB, JumpXEqKN, JumpXEqKS};
ghost use Rattle.machine_meaning.specs.Constants.{known};
ghost use Rattle.machine_meaning.specs.Effects.{agrees};
ghost use Rattle.machine_meaning.specs.Instructions.{row};
ghost use Rattle.machine_meaning.specs.Moves as moves;
ghost use Rattle.machine_meaning.specs.States.{Run};
ghost use Rattle.value_model.specs.Values as m;
ghost use Rattle.value_arena.specs.Tables as kept;
ghost use Rattle.value_model.specs.Parts.{meant};
ghost use Rattle.luau_tables.specs.Worlds.{MayUseIn};
ghost use Rattle.machine_world.specs.Rows.{Makes, MakesCharged, place_here, proto_here};
ghost use Rattle.machine_world.specs.Sound.{IsMachine, HasRegister, GoesOn, Ahead, Back};

use crate::machine::Machine;
use luau_tables::LibWorld;
use value_model::{Value, truthy};

impl Machine {
    /// Goes on behind the instruction, where need be once a turn was charged.
    pub fn pass(&mut self, world: &LibWorld, next: usize)
        requires sound { IsMachine world.now self.old.stack }
        requires goes { GoesOn self.old.stack }
        ensures makes { (chunk : ChunkOf) (words : List ℕ) → Makes (row chunk words (Nop (pos zero)) next) world.now self.old.code self.old.stack world.now self.new.stack }
        ensures charges { (chunk : ChunkOf) (words : List ℕ) → MakesCharged (row chunk words (Nop (pos (suc zero))) next) world.now self.old.code self.old.stack Run world.now self.new.stack }
        ensures prepares { (chunk : ChunkOf) (words : List ℕ) (parameters : ℕ) → Makes (row chunk words (PrepVarargs parameters) next) world.now self.old.code self.old.stack world.now self.new.stack }
        ensures sound { IsMachine world.now self.new.stack }
        ensures goes { GoesOn self.new.stack }
        ensures code { self.new.code ≡ self.old.code }
    {
        self.go(world, next);
    }

    /// Jumps forward, by so many words from the word behind the first one of the instruction.
    pub fn jump(&mut self, world: &LibWorld, by: i32)
        requires sound { IsMachine world.now self.old.stack }
        requires goes { GoesOn self.old.stack }
        requires ahead { Ahead (place_here self.old.stack) by }
        ensures makes { (chunk : ChunkOf) (words : List ℕ) (next : ℕ) → Makes (row chunk words (Jump by) next) world.now self.old.code self.old.stack world.now self.new.stack }
        ensures further { (chunk : ChunkOf) (words : List ℕ) (next : ℕ) → Makes (row chunk words (JumpX by) next) world.now self.old.code self.old.stack world.now self.new.stack }
        ensures sound { IsMachine world.now self.new.stack }
        ensures goes { GoesOn self.new.stack }
        ensures code { self.new.code ≡ self.old.code }
    {
        let to = ahead(self.place(), by);
        self.go(world, to);
    }

    /// Jumps back, by so many words from the word behind the first one of the instruction. A turn is charged first.
    pub fn jump_back(&mut self, world: &LibWorld, by: i16)
        requires sound { IsMachine world.now self.old.stack }
        requires goes { GoesOn self.old.stack }
        requires back { Back (place_here self.old.stack) by }
        ensures makes { (chunk : ChunkOf) (words : List ℕ) (next : ℕ) → MakesCharged (row chunk words (JumpBack by) next) world.now self.old.code self.old.stack Run world.now self.new.stack }
        ensures sound { IsMachine world.now self.new.stack }
        ensures goes { GoesOn self.new.stack }
        ensures code { self.new.code ≡ self.old.code }
    {
        let to = back(self.place(), by);
        self.go(world, to);
    }

    /// Jumps forward where this holds, and else goes on behind the instruction.
    pub fn jump_where(&mut self, world: &LibWorld, holds: bool, by: i16, next: usize)
        requires sound { IsMachine world.now self.old.stack }
        requires goes { GoesOn self.old.stack }
        requires ahead { Ahead (place_here self.old.stack) by }
        ensures makes { Makes (moves.branch holds by next) world.now self.old.code self.old.stack world.now self.new.stack }
        ensures sound { IsMachine world.now self.new.stack }
        ensures goes { GoesOn self.new.stack }
        ensures code { self.new.code ≡ self.old.code }
    {
        let to = either(holds, ahead(self.place(), i32::from(by)), next);
        self.go(world, to);
    }

    /// Jumps where the value of a register is neither nil nor false.
    pub fn jump_if(&mut self, world: &LibWorld, from: u8, by: i16, next: usize)
        requires sound { IsMachine world.now self.old.stack }
        requires goes { GoesOn self.old.stack }
        requires from { HasRegister self.old.stack from }
        requires ahead { Ahead (place_here self.old.stack) by }
        ensures makes { (chunk : ChunkOf) (words : List ℕ) → Makes (row chunk words (JumpIf from by) next) world.now self.old.code self.old.stack world.now self.new.stack }
        ensures sound { IsMachine world.now self.new.stack }
        ensures goes { GoesOn self.new.stack }
        ensures code { self.new.code ≡ self.old.code }
    {
        let holds = truthy(self.read(world, from));
        self.jump_where(world, holds, by, next);
    }

    /// Jumps where the value of a register is nil or false.
    pub fn jump_if_not(&mut self, world: &LibWorld, from: u8, by: i16, next: usize)
        requires sound { IsMachine world.now self.old.stack }
        requires goes { GoesOn self.old.stack }
        requires from { HasRegister self.old.stack from }
        requires ahead { Ahead (place_here self.old.stack) by }
        ensures makes { (chunk : ChunkOf) (words : List ℕ) → Makes (row chunk words (JumpIfNot from by) next) world.now self.old.code self.old.stack world.now self.new.stack }
        ensures sound { IsMachine world.now self.new.stack }
        ensures goes { GoesOn self.new.stack }
        ensures code { self.new.code ≡ self.old.code }
    {
        let holds = truthy(self.read(world, from));
        self.jump_where(world, !holds, by, next);
    }

    /// Jumps where the value of a register is a constant, or where the highest bit of `test` is set and it is not.
    pub fn jump_if_constant(
        &mut self,
        world: &LibWorld,
        from: u8,
        constant: Value,
        test: u32,
        by: i16,
        next: usize,
    )
        requires sound { IsMachine world.now self.old.stack }
        requires goes { GoesOn self.old.stack }
        requires from { HasRegister self.old.stack from }
        requires usable { MayUseIn world.now constant }
        requires ahead { Ahead (place_here self.old.stack) by }
        ensures nil { (chunk : ChunkOf) (words : List ℕ) → meant world.now.names constant ≡ m.Nil → Makes (row chunk words (JumpXEqKNil from by test) next) world.now self.old.code self.old.stack world.now self.new.stack }
        ensures boolean { (chunk : ChunkOf) (words : List ℕ) → meant world.now.names constant ≡ m.Boolean (nat_eq (test % 2) 1) → Makes (row chunk words (JumpXEqKB from by test) next) world.now self.old.code self.old.stack world.now self.new.stack }
        ensures number { (chunk : ChunkOf) (words : List ℕ) → known chunk (proto_here world.now self.old.code self.old.stack) (pos (test % 2 ^ 24)) ≡ Some (meant world.now.names constant) → Makes (row chunk words (JumpXEqKN from by test) next) world.now self.old.code self.old.stack world.now self.new.stack }
        ensures text { (chunk : ChunkOf) (words : List ℕ) → known chunk (proto_here world.now self.old.code self.old.stack) (pos (test % 2 ^ 24)) ≡ Some (meant world.now.names constant) → Makes (row chunk words (JumpXEqKS from by test) next) world.now self.old.code self.old.stack world.now self.new.stack }
        ensures sound { IsMachine world.now self.new.stack }
        ensures goes { GoesOn self.new.stack }
        ensures code { self.new.code ≡ self.old.code }
    {
        let v = self.read(world, from);
        let is_constant = is(&v, &constant);
        let holds = agrees(test / (1 << 31) == 0, is_constant);
        self.jump_where(world, holds, by, next);
    }
}

// Whether two values are one.
fn is(a: &Value, b: &Value) -> bool
    ensures { result ≡ kept.same a.now b.now }
{
    *a == *b
}

/// Whether an answer is the one for which a jump is taken.
pub fn agrees(wanted: bool, answer: bool) -> bool
    ensures { result ≡ agrees wanted answer }
{
    wanted == answer
}

// Either place.
fn either(holds: bool, yes: usize, no: usize) -> usize
    ensures { result ≡ cond holds yes no }
{
    if holds { yes } else { no }
}

// The place so many words behind the word at a place.
fn ahead(place: usize, by: i32) -> usize
    requires { Ahead place by }
    ensures { pos result ≡ pos (place + 1) +ℤ by }
{
    match usize::try_from(by) {
        Ok(by) => place + 1 + by,
        Err(_) => unreachable!(),
    }
}

/// The place so many words before the word behind a place.
pub fn back(place: usize, by: i16) -> usize
    requires { Back place by }
    ensures { pos result ≡ pos (place + 1) +ℤ by }
{
    place - usize::from((by + 1).unsigned_abs())
}
