//! Instructions that give a register a value, each as the machine's row of it.

ghost use Rattle.std.specs.Prelude.{◌≡◌, ℕ, ℤ, pos, ◌+◌, ◌<◌, ◌^◌, List, Some, cond};
ghost use Rattle.op_words.specs.Chunks.{ChunkOf};
ghost use Rattle.op_words.specs.declared.insn.Insn.TheVariants.{LoadB, LoadN, LoadK, LoadKX, And, Or, AndK, OrK};
ghost use Rattle.machine_meaning.specs.Constants.{known};
ghost use Rattle.machine_meaning.specs.Instructions.{row};
ghost use Rattle.value_model.specs.Parts.{meant};
ghost use Rattle.luau_tables.specs.Worlds.{MayUseIn};
ghost use Rattle.machine_world.specs.Rows.{Makes, place_here, proto_here};
ghost use Rattle.machine_world.specs.Sound.{IsMachine, HasRegister, GoesOn};

use crate::machine::Machine;
use luau_tables::LibWorld;
use value_model::{Value, truthy};
use whole_num::Whole;

impl Machine {
    /// True where `value` is 1, else false, into a register. Then so many words are passed over.
    pub fn load_bool(&mut self, world: &LibWorld, to: u8, value: u8, skip: u8)
        requires sound { IsMachine world.now self.old.stack }
        requires goes { GoesOn self.old.stack }
        requires has { HasRegister self.old.stack to }
        requires place { place_here self.old.stack + 1 + skip < 2 ^ 64 }
        ensures makes { (chunk : ChunkOf) (words : List ℕ) (next : ℕ) → Makes (row chunk words (LoadB to value skip) next) world.now self.old.code self.old.stack world.now self.new.stack }
        ensures sound { IsMachine world.now self.new.stack }
        ensures goes { GoesOn self.new.stack }
        ensures code { self.new.code ≡ self.old.code }
    {
        let next = self.place() + 1 + usize::from(skip);
        self.give(world, to, Value::Bool(value == 1), next);
    }

    /// A number into a register.
    pub fn load_number(&mut self, world: &LibWorld, to: u8, value: i16, next: usize)
        requires sound { IsMachine world.now self.old.stack }
        requires goes { GoesOn self.old.stack }
        requires has { HasRegister self.old.stack to }
        ensures makes { (chunk : ChunkOf) (words : List ℕ) → Makes (row chunk words (LoadN to value) next) world.now self.old.code self.old.stack world.now self.new.stack }
        ensures sound { IsMachine world.now self.new.stack }
        ensures goes { GoesOn self.new.stack }
        ensures code { self.new.code ≡ self.old.code }
    {
        let number = small(value);
        self.give(world, to, Value::Num(number), next);
    }

    /// A constant into a register: its value, of whichever index it is that of.
    pub fn load_constant(&mut self, world: &LibWorld, to: u8, v: Value, next: usize)
        requires sound { IsMachine world.now self.old.stack }
        requires goes { GoesOn self.old.stack }
        requires has { HasRegister self.old.stack to }
        requires usable { MayUseIn world.now v }
        ensures makes { (chunk : ChunkOf) (words : List ℕ) (k : ℤ) → known chunk (proto_here world.now self.old.code self.old.stack) k ≡ Some (meant world.now.names v) → Makes (row chunk words (LoadK to k) next) world.now self.old.code self.old.stack world.now self.new.stack }
        ensures further { (chunk : ChunkOf) (words : List ℕ) (k : ℕ) → known chunk (proto_here world.now self.old.code self.old.stack) (pos k) ≡ Some (meant world.now.names v) → Makes (row chunk words (LoadKX to k) next) world.now self.old.code self.old.stack world.now self.new.stack }
        ensures sound { IsMachine world.now self.new.stack }
        ensures goes { GoesOn self.new.stack }
        ensures code { self.new.code ≡ self.old.code }
    {
        self.give(world, to, v, next);
    }

    /// The value of `right` where that of `left` is neither nil nor false, else that of `left`, into a register.
    pub fn and(&mut self, world: &LibWorld, to: u8, left: u8, right: u8, next: usize)
        requires sound { IsMachine world.now self.old.stack }
        requires goes { GoesOn self.old.stack }
        requires has { HasRegister self.old.stack to }
        requires left { HasRegister self.old.stack left }
        requires right { HasRegister self.old.stack right }
        ensures makes { (chunk : ChunkOf) (words : List ℕ) → Makes (row chunk words (And to left right) next) world.now self.old.code self.old.stack world.now self.new.stack }
        ensures sound { IsMachine world.now self.new.stack }
        ensures goes { GoesOn self.new.stack }
        ensures code { self.new.code ≡ self.old.code }
    {
        let v = self.read(world, left);
        let u = self.read(world, right);
        let chosen = select(truthy(v), &u, &v);
        self.give(world, to, chosen, next);
    }

    /// The value of `left` where it is neither nil nor false, else that of `right`, into a register.
    pub fn or(&mut self, world: &LibWorld, to: u8, left: u8, right: u8, next: usize)
        requires sound { IsMachine world.now self.old.stack }
        requires goes { GoesOn self.old.stack }
        requires has { HasRegister self.old.stack to }
        requires left { HasRegister self.old.stack left }
        requires right { HasRegister self.old.stack right }
        ensures makes { (chunk : ChunkOf) (words : List ℕ) → Makes (row chunk words (Or to left right) next) world.now self.old.code self.old.stack world.now self.new.stack }
        ensures sound { IsMachine world.now self.new.stack }
        ensures goes { GoesOn self.new.stack }
        ensures code { self.new.code ≡ self.old.code }
    {
        let v = self.read(world, left);
        let u = self.read(world, right);
        let chosen = select(truthy(v), &v, &u);
        self.give(world, to, chosen, next);
    }

    /// A constant's value where that of `left` is neither nil nor false, else that of `left`, into a register.
    pub fn and_constant(&mut self, world: &LibWorld, to: u8, left: u8, constant: Value, next: usize)
        requires sound { IsMachine world.now self.old.stack }
        requires goes { GoesOn self.old.stack }
        requires has { HasRegister self.old.stack to }
        requires left { HasRegister self.old.stack left }
        requires usable { MayUseIn world.now constant }
        ensures makes { (chunk : ChunkOf) (words : List ℕ) (k : ℕ) → known chunk (proto_here world.now self.old.code self.old.stack) (pos k) ≡ Some (meant world.now.names constant) → Makes (row chunk words (AndK to left k) next) world.now self.old.code self.old.stack world.now self.new.stack }
        ensures sound { IsMachine world.now self.new.stack }
        ensures goes { GoesOn self.new.stack }
        ensures code { self.new.code ≡ self.old.code }
    {
        let v = self.read(world, left);
        let chosen = select(truthy(v), &constant, &v);
        self.give(world, to, chosen, next);
    }

    /// The value of `left` where it is neither nil nor false, else a constant's value, into a register.
    pub fn or_constant(&mut self, world: &LibWorld, to: u8, left: u8, constant: Value, next: usize)
        requires sound { IsMachine world.now self.old.stack }
        requires goes { GoesOn self.old.stack }
        requires has { HasRegister self.old.stack to }
        requires left { HasRegister self.old.stack left }
        requires usable { MayUseIn world.now constant }
        ensures makes { (chunk : ChunkOf) (words : List ℕ) (k : ℕ) → known chunk (proto_here world.now self.old.code self.old.stack) (pos k) ≡ Some (meant world.now.names constant) → Makes (row chunk words (OrK to left k) next) world.now self.old.code self.old.stack world.now self.new.stack }
        ensures sound { IsMachine world.now self.new.stack }
        ensures goes { GoesOn self.new.stack }
        ensures code { self.new.code ≡ self.old.code }
    {
        let v = self.read(world, left);
        let chosen = select(truthy(v), &v, &constant);
        self.give(world, to, chosen, next);
    }
}

// The number that a short word is.
fn small(value: i16) -> Whole
    ensures { result ≡ value }
{
    match Whole::new(i64::from(value)) {
        Some(number) => number,
        None => unreachable!(),
    }
}

// One of two values.
fn select(holds: bool, yes: &Value, no: &Value) -> Value
    ensures { result ≡ cond holds yes.now no.now }
{
    if holds { *yes } else { *no }
}
