//! Arithmetic.

ghost use Rattle.std.specs.Prelude.{◌≡◌, ℕ, pos, List, Some};
ghost use Rattle.op_words.specs.Chunks.{ChunkOf};
ghost use Rattle.op_words.specs.declared.insn.Insn.TheVariants.{SubRK, DivRK, Minus};
ghost use Rattle.value_model.specs.Parts.{meant};
ghost use Rattle.luau_tables.specs.Worlds.{MayUseIn};
ghost use Rattle.machine_meaning.specs.Constants.{known};
ghost use Rattle.machine_meaning.specs.Effects as effects;
ghost use Rattle.machine_meaning.specs.Instructions.{row};
ghost use Rattle.machine_world.specs.Rows.{proto_here};
ghost use Rattle.machine_world.specs.Sound.{IsMachine, HasRegister, GoesOn};
ghost use Rattle.machine_rows.specs.Leading.{Does, IsNext};
ghost use Rattle.machine_rows.specs.Operations.{on_registers, on_constant};

use crate::next::Next;
use crate::settling::into_register;
use luau_tables::LibWorld;
use machine_world::Machine;
use meta_ops::{ArithOp, arith};
use value_model::Value;

// An operator on two values, with the result into a register.
#[inline(always)]
fn calculate(
    machine: &mut Machine,
    world: &LibWorld,
    op: ArithOp,
    a: Value,
    b: Value,
    to: u8,
    next: usize,
) -> Next
    requires sound { IsMachine world.now machine.old.stack }
    requires goes { GoesOn machine.old.stack }
    requires has { HasRegister machine.old.stack to }
    requires a { MayUseIn world.now a }
    requires b { MayUseIn world.now b }
    ensures makes { (chunk : ChunkOf) → Does chunk (effects.calculate op (meant world.now.names a) (meant world.now.names b) to next) world.now machine.old.code machine.old.stack 0 result world.now machine.new.stack }
    ensures sound { IsMachine world.now machine.new.stack }
    ensures next { IsNext world.now machine.new.stack result }
    ensures code { machine.new.code ≡ machine.old.code }
{
    let outcome = arith(&world.arena, &world.globals, &world.names, op, a, b);
    into_register(machine, world, outcome, to, next)
}

/// An operator on two registers, with the result into a register.
#[inline(always)]
pub fn operate(
    machine: &mut Machine,
    world: &LibWorld,
    op: ArithOp,
    to: u8,
    left: u8,
    right: u8,
    next: usize,
) -> Next
    requires sound { IsMachine world.now machine.old.stack }
    requires goes { GoesOn machine.old.stack }
    requires has { HasRegister machine.old.stack to }
    requires left { HasRegister machine.old.stack left }
    requires right { HasRegister machine.old.stack right }
    ensures makes { (chunk : ChunkOf) (words : List ℕ) → Does chunk (row chunk words (on_registers op to left right) next) world.now machine.old.code machine.old.stack 0 result world.now machine.new.stack }
    ensures sound { IsMachine world.now machine.new.stack }
    ensures next { IsNext world.now machine.new.stack result }
    ensures code { machine.new.code ≡ machine.old.code }
{
    let a = machine.read(world, left);
    let b = machine.read(world, right);
    calculate(machine, world, op, a, b, to, next)
}

/// An operator on a register and a constant, with the result into a register.
#[inline(always)]
pub fn operate_with_constant(
    machine: &mut Machine,
    world: &LibWorld,
    op: ArithOp,
    to: u8,
    left: u8,
    constant: Value,
    next: usize,
) -> Next
    requires sound { IsMachine world.now machine.old.stack }
    requires goes { GoesOn machine.old.stack }
    requires has { HasRegister machine.old.stack to }
    requires left { HasRegister machine.old.stack left }
    requires usable { MayUseIn world.now constant }
    ensures makes { (chunk : ChunkOf) (words : List ℕ) (k : ℕ) → known chunk (proto_here world.now machine.old.code machine.old.stack) (pos k) ≡ Some (meant world.now.names constant) → Does chunk (row chunk words (on_constant op to left k) next) world.now machine.old.code machine.old.stack 0 result world.now machine.new.stack }
    ensures sound { IsMachine world.now machine.new.stack }
    ensures next { IsNext world.now machine.new.stack result }
    ensures code { machine.new.code ≡ machine.old.code }
{
    let a = machine.read(world, left);
    calculate(machine, world, op, a, constant, to, next)
}

/// A constant less the value of a register, into a register.
pub fn constant_less(
    machine: &mut Machine,
    world: &LibWorld,
    to: u8,
    constant: Value,
    right: u8,
    next: usize,
) -> Next
    requires sound { IsMachine world.now machine.old.stack }
    requires goes { GoesOn machine.old.stack }
    requires has { HasRegister machine.old.stack to }
    requires right { HasRegister machine.old.stack right }
    requires usable { MayUseIn world.now constant }
    ensures makes { (chunk : ChunkOf) (words : List ℕ) (k : ℕ) → known chunk (proto_here world.now machine.old.code machine.old.stack) (pos k) ≡ Some (meant world.now.names constant) → Does chunk (row chunk words (SubRK to k right) next) world.now machine.old.code machine.old.stack 0 result world.now machine.new.stack }
    ensures sound { IsMachine world.now machine.new.stack }
    ensures next { IsNext world.now machine.new.stack result }
    ensures code { machine.new.code ≡ machine.old.code }
{
    let b = machine.read(world, right);
    calculate(machine, world, ArithOp::Sub, constant, b, to, next)
}

/// A constant divided by the value of a register, into a register.
pub fn constant_divided(
    machine: &mut Machine,
    world: &LibWorld,
    to: u8,
    constant: Value,
    right: u8,
    next: usize,
) -> Next
    requires sound { IsMachine world.now machine.old.stack }
    requires goes { GoesOn machine.old.stack }
    requires has { HasRegister machine.old.stack to }
    requires right { HasRegister machine.old.stack right }
    requires usable { MayUseIn world.now constant }
    ensures makes { (chunk : ChunkOf) (words : List ℕ) (k : ℕ) → known chunk (proto_here world.now machine.old.code machine.old.stack) (pos k) ≡ Some (meant world.now.names constant) → Does chunk (row chunk words (DivRK to k right) next) world.now machine.old.code machine.old.stack 0 result world.now machine.new.stack }
    ensures sound { IsMachine world.now machine.new.stack }
    ensures next { IsNext world.now machine.new.stack result }
    ensures code { machine.new.code ≡ machine.old.code }
{
    let b = machine.read(world, right);
    calculate(machine, world, ArithOp::Div, constant, b, to, next)
}

/// The minus of the value of a register, into a register.
pub fn minus(machine: &mut Machine, world: &LibWorld, to: u8, from: u8, next: usize) -> Next
    requires sound { IsMachine world.now machine.old.stack }
    requires goes { GoesOn machine.old.stack }
    requires has { HasRegister machine.old.stack to }
    requires from { HasRegister machine.old.stack from }
    ensures makes { (chunk : ChunkOf) (words : List ℕ) → Does chunk (row chunk words (Minus to from) next) world.now machine.old.code machine.old.stack 0 result world.now machine.new.stack }
    ensures sound { IsMachine world.now machine.new.stack }
    ensures next { IsNext world.now machine.new.stack result }
    ensures code { machine.new.code ≡ machine.old.code }
{
    operate(machine, world, ArithOp::Unm, to, from, from, next)
}
