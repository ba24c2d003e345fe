//! Calls of library functions that are done in place.

ghost use Rattle.std.specs.Prelude.{◌≡◌, ℕ, pos, ◌+◌, true, List, [], ◌∷◌, map, Some, IfOk, IfSome, OnOk};
ghost use Rattle.std.specs.List.{AllByRecursion};
ghost use Rattle.op_words.specs.Chunks.{ChunkOf};
ghost use Rattle.op_words.specs.Decoding.{insn_at};
ghost use Rattle.op_words.specs.declared.insn.Insn.TheVariants.{FastCall, FastCall1, FastCall2, FastCall2K};
ghost use Rattle.value_model.specs.Parts.{meant};
ghost use Rattle.luau_tables.specs.Worlds.{IsWorld, Keeps, MayUseIn};
ghost use Rattle.machine_meaning.specs.Constants.{known};
ghost use Rattle.machine_meaning.specs.Effects as effects;
ghost use Rattle.machine_meaning.specs.Instructions.{row};
ghost use Rattle.machine_world.specs.Rows.{Makes, place_here, proto_here};
ghost use Rattle.machine_world.specs.Sound.{IsMachine, GoesOn, HasList, HasPlaceOf, HasRegister, UsesStay};
ghost use Rattle.machine_library.specs.Fast.{call_of, done_or_on, has_values, Led, Tried};
ghost use Rattle.machine_library.specs.Homes.{is_library};
ghost use Rattle.machine_library.specs.Leads.{KnowsImports};

use crate::answers::answer;
use luau_tables::{LibAnswer, LibWorld};
use machine_flow::give_list;
use machine_rows::environment;
use machine_world::Machine;
use resource::OutOfMemory;
use std::alloc::Global;
use value_model::{Builtin, Value};

/// The call that is done in place, and the place behind it.
#[derive(Clone, Copy, PartialEq, Eq, Debug)]
pub struct Replaced {
    pub base: u8,
    pub arguments: u8,
    pub results: u8,
    pub next: usize,
}

/// Does a call in place, with the arguments that it names, or goes on to it. `values` is empty, and its memory is used.
pub fn fast_call(
    alloc: Global,
    machine: &mut Machine,
    world: &mut LibWorld,
    number: u8,
    call: Replaced,
    next: usize,
    values: &mut Vec<Value>,
) -> Result<(), OutOfMemory>
    requires sound { IsMachine world.old machine.old.stack }
    requires imports { KnowsImports world.old.names machine.old.code }
    requires goes { GoesOn machine.old.stack }
    requires base { HasRegister machine.old.stack call.base }
    requires list { HasList machine.old.stack call.arguments (call.base + 1) }
    requires to { HasPlaceOf machine.old.stack call.base }
    requires empty { values.old.items ≡ [] }
    ensures makes { OnOk result ((chunk : ChunkOf) (words : List ℕ) (over : ℕ) → insn_at words (place_here machine.old.stack + 1 + over) ≡ Some (call_of call) → Makes (row chunk words (FastCall number over) next) world.old machine.old.code machine.old.stack world.new machine.new.stack) }
    ensures sound { OnOk result (IsMachine world.new machine.new.stack) }
    ensures goes { OnOk result (GoesOn machine.new.stack) }
    ensures imports { KnowsImports world.new.names machine.old.code }
    ensures uses { UsesStay world.old world.new }
    ensures code { machine.new.code ≡ machine.old.code }
{
    let first = machine.behind(call.base);
    let args = machine.list(world, first, call.arguments);
    let done = try_in_place(alloc, machine, world, number, args, values)?;
    finish(machine, world, done, call, next, values)
}

/// Does a call of one argument in place, which stands in a register, or goes on to it. `values` is empty, and its memory is used.
pub fn fast_call1(
    alloc: Global,
    machine: &mut Machine,
    world: &mut LibWorld,
    number: u8,
    argument: u8,
    call: Replaced,
    next: usize,
    values: &mut Vec<Value>,
) -> Result<(), OutOfMemory>
    requires sound { IsMachine world.old machine.old.stack }
    requires imports { KnowsImports world.old.names machine.old.code }
    requires goes { GoesOn machine.old.stack }
    requires argument { HasRegister machine.old.stack argument }
    requires to { HasPlaceOf machine.old.stack call.base }
    requires empty { values.old.items ≡ [] }
    ensures makes { OnOk result ((chunk : ChunkOf) (words : List ℕ) (over : ℕ) → insn_at words (place_here machine.old.stack + 1 + over) ≡ Some (call_of call) → Makes (row chunk words (FastCall1 number argument over) next) world.old machine.old.code machine.old.stack world.new machine.new.stack) }
    ensures sound { OnOk result (IsMachine world.new machine.new.stack) }
    ensures goes { OnOk result (GoesOn machine.new.stack) }
    ensures imports { KnowsImports world.new.names machine.old.code }
    ensures uses { UsesStay world.old world.new }
    ensures code { machine.new.code ≡ machine.old.code }
{
    let v = machine.read(world, argument);
    let done = try_in_place(alloc, machine, world, number, &[v], values)?;
    finish(machine, world, done, call, next, values)
}

/// Does a call of two arguments in place, which stand in registers, or goes on to it. `values` is empty, and its memory is used.
pub fn fast_call2(
    alloc: Global,
    machine: &mut Machine,
    world: &mut LibWorld,
    number: u8,
    first: u8,
    second: u8,
    call: Replaced,
    next: usize,
    values: &mut Vec<Value>,
) -> Result<(), OutOfMemory>
    requires sound { IsMachine world.old machine.old.stack }
    requires imports { KnowsImports world.old.names machine.old.code }
    requires goes { GoesOn machine.old.stack }
    requires first { HasRegister machine.old.stack first }
    requires second { HasRegister machine.old.stack second }
    requires to { HasPlaceOf machine.old.stack call.base }
    requires empty { values.old.items ≡ [] }
    ensures makes { OnOk result ((chunk : ChunkOf) (words : List ℕ) (over : ℕ) → insn_at words (place_here machine.old.stack + 1 + over) ≡ Some (call_of call) → Makes (row chunk words (FastCall2 number first over second) next) world.old machine.old.code machine.old.stack world.new machine.new.stack) }
    ensures sound { OnOk result (IsMachine world.new machine.new.stack) }
    ensures goes { OnOk result (GoesOn machine.new.stack) }
    ensures imports { KnowsImports world.new.names machine.old.code }
    ensures uses { UsesStay world.old world.new }
    ensures code { machine.new.code ≡ machine.old.code }
{
    let v = machine.read(world, first);
    let u = machine.read(world, second);
    let done = try_in_place(alloc, machine, world, number, &[v, u], values)?;
    finish(machine, world, done, call, next, values)
}

/// Does a call of two arguments in place, of which the second is a constant, or goes on to it. `values` is empty, and its memory is
/// used.
pub fn fast_call2k(
    alloc: Global,
    machine: &mut Machine,
    world: &mut LibWorld,
    number: u8,
    first: u8,
    constant: Value,
    call: Replaced,
    next: usize,
    values: &mut Vec<Value>,
) -> Result<(), OutOfMemory>
    requires sound { IsMachine world.old machine.old.stack }
    requires imports { KnowsImports world.old.names machine.old.code }
    requires goes { GoesOn machine.old.stack }
    requires first { HasRegister machine.old.stack first }
    requires usable { MayUseIn world.old constant }
    requires to { HasPlaceOf machine.old.stack call.base }
    requires empty { values.old.items ≡ [] }
    ensures makes { OnOk result ((chunk : ChunkOf) (words : List ℕ) (over k : ℕ) → insn_at words (place_here machine.old.stack + 1 + over) ≡ Some (call_of call) → known chunk (proto_here world.old machine.old.code machine.old.stack) (pos k) ≡ Some (meant world.old.names constant) → Makes (row chunk words (FastCall2K number first over k) next) world.old machine.old.code machine.old.stack world.new machine.new.stack) }
    ensures sound { OnOk result (IsMachine world.new machine.new.stack) }
    ensures goes { OnOk result (GoesOn machine.new.stack) }
    ensures imports { KnowsImports world.new.names machine.old.code }
    ensures uses { UsesStay world.old world.new }
    ensures code { machine.new.code ≡ machine.old.code }
{
    let v = machine.read(world, first);
    let done = try_in_place(alloc, machine, world, number, &[v, constant], values)?;
    finish(machine, world, done, call, next, values)
}

// Whether the environment is safe and the library has values for arguments, which are then in `values`.
fn try_in_place(
    alloc: Global,
    machine: &Machine,
    world: &mut LibWorld,
    number: u8,
    args: &[Value],
    values: &mut Vec<Value>,
) -> Result<bool, OutOfMemory>
    requires sound { IsMachine world.old machine.now.stack }
    requires imports { KnowsImports world.old.names machine.now.code }
    requires goes { GoesOn machine.now.stack }
    requires args { AllByRecursion (MayUseIn world.old) args.now }
    requires empty { values.old.items ≡ [] }
    ensures leads { IfOk result (Led world.old world.new machine.now.code machine.now.stack number (map (meant world.old.names) args.now) values.new.items) }
    ensures usable { OnOk result (AllByRecursion (MayUseIn world.new) values.new.items) }
    ensures sound { IsMachine world.new machine.now.stack }
    ensures imports { KnowsImports world.new.names machine.now.code }
    ensures uses { UsesStay world.old world.new }
{
    let env = environment(machine, world);
    if !world.arena.marked(env) {
        return Ok(false);
    }
    try_answer(alloc, number, args, world, values)
}

// Whether the library has values for arguments, which are then in `values`.
fn try_answer(
    alloc: Global,
    number: u8,
    args: &[Value],
    world: &mut LibWorld,
    values: &mut Vec<Value>,
) -> Result<bool, OutOfMemory>
    requires world { IsWorld world.old }
    requires args { AllByRecursion (MayUseIn world.old) args.now }
    requires empty { values.old.items ≡ [] }
    ensures tried { IfOk result (Tried world.old world.new (effects.under effects.numbered number) (map (meant world.old.names) args.now) values.new.items) }
    ensures usable { OnOk result (AllByRecursion (MayUseIn world.new) values.new.items) }
    ensures keeps { Keeps world.old world.new }
{
    let Some(builtin) = numbered(number) else {
        return Ok(false);
    };
    let given = answer(alloc, builtin, args, world, values)?;
    Ok(has_values(given))
}

// Whether these are the values of an answer.
fn has_values(given: LibAnswer) -> bool
    ensures { result ≡ has_values given }
{
    match given {
        LibAnswer::Values => true,
        _ => false,
    }
}

// Does the call with these values, or goes on to it.
fn finish(
    machine: &mut Machine,
    world: &LibWorld,
    done: bool,
    call: Replaced,
    next: usize,
    values: &mut Vec<Value>,
) -> Result<(), OutOfMemory>
    requires sound { IsMachine world.now machine.old.stack }
    requires goes { GoesOn machine.old.stack }
    requires to { HasPlaceOf machine.old.stack call.base }
    requires usable { AllByRecursion (MayUseIn world.now) values.old.items }
    ensures makes { OnOk result (Makes (done_or_on done (call_of call) (map (meant world.now.names) values.old.items) next) world.now machine.old.code machine.old.stack world.now machine.new.stack) }
    ensures sound { OnOk result (IsMachine world.now machine.new.stack) }
    ensures goes { OnOk result (GoesOn machine.new.stack) }
    ensures code { machine.new.code ≡ machine.old.code }
{
    if done {
        return give_list(machine, world, call.base, call.results, call.next, values);
    }
    machine.go(world, next);
    Ok(())
}

// The library function of a number.
fn numbered(number: u8) -> Option<Builtin>
    ensures is { result ≡ effects.under effects.numbered number }
    ensures library { IfSome result (λ b. is_library b ≡ true) }
{
    match number {
        1 => Some(Builtin::Type),
        2 => Some(Builtin::Typeof),
        3 => Some(Builtin::Rawget),
        4 => Some(Builtin::Rawequal),
        5 => Some(Builtin::Rawlen),
        6 => Some(Builtin::MathAbs),
        7 => Some(Builtin::MathCeil),
        8 => Some(Builtin::MathFloor),
        9 => Some(Builtin::MathRound),
        10 => Some(Builtin::MathSign),
        11 => Some(Builtin::MathMax),
        12 => Some(Builtin::MathMin),
        13 => Some(Builtin::MathClamp),
        14 => Some(Builtin::StringByte),
        15 => Some(Builtin::StringChar),
        16 => Some(Builtin::StringLen),
        17 => Some(Builtin::StringSub),
        _ => None,
    }
}
