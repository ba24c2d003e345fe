//! The code of the function that runs: its line, and its constants.

ghost use Rattle.std.specs.Prelude.{◌≡◌, ℕ, ◌<◌, ◌^◌, pos, true, length, Some, IsSomeAnd, slice_get};
ghost use Rattle.op_words.specs.Chunks.{ChunkOf, ProtoOf};
ghost use Rattle.value_model.specs.Parts.{meant};
ghost use Rattle.luau_tables.specs.Worlds.{MayUseIn};
ghost use Rattle.machine_meaning.specs.Chunks.{proto_at};
ghost use Rattle.machine_meaning.specs.Constants.{known};
ghost use Rattle.machine_meaning.specs.Needs.{Want};
ghost use Rattle.checked_runs.specs.Operands.{IsConstant};
ghost use Rattle.machine_code.specs.Code.{IsCodeOf};
ghost use Rattle.machine_world.specs.Rows.{proto_here};
ghost use Rattle.machine_world.specs.Sound.{IsMachine, HasRegister, Runs};
ghost use Rattle.machine_steps.specs.Ready.{function_here, HasConstant, HasLine, IsIndex, is_value, line_here};

use luau_tables::LibWorld;
use machine_world::{Function, Line, Machine};
use value_model::Value;

// The number of the function that runs.
fn number(machine: &Machine, world: &LibWorld) -> usize
    requires sound { IsMachine world.now machine.now.stack }
    requires runs { Runs machine.now.stack }
    ensures { result ≡ proto_here world.now machine.now.code machine.now.stack }
{
    let Some(frame) = machine.stack.frame() else {
        unreachable!()
    };
    let Some(id) = frame.closure else {
        unreachable!()
    };
    let closure = world.arena.closure(id);
    closure.proto
}

// The code of the function that runs.
fn function<'a>(machine: &'a Machine, world: &LibWorld) -> &'a Function
    requires sound { IsMachine world.now machine.now.stack }
    requires runs { Runs machine.now.stack }
    requires there { IsSomeAnd (function_here world.now machine.now.code machine.now.stack) (λ f. Unit {0}) }
    ensures { function_here world.now machine.now.code machine.now.stack ≡ Some result.now }
{
    machine.code.function(number(machine, world))
}

/// The instruction at which the function that runs stands.
pub fn fetch(machine: &Machine, world: &LibWorld) -> Line
    requires sound { IsMachine world.now machine.now.stack }
    requires runs { Runs machine.now.stack }
    requires there { HasLine world.now machine.now.code machine.now.stack }
    ensures line { line_here world.now machine.now.code machine.now.stack ≡ Some result }
    ensures small { IsSomeAnd (function_here world.now machine.now.code machine.now.stack) (λ f. length f.lines < 2 ^ 64) }
{
    let function = function(machine, world);
    let _count = function.lines.len();
    function.line(machine.place())
}

/// A constant of the function that runs.
pub(crate) fn constant(machine: &Machine, world: &LibWorld, index: usize) -> Value
    requires sound { IsMachine world.now machine.now.stack }
    requires runs { Runs machine.now.stack }
    requires has { HasConstant world.now.names (function_here world.now machine.now.code machine.now.stack) (pos index) }
    ensures known { (chunk : ChunkOf) (p : ProtoOf) (w : Want) → IsCodeOf chunk world.now.names machine.now.code → proto_at chunk (proto_here world.now machine.now.code machine.now.stack) ≡ Some p → IsConstant chunk (proto_here world.now machine.now.code machine.now.stack) (pos index) w → is_value w ≡ true → known chunk (proto_here world.now machine.now.code machine.now.stack) (pos index) ≡ Some (meant world.now.names result) }
    ensures usable { MayUseIn world.now result }
{
    function(machine, world).constant(index)
}

/// The index that a short word is.
pub(crate) fn index(constant: i16) -> usize
    requires { IsIndex constant }
    ensures { pos result ≡ constant }
{
    match usize::try_from(constant) {
        Ok(index) => index,
        Err(_) => unreachable!(),
    }
}

/// A register of the function that runs, as a byte.
pub(crate) fn register(machine: &Machine, register: u32) -> u8
    requires { HasRegister machine.now.stack register }
    ensures { result ≡ register }
{
    let Some(frame) = machine.stack.frame() else {
        unreachable!()
    };
    narrow(register, frame.registers)
}

// One of so many registers, as a byte.
fn narrow(register: u32, registers: u8) -> u8
    requires { register < registers }
    ensures { result ≡ register }
{
    register as u8
}
