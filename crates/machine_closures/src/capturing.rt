//! One capture.

ghost use Rattle.std.specs.Prelude.{◌≡◌, IfOk};
ghost use Rattle.machine_world.specs.Sound.{IsMachine, HasRegister, Runs};
ghost use Rattle.machine_closures.specs.Captures.{Captured, MayCapture, size_here, upvalues_here};

use luau_tables::LibWorld;
use machine_world::Machine;
use resource::OutOfMemory;
use value_model::CellId;

/// The cell that a closure captures: at kind 0 a new one with the value of a register, at 1 that of the register, at 2 that of an upvalue.
pub fn capture(
    machine: &mut Machine,
    world: &mut LibWorld,
    kind: u8,
    from: u8,
) -> Result<CellId, OutOfMemory>
    requires sound { IsMachine world.old machine.old.stack }
    requires runs { Runs machine.old.stack }
    requires may { MayCapture (size_here world.old machine.old.code machine.old.stack) (upvalues_here world.old machine.old.code machine.old.stack) kind from }
    ensures captured { IfOk result (λ c. Captured world.old machine.old.code machine.old.stack kind from world.new machine.new.stack c) }
    ensures code { machine.new.code ≡ machine.old.code }
{
    if kind == 0 {
        return copy(machine, world, from);
    }
    if kind == 1 {
        return machine.capture(world, from);
    }
    Ok(machine.upvalue_cell(world, from))
}

// A new cell with the value of a register.
fn copy(machine: &Machine, world: &mut LibWorld, from: u8) -> Result<CellId, OutOfMemory>
    requires sound { IsMachine world.old machine.now.stack }
    requires has { HasRegister machine.now.stack from }
    ensures captured { IfOk result (λ c. Captured world.old machine.now.code machine.now.stack 0 from world.new machine.now.stack c) }
{
    let v = machine.read(world, from);
    let cell = world.arena.new_cell(world.owner, v)?;
    Ok(cell)
}
