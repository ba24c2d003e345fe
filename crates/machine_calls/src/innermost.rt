//! What waits innermost.

ghost use Rattle.std.specs.Prelude.{◌≡◌, None};
ghost use Rattle.machine_calls.specs.Waiting.{IsInnermost, frame_waits, guarded, waits_innermost};
ghost use Rattle.machine_world.specs.Sound.{IsMachine};

use call_frames::{Frame, ReturnKind};
use luau_tables::LibWorld;
use machine_world::Machine;
use value_model::Value;

/// What waits innermost.
#[derive(Clone, Copy)]
pub enum Innermost {
    Nothing,
    /// A Luau function.
    Function,
    /// `pcall`.
    Protected,
    /// `xpcall`, with its handler.
    Guarded(Value),
    /// The handler of `xpcall`.
    Handler,
    /// A library function that asked for a text.
    Asker,
}

/// What waits innermost.
pub fn what_waits(machine: &Machine, world: &LibWorld) -> Innermost
    requires { IsMachine world.now machine.now.stack }
    ensures { IsInnermost machine.now.stack result }
{
    read(machine)
}

fn read(machine: &Machine) -> Innermost
    ensures { result ≡ waits_innermost machine.now.stack }
{
    match machine.stack.frame() {
        Some(frame) => of_frame(frame),
        None => Innermost::Nothing,
    }
}

// What waits in a frame.
fn of_frame(frame: &Frame) -> Innermost
    ensures { result ≡ frame_waits frame.now.closure frame.now.kind }
{
    match frame.closure {
        Some(_) => Innermost::Function,
        None => of_kind(&frame.kind),
    }
}

// How a library function waits.
fn of_kind(kind: &ReturnKind) -> Innermost
    ensures { result ≡ frame_waits None kind.now }
{
    match kind {
        ReturnKind::Protected { handler } => guarded(*handler),
        ReturnKind::Handler => Innermost::Handler,
        _ => Innermost::Asker,
    }
}

// By the handler.
fn guarded(handler: Option<Value>) -> Innermost
    ensures { result ≡ guarded handler }
{
    match handler {
        Some(h) => Innermost::Guarded(h),
        None => Innermost::Protected,
    }
}
