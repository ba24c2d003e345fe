//! The stack of a coroutine: its registers, its frames, and the cells that are open in it; and the laws of these.
#![tactic(auto)]

mod frame;
mod laws;
mod stack;

pub use frame::{Frame, ReturnKind};
pub use laws::{
    closing_keeps_upvalues, entering_keeps_registers, outer_frames_stay, unwinding_keeps_upvalues,
};
pub use stack::Stack;
