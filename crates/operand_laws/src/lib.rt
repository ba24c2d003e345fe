//! Laws of the operands of emitted code.
#![tactic(auto)]

mod laws;

pub use laws::operands_fit;
