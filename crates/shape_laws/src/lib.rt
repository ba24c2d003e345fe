//! Laws of the shape of emitted code.
#![tactic(auto)]

mod laws;

pub use laws::code_shapes;
