//! Laws of the upvalues of emitted code.
#![tactic(auto)]

mod laws;

pub use laws::{upvalues_are_few, upvalues_fit};
