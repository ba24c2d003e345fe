//! Laws of the registers of functions.
#![tactic(auto)]

mod laws;

pub use laws::registers_found;
