//! What closures capture, as the machine's definition has it.
#![tactic(auto)]

mod capturing;

pub use capturing::capture;
