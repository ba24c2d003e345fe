//! What every layer runs short of or counts: memory, faults of the outside, and steps.
#![tactic(auto)]

mod memory;
mod steps;

pub use memory::OutOfMemory;
pub use steps::Steps;
