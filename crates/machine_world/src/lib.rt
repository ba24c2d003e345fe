//! The running state of a script: its stack and its decoded code, beside the objects; and what it means.
#![tactic(auto)]

mod jumps;
mod loads;
mod machine;
mod rows;

pub use jumps::{agrees, back};
pub use machine::Machine;
pub use machine_code::{Code, Function, Line};
