//! The machine: code runs from its first word, with a bound on its turns.
#![tactic(auto)]

mod instructions;
mod machine;
mod operations;
mod running;

pub use running::{Ran, run};
