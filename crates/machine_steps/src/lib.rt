//! One instruction of the machine: the line at the place of the function that runs is read and done.
#![tactic(auto)]

mod calls;
mod cells;
mod comparisons;
mod constant_operators;
mod counts;
mod done;
mod executing;
mod groups;
mod iterations;
mod joins;
mod jumps;
mod laws;
mod lines;
mod loads;
mod operators;
mod reads;
mod still;
mod tables;
mod writes;

pub use done::Done;
pub use executing::execute;
pub use groups::charges;
pub use laws::safe_code_is_ready;
pub use lines::fetch;
