//! How a generic loop begins, as the machine's row of it.
#![tactic(auto)]

mod beginning;
mod iterating;

pub use beginning::begin_loop;
