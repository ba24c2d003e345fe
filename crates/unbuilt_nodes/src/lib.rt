//! Which node of a script is not built.
#![tactic(auto)]

mod search;

pub use search::first_unbuilt;
