//! The listing of a chunk: its sizes, constants, children and instructions as text.
#![tactic(auto)]

mod laws;
mod listing;

pub use laws::lists_instructions;
pub use listing::list;
