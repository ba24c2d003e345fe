//! How a script is read, token by token: what stands at a place, and the grammar as a machine with a stack.
#![tactic(auto)]

mod classes;
mod laws;
mod levels;
mod operators;

pub use classes::{
    Arguments, Beginning, Opening, Suffix, arguments_at, beginning_at, end_at, middle_at, name_at,
    opening_at, suffix_at,
};
pub use laws::{
    calls_are_asked, calls_can_open, depth_is_counted, runs_are_shallow, runs_have_one_end,
    trees_run,
};
pub use levels::{Level, Rank, next_level};
pub use operators::{compound_at, operator_at, unary_at};
