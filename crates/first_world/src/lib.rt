//! A world in which a script may start, for the tests of the library.
#![tactic(auto)]

mod names;
mod world;

pub use names::meta_names;
pub use world::{add_table, first_world};
