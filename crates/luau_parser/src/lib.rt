//! The parser.
#![tactic(auto)]

mod assignments;
mod blocks;
mod error;
mod laws;
mod nodes;
mod parts;
mod reading;
mod rules;
mod scripts;
mod statements;

pub use error::ParseErr;
pub use laws::{example_refusals, example_trees, one_tree, trees_are_proper};
pub use scripts::parse;
