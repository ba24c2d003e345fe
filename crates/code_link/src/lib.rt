//! Code with labels is linked: each jump is given the distance to its label.
#![tactic(auto)]

mod item;
mod linking;

pub use item::{Item, Labelled, Linked};
pub use linking::link;
