//! The tests of `meta_ops`, and the world that they operate in.
#![tactic(auto)]

#[cfg(test)]
mod tests;
mod world;

pub use world::{Expected, Operand, World};
