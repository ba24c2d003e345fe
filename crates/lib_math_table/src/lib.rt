//! The functions of `math` and of `table`.
#![tactic(auto)]

mod calls;
mod cloning;
mod edits;
mod joining;
mod making;
mod math;
mod moving;
mod ordering;
mod search;
mod tables;
mod unpacking;

pub use calls::call;
