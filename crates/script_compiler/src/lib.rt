//! The compiler of whole scripts: from a tree and its bindings to a chunk.
#![tactic(auto)]

mod compiler;
mod prototypes;
mod texts;

pub use compiler::compile;
