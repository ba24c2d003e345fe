//! The compiler, from the tree to code with labels.
#![tactic(auto)]

mod nodes;

pub use nodes::emit_script;
