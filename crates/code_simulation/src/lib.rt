//! How a script's run and that of its code go along together, node by node: the relation between the two, and a lemma for each kind of
//! node, whatever the exact form of the code.
#![tactic(auto)]

mod laws;

pub use laws::{library_keeps_coroutines, operations_keep_coroutines};
