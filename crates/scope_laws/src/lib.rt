//! What is in scope at each place of a script, and the law that each name is bound to what is in scope there.
#![tactic(auto)]

mod laws;

pub use laws::{
    declared_have_entries, functions_capture, locals_are_told, names_are_seen, names_in_scope,
    nodes_have_firsts,
};
