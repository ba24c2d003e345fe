//! Laws of linking: the code of each function of a script can be linked.
#![tactic(auto)]

mod laws;

pub use laws::code_links;
