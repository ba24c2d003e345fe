//! A law of scripts none of whose nodes is unbuilt.
#![tactic(auto)]

mod laws;

pub use laws::built_scripts;
