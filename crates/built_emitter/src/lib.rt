//! The compiler, from the tree to words.
#![tactic(auto)]

mod bound;
mod draft;
mod laws;
mod scope;
mod script;
mod statements;
mod unbuilt;
mod values;

pub use laws::has_report;
pub use script::compile;
pub use unbuilt::first_unbuilt;
