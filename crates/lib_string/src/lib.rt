//! The string functions of the library.
#![tactic(auto)]

mod argument_text;
mod arguments;
mod asking;
mod calls;
mod characters;
mod directive;
mod filling;
mod format;
mod giving;
mod positions;
mod repetition;
mod split;
mod whole;

pub use calls::{call, go_on};
