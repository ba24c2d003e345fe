//! A checked chunk is loaded: the machine of a script as it stands before its first instruction.
#![tactic(auto)]

mod beginning;
mod imports;
mod loading;

pub use loading::load;
