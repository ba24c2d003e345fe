//! What the runs of a script have to do with those of its chunk.
#![tactic(auto)]

mod laws;

pub use laws::{built_run_alike, never_stuck, parsed_accepted, scripts_run_alike};
