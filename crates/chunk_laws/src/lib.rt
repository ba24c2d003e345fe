//! Laws of compiled chunks.
#![tactic(auto)]

mod laws;

pub use laws::functions_well_formed;
