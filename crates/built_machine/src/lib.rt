//! What code does: the meaning of its instructions on registers, and the laws that a run has a report for
//! each bound on its turns, and one only.
#![tactic(auto)]

mod code;
mod laws;

pub use code::{Code, Constant};
pub use laws::{has_report, one_report};
