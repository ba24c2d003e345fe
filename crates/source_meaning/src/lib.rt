//! What a script does: its meaning by steps over its tree, for every kind of node; and the law that a run has at most one report.
#![tactic(auto)]

mod laws;

pub use laws::one_report;
