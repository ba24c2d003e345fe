//! What code does: the meaning of every instruction on registers, cells, tables and what waits; which chunks are well formed; and
//! the law that a run has at most one report.
#![tactic(auto)]

mod laws;

pub use laws::one_report;
