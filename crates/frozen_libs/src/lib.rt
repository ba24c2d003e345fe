//! The tables that all scripts share: the library, and what a host gives.
#![tactic(auto)]

mod building;
mod error;
mod functions;
mod making;
mod names;
mod placing;
mod standard;

pub use building::build;
pub use error::HostErr;
