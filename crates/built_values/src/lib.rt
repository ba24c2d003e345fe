//! The values of the scripts that are built so far, how a run of them ends, and runs with a bound on their turns.
#![tactic(auto)]

mod end;
mod names;
mod value;

pub use end::End;
pub use names::fixed_name;
pub use value::Value;
