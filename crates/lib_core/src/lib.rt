//! The functions of the global table.
#![tactic(auto)]

mod calls;
mod going;
mod kinds;
mod metatable;
mod raise;
mod raw;
mod select;
mod texts;
mod walk;

pub use calls::call;
pub use going::go_on;
