//! Values for the function that runs: it is given those of the call that it waits for.
#![tactic(auto)]

mod giving;
mod kinds;
mod laws;

pub use giving::give;
pub use laws::safe_is_ready;
