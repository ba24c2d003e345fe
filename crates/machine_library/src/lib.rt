//! Functions of the library that the machine calls.
#![tactic(auto)]

mod answers;
mod awaiting;
mod calls;
mod fast;
mod homes;
mod next;

pub use calls::{call_library, resume_library};
pub use fast::{Replaced, fast_call, fast_call1, fast_call2, fast_call2k};
pub use homes::is_library;
pub use next::Next;
