//! The checker of chunks: which chunks are well formed, and where the first broken rule of the others is.
#![tactic(auto)]

mod checked;
mod checking;
mod constants;
mod error;
mod faults;
mod layout;
mod lines;
mod needs;
mod neighbours;
mod registers;
mod rules;

pub use checked::Checked;
pub use checking::check;
pub use error::CheckErr;
