//! Types in a text, which are passed over, and the words and symbols that the grammar names.
#![tactic(auto)]

mod balanced;
mod fault;
mod parts;
mod skipping;
mod tokens;
mod words;

pub use fault::Fault;
pub use parts::type_end;
pub use skipping::{TypeErr, one_type, skip_type};
pub use words::{Word, kind_at, stands};
