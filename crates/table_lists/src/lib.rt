//! Tables as lists: elements read, written and moved.
#![tactic(auto)]

mod copy;
mod element;
mod range;
mod search;
mod shift;

pub use copy::{clear, entries, put_entries};
pub use element::{count_between, end_of, is_nil, put};
pub use range::{fill, items, put_all, put_all_and};
pub use search::find;
pub use shift::{insert, remove};
