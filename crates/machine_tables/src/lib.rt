//! Tables that code makes, and the lists of values that it stores in them, each as the machine's row of it.
#![tactic(auto)]

mod listing;
mod making;

pub use listing::set_list;
pub use making::new_table;
