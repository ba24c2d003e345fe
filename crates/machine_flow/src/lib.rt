//! What the machine does with values that come to it: results of calls, answers of metamethods, variable arguments; and its loops.
#![tactic(auto)]

mod answers;
mod counts;
mod going;
mod lists;
mod registers;
mod turns;

pub use answers::{take_answer, take_nothing, take_test};
pub use counts::{Failure, begin_count, next_count};
pub use lists::{get_varargs, give_list, take_results};
pub use turns::{ask, take_begin, take_turn};
