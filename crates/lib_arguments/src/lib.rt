//! The arguments of library functions, what metatables say of them, and how the functions end.
#![tactic(auto)]

mod argument;
mod ending;
mod giving;
mod metatables;
mod number;
mod text;

pub use argument::{
    any_at, argument_at, argument_or_nil, invalid, out_of_range, table_at, table_from, wanted,
};
pub use ending::{Ending, answer};
pub use giving::{give, give_all, give_count, give_text};
pub use metatables::{metatable, said_by, tostring_of};
pub use number::{as_number, number_at, number_from, number_or};
pub use text::{text_at, text_from, text_or, text_value};
