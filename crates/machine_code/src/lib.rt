//! Decoded code, fit for the machine: what a checked chunk is decoded to, and what it gives at each place.
#![tactic(auto)]

mod code;
mod constants;
mod decoding;
mod laws;
mod lines;
mod strings;

pub use code::{Code, Function, Line};
pub use decoding::{decode, function};
pub use laws::{
    constants_are_known, growth_keeps_code, imports_keep_code, lines_are_fetched, lines_are_rows,
};
pub use strings::numbers;
