//! The whole numbers of the language, from -2^53 to 2^53, their arithmetic, their text, their literals and the texts that are
//! read as numbers.
#![tactic(auto)]

mod arithmetic;
mod literal;
mod mantissa;
mod powers;
mod quotients;
mod reading;
mod text;
mod whole;

pub use arithmetic::Stop;
pub use literal::{Read, read_literal};
pub use reading::{read, read_with_base};
pub use text::print_into;
pub use whole::Whole;
