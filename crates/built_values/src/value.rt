//! Values.

use whole_num::Whole;

/// What an expression gives, and a local holds.
#[derive(Clone, Copy)]
pub enum Value {
    Nil,
    Boolean(bool),
    Number(Whole),
    /// The library function `print`.
    Print,
}
