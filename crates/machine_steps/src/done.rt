//! What the machine does once an instruction was read and done.

use machine_rows::Next;
use value_model::Value;

/// What the machine does next, once an instruction was done.
#[derive(Clone, Copy)]
pub enum Done {
    /// What follows an operation on values, or that the function that runs goes on.
    Next(Next),
    /// This is called with the values in hand.
    Invokes(Value),
    /// The function that ran was left, with the values in hand.
    Hands,
    /// The instruction is not built, and nothing was done.
    NotBuilt,
}
