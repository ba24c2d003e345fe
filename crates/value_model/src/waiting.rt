//! What is left to do of a library function that has called another function.

use crate::builtin::Builtin;
use crate::value::Value;
use byte_text::Bytes;

/// What a library function has left to do, after a call that it made for the text of one of its arguments.
#[derive(Debug, Drop)]
pub struct Continue {
    pub builtin: Builtin,
    /// The function's arguments.
    pub args: Vec<Value>,
    /// The place, from 0, of the argument whose text was asked for.
    pub at: usize,
    /// The text that was made before the text of that argument.
    pub text: Bytes,
}
