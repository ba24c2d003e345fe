//! What the machine does next.

use byte_text::Bytes;
use value_model::{RunErr, Value};
use whole_num::Stop;

/// What the machine does next, once the library has answered a call.
#[derive(Debug, Drop)]
pub enum Next {
    /// The function that waits is given the values.
    Gives,
    /// A line is printed, and the function that waits is given no values.
    Prints(Bytes),
    /// A run error.
    Fails(RunErr),
    /// A value is raised.
    Raises(Value),
    /// The script stops.
    Stops(Stop),
    /// The library calls a value, and waits for what that gives.
    Calls { callee: Value, args: Vec<Value> },
}
