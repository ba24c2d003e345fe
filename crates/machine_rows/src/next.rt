//! What the machine does next.

use value_model::{RunErr, Value};
use whole_num::Stop;

/// What the machine does next, once an instruction has asked for an operation on values.
#[derive(Clone, Copy)]
pub enum Next {
    /// The function that runs goes on.
    Continues,
    /// It waits for this value.
    Gives(Value),
    /// It waits for what the callee gives for the first `count` of these arguments.
    Calls {
        callee: Value,
        args: [Value; 3],
        count: u8,
    },
    /// A run error of the function that runs.
    Fails(RunErr),
    /// The script stops.
    Stops(Stop),
}
