//! What comes of a call of a library function.

use byte_text::Bytes;
use value_model::{Continue, RunErr, Value};
use whole_num::Stop;

/// What comes of a call of a library function.
#[derive(Debug, Drop)]
pub enum LibAnswer {
    /// The function gives the values that were appended to `results`.
    Values,
    /// The line of a `print`, which gives no values.
    Print(Bytes),
    RunError(RunErr),
    /// The value is raised.
    Raise(Value),
    /// The script stops.
    Stop(Stop),
    /// A value is to be called; with the first value that the call gives, `go_on` goes on.
    CallBack {
        callee: Value,
        args: Vec<Value>,
        then: Continue,
    },
}
