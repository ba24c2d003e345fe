//! What the machine does now, and what a move of it leads to.

use value_model::{Builtin, RunErr, Value};
use whole_num::Stop;

/// Who calls.
#[derive(Clone, Copy)]
pub enum Caller {
    /// An expression or a generic `for` of a script.
    Script,
    /// A metamethod or a library function.
    Library,
}

/// What is done now. The values that are given, handed on or are arguments are lent beside it.
#[derive(Clone, Copy)]
pub enum Focus {
    /// The function that runs goes on at its place.
    Run,
    /// It does what is left of the instruction there, which has charged a turn.
    Charged,
    /// It is given values.
    GiveAll,
    /// A value is called with values.
    Invoke { by: Caller, callee: Value },
    /// Values are for what waits innermost.
    Hand,
    /// A run error of what ran.
    Fault(RunErr),
    /// A value is raised.
    Raise(Value),
}

/// What a move of the machine leads to.
#[derive(Clone, Copy)]
pub enum Led {
    Goes(Focus),
    /// A turn is charged first.
    Charges(Focus),
    /// The script ends, with the values that are lent.
    Finishes,
    /// The script ends with a raised value.
    Dies(Value),
    Stops(Stop),
    /// Nothing was done yet: values are for a library function that asked for a text.
    Asks,
    /// Nothing was done yet: a library function, which is neither `pcall` nor `xpcall`, is called by a script.
    Library(Builtin),
    /// Nothing is done: the machine has no host functions, and no functions of `coroutine.wrap`.
    Unbuilt { by: Caller, callee: Value },
}
