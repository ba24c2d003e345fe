//! How a run ends.

use whole_num::Stop;

/// How the run of a script ends.
#[derive(Clone, Copy)]
pub enum End {
    /// By itself.
    Ended,
    /// At an operation without a result.
    Stopped(Stop),
    /// Its turns are spent, and it would spend one more.
    Unfinished,
    /// There is no rule for what it would do, which no accepted script comes to.
    Stuck,
}
