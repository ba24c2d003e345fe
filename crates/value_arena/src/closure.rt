//! Functions of scripts, and coroutines.

use sqlite_items::Items;
use value_model::{CellId, CoStatus, TableId, ThreadId, Value};

/// A Luau function, with what it captured.
#[derive(Debug, Drop)]
pub struct Closure {
    /// The number of its code.
    pub proto: usize,
    /// The table of its globals.
    pub env: TableId,
    /// What it captured, in order.
    pub cells: Items<CellId>,
}

/// A coroutine.
#[derive(Clone, Copy, PartialEq, Eq, Debug)]
pub struct Thread {
    /// The function that it runs, nil once that was begun.
    pub body: Value,
    pub state: CoStatus,
    /// Who has resumed it; none where that is the script's main thread, or nobody.
    pub resumer: Option<ThreadId>,
    /// The value that it died of, where an error passed its end.
    pub failure: Option<Value>,
}
