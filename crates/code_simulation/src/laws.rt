//! Laws on which both runs rest.

ghost use Rattle.code_simulation.specs.Laws.{OperationsKeepCoroutines, LibraryKeepsCoroutines};

/// No operation on values touches a coroutine: the same one runs behind it, and all are as they were.
pub fn operations_keep_coroutines()
    ensures { OperationsKeepCoroutines }
{}

/// Where a library function has values at once, the same coroutine runs as before, and all are as they were, but that new ones may stand behind them.
pub fn library_keeps_coroutines()
    ensures { LibraryKeepsCoroutines }
{}
