//! Laws of the runs of well-formed code.

ghost use Rattle.checked_runs.specs.Laws.{CodeIsNeverStuck, LoadedIsSafe, OperandsAreThere, ReachedIsSafe, StepsStaySafe};
ghost use Rattle.checked_runs.specs.Keeps.{LibraryKeeps, OperationsKeep};

/// Well-formed code is loaded into a safe state.
pub fn loaded_is_safe()
    ensures { LoadedIsSafe }
{}

/// From a safe state well-formed code has a rule for what it does, and it leads to a safe state.
pub fn steps_stay_safe()
    ensures { StepsStaySafe }
{}

/// A run of well-formed code never ends for lack of a rule, whatever the bound on its turns.
pub fn code_is_never_stuck()
    ensures { CodeIsNeverStuck }
{}

/// Each state that a run of well-formed code comes to is safe.
pub fn reached_is_safe()
    ensures { ReachedIsSafe }
{}

/// Where the innermost function of a safe state is at its instruction there is one, and all that it names is there.
pub fn operands_are_there()
    ensures { OperandsAreThere }
{}

/// An operation on values makes no function, and leaves functions and coroutines as they were.
pub fn operations_keep()
    ensures { OperationsKeep }
{}

/// The library makes no function, and names no coroutine but those that it was given, has made or runs in.
pub fn library_keeps()
    ensures { LibraryKeeps }
{}
