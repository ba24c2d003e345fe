//! Laws of the code of a script that runs.

ghost use Rattle.machine_steps.specs.Laws.{SafeCodeIsReady};

/// Where a script's running state means a safe state of well-formed code, its function is at a line which finds all that it needs.
pub fn safe_code_is_ready()
    ensures { SafeCodeIsReady }
{}
