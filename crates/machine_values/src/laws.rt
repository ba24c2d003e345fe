//! Laws of functions that are given values.

ghost use Rattle.machine_values.specs.Laws.{SafeIsReady};

/// In a safe state the function that is to be given values has all that it needs.
pub fn safe_is_ready()
    ensures { SafeIsReady }
{}
