//! Which calls charge a turn.

ghost use Rattle.std.specs.Prelude.{◌≡◌};
ghost use Rattle.machine_calls.specs.Charging.{charges_call};

use crate::calling::{Called, called_as};
use crate::focus::Caller;
use value_model::Value;

/// Whether a call charges a turn before it does anything else: that of a Luau function, and of another function that the library calls.
/// What a library or host function that a script calls charges is its own matter, and that of a function of `coroutine.wrap` too.
pub fn charges_call(by: Caller, callee: &Value) -> bool
    ensures { result ≡ charges_call by callee.now }
{
    match called_as(callee) {
        Called::Luau(_) => true,
        Called::Native(_) => matches!(by, Caller::Library),
        Called::Host => matches!(by, Caller::Library),
        Called::Wrap => false,
        Called::Other => false,
    }
}
