//! What is called where a value is.

ghost use Rattle.std.specs.Prelude.{◌≡◌};
ghost use Rattle.luau_tables.specs.Own.{IsThere, MayUse};
ghost use Rattle.meta_ops.specs.OnIds as kept;
ghost use Rattle.meta_ops.specs.Outcomes.{Chooses};
ghost use Rattle.value_arena.specs.Arenas.{HasTable};
ghost use Rattle.value_arena.specs.Owning.{IsOwned};
ghost use Rattle.value_model.specs.Choices.{Callee};
ghost use Rattle.value_model.specs.Parts.{meant};

use crate::metamethod::{is_function, kind_of, metamethod};
use crate::outcome::{Outcome, call_one};
use luau_tables::Globals;
use value_arena::Arena;
use value_model::{RunErr, Value};

/// What is called where a value is: the value itself where it is a function, or its `__call`, which has to be a function and gets
/// the value before the arguments.
pub fn call_target(arena: &Arena, globals: &Globals, f: Value) -> Outcome
    requires owned { IsOwned arena.now }
    requires strings { HasTable arena.now globals.now.string_meta }
    requires there { IsThere arena.now f }
    // In the part of each script that may use the value, the outcome is that of the definition.
    ensures { Chooses globals.now arena.now (λ texts w. MayUse texts arena.now w f) (λ texts. Callee (meant texts f)) result 0 }
{
    let value = &f;
    target_of(arena, globals, value)
}

// The same.
fn target_of(arena: &Arena, globals: &Globals, f: &Value) -> Outcome
    requires owned { IsOwned arena.now }
    requires strings { HasTable arena.now globals.now.string_meta }
    requires there { IsThere arena.now f.now }
    ensures { result ≡ kept.callee_of arena.now globals.now f.now }
{
    if is_function(f) {
        return Outcome::Done(*f);
    }
    let handler = metamethod(arena, globals, f, globals.meta.call);
    if is_function(&handler) {
        call_one(&handler, f)
    } else {
        Outcome::RunError(RunErr::CallOf { callee: kind_of(f) })
    }
}
