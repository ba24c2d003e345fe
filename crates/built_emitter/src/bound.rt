//! What the bindings say of a node.

ghost use Rattle.std.specs.Prelude.{◌≡◌};
ghost use Rattle.built_emitter.specs.Standing.{bound_at, first_at};

use syntax_tree::{Bindings, Bound};

/// What the node with that number is bound to, where it is a name.
pub fn bound_at(bindings: &Bindings, number: usize) -> Option<Bound>
    ensures { result ≡ bound_at bindings.now number }
{
    match bindings.names.get(number) {
        Some(bound) => *bound,
        None => None,
    }
}

/// The number of the first local that the node with that number declares.
pub fn first_at(bindings: &Bindings, number: usize) -> usize
    ensures { result ≡ first_at bindings.now number }
{
    match bindings.firsts.get(number) {
        Some(first) => *first,
        None => 0,
    }
}
