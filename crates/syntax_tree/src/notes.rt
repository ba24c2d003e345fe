//! What is said of the nodes and places of a tree, to find what its names are bound to and which rules it breaks.

use crate::bindings::Bound;
use byte_text::StrId;
use sqlite_items::Items;

/// What is said of one node.
#[derive(Drop)]
pub struct Note {
    /// The place of the node.
    pub at: usize,
    /// What a name expression is bound to, and nothing at every other node.
    pub bound: Option<Bound>,
    /// Whether the node is a name that an assignment sets.
    pub target: bool,
    /// How many locals the text declares before the node.
    pub first: usize,
    /// The variables that a function body captures, by the numbers of their locals, and none at every other node.
    pub upvalues: Items<usize>,
}

/// A name by which a function captures a variable.
#[derive(Clone, Copy, PartialEq, Eq, Hash, Debug)]
pub struct Capture {
    /// The place of the name.
    pub at: usize,
    /// The number of the variable's local.
    pub local: usize,
}

/// A name that is visible, and the number of its local.
#[derive(Clone, Copy, PartialEq, Eq, Hash, Debug)]
pub struct Visible {
    pub name: StrId,
    pub local: usize,
}

/// A `continue`, and how many locals the text declares before it.
#[derive(Clone, Copy, PartialEq, Eq, Hash, Debug)]
pub struct Leap {
    pub at: usize,
    pub before: usize,
}

/// A place in a function.
#[derive(Clone, Copy, PartialEq, Eq, Hash, Debug)]
pub struct Place {
    /// Whether a loop of the function is around it.
    pub in_loop: bool,
    /// Whether the function takes any number of arguments.
    pub vararg: bool,
    /// How many of the function's parameters and locals are live.
    pub live: usize,
}
