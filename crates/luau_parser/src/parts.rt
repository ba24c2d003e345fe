//! Parts of a block, each with its nest, the greatest number of nested nodes on one path in it, and the place behind it.
//! A single node stands in a box.

use byte_text::StrId;
use sqlite_items::{Boxed, Items};
use syntax_tree::{Arm, Expr, Stat};

/// A statement.
#[derive(Drop)]
pub(crate) struct Statement {
    pub(crate) stat: Boxed<Stat>,
    pub(crate) nest: usize,
    pub(crate) end: usize,
}

/// What a block goes on with.
#[derive(Drop)]
pub(crate) enum Step {
    /// Nothing more.
    Ends,
    /// A definition of a type, up to this place.
    Types(usize),
    /// A statement, with the `;` behind it if one stands there.
    Stat(Statement),
    /// The statement that ends the block, likewise.
    Last(Statement),
}

/// The name of a function, with the parameter that the name of a method adds.
#[derive(Drop)]
pub(crate) struct FunctionName {
    pub(crate) expr: Boxed<Expr>,
    pub(crate) added: Items<StrId>,
    pub(crate) nest: usize,
    pub(crate) end: usize,
}

/// The arms of an `if`, up to its `end`.
#[derive(Drop)]
pub(crate) struct Arms {
    pub(crate) arms: Items<Arm>,
    pub(crate) other: Option<Items<Stat>>,
    pub(crate) nest: usize,
    pub(crate) end: usize,
}

/// A condition and the block behind its `then`.
#[derive(Drop)]
pub(crate) struct Guarded {
    pub(crate) cond: Boxed<Expr>,
    pub(crate) body: Items<Stat>,
    pub(crate) nest: usize,
    pub(crate) end: usize,
}

/// What is behind the last condition of an `if` and its block, up to its `end`.
#[derive(Drop)]
pub(crate) struct Otherwise {
    pub(crate) other: Option<Items<Stat>>,
    pub(crate) nest: usize,
    pub(crate) end: usize,
}

/// The numbers of a numeric `for`.
#[derive(Drop)]
pub(crate) struct Limits {
    pub(crate) start: Boxed<Expr>,
    pub(crate) limit: Boxed<Expr>,
    pub(crate) step: Option<Boxed<Expr>>,
    pub(crate) nest: usize,
    pub(crate) end: usize,
}

/// A numeric `for` behind its `=`.
#[derive(Drop)]
pub(crate) struct Count {
    pub(crate) start: Boxed<Expr>,
    pub(crate) limit: Boxed<Expr>,
    pub(crate) step: Option<Boxed<Expr>>,
    pub(crate) body: Items<Stat>,
    pub(crate) nest: usize,
    pub(crate) end: usize,
}

/// A generic `for` behind its `in`.
#[derive(Drop)]
pub(crate) struct Walk {
    pub(crate) values: Items<Expr>,
    pub(crate) body: Items<Stat>,
    pub(crate) nest: usize,
    pub(crate) end: usize,
}
