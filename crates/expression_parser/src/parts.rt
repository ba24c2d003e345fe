//! Parts of a tree, each with its nest, the greatest number of nested nodes on one path in it, and the place behind it.
//! A single node stands in a box: what owns nodes by value is dear to prove.

use byte_text::StrId;
use parse_steps::Level;
use sqlite_items::{Boxed, Items};
use syntax_tree::{Expr, ExprArm, Field, Stat};

/// An expression.
#[derive(Drop)]
pub struct Part {
    pub expr: Boxed<Expr>,
    pub nest: usize,
    pub end: usize,
}

/// Expressions.
#[derive(Drop)]
pub struct Parts {
    pub list: Items<Expr>,
    pub nest: usize,
    pub end: usize,
}

/// The texts and values of an interpolated string behind its first text.
#[derive(Drop)]
pub(crate) struct Pieces {
    pub(crate) texts: Items<StrId>,
    pub(crate) values: Items<Expr>,
    pub(crate) nest: usize,
    pub(crate) end: usize,
}

/// An arm of an `if` expression.
#[derive(Drop)]
pub(crate) struct ArmPart {
    pub(crate) cond: Boxed<Expr>,
    pub(crate) value: Boxed<Expr>,
    pub(crate) nest: usize,
    pub(crate) end: usize,
}

/// The arms of an `if` expression.
#[derive(Drop)]
pub(crate) struct Choices {
    pub(crate) arms: Items<ExprArm>,
    pub(crate) other: Boxed<Expr>,
    pub(crate) nest: usize,
    pub(crate) end: usize,
}

/// What a prefix ends in.
#[derive(Clone, Copy)]
pub enum Ending {
    /// A name or an index.
    Target,
    /// Arguments.
    Call,
    /// A parenthesis.
    Paren,
}

/// A name or a parenthesis with suffixes.
#[derive(Drop)]
pub struct Prefix {
    pub part: Part,
    pub ending: Ending,
}

/// A field of a table.
#[derive(Drop)]
pub(crate) struct FieldPart {
    pub(crate) field: Boxed<Field>,
    pub(crate) nest: usize,
    pub(crate) end: usize,
}

/// The fields of a table, up to its `}`.
#[derive(Drop)]
pub(crate) struct Fields {
    pub(crate) list: Items<Field>,
    pub(crate) nest: usize,
    pub(crate) end: usize,
}

/// Parameters, up to their `)`.
#[derive(Drop)]
pub(crate) struct Parameters {
    pub(crate) names: Items<StrId>,
    pub(crate) vararg: bool,
    pub(crate) end: usize,
}

/// A function behind its name.
#[derive(Drop)]
pub struct Function {
    pub params: Items<StrId>,
    pub vararg: bool,
    pub stats: Items<Stat>,
    pub nest: usize,
    pub end: usize,
}

/// A name with a type or without.
#[derive(Clone, Copy)]
pub struct Bind {
    pub name: StrId,
    pub end: usize,
}

/// Names with commas between.
#[derive(Drop)]
pub struct Binds {
    pub names: Items<StrId>,
    pub end: usize,
}

/// Statements.
#[derive(Drop)]
pub struct Block {
    pub stats: Items<Stat>,
    pub nest: usize,
    pub end: usize,
}

/// What may be read one node further in.
#[derive(Clone, Copy)]
pub enum Wanted {
    Level(Level),
    /// What an operator before one operand takes.
    Unary,
    /// A table, at its `{`.
    Table,
    /// Expressions with commas between.
    List,
    Block,
}

/// What was read there.
#[derive(Drop)]
pub enum Found {
    Part(Part),
    Parts(Parts),
    Block(Block),
}
