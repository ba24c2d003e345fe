//! The types of the tree.
//!
//! Lists and boxes are those of `sqlite_items`, so that a contract sees a tree as plain data.
//! Each `at` is the byte offset of the construct's first byte, and each `line` the line of it, from 1.
//! Each `id` numbers the node from 0, a node before its parts and these in the order of their fields.

use byte_text::StrId;
use sqlite_items::{Boxed, Items};
use whole_num::Whole;

/// An operator before one operand.
#[derive(Clone, Copy, PartialEq, Eq, Hash, Debug)]
pub enum UnOp {
    Not,
    Len,
    Minus,
}

/// An operator between two operands. `Concat` stands in a compound assignment alone.
#[derive(Clone, Copy, PartialEq, Eq, Hash, Debug)]
pub enum BinOp {
    Or,
    And,
    Lt,
    Gt,
    Le,
    Ge,
    Ne,
    Eq,
    Concat,
    Add,
    Sub,
    Mul,
    Div,
    Idiv,
    Mod,
    Pow,
}

/// A whole script: its main function, and how many nodes it has.
#[derive(Drop)]
pub struct Tree {
    pub main: FuncBody,
    pub nodes: usize,
}

/// A function: its parameters and its block. The main function's place is 0 and its line 1.
#[cycle(tree)]
#[derive(Drop)]
pub struct FuncBody {
    pub id: usize,
    pub at: usize,
    pub line: usize,
    pub params: Items<StrId>,
    pub vararg: bool,
    pub body: Items<Stat>,
}

/// A statement.
#[cycle(tree)]
#[derive(Drop)]
pub struct Stat {
    pub id: usize,
    pub at: usize,
    pub line: usize,
    pub kind: StatKind,
}

/// What a statement is.
#[cycle(tree)]
#[derive(Drop)]
pub enum StatKind {
    Local {
        names: Items<StrId>,
        values: Items<Expr>,
    },
    Assign {
        targets: Items<Expr>,
        values: Items<Expr>,
    },
    Compound {
        op: BinOp,
        target: Boxed<Expr>,
        value: Boxed<Expr>,
    },
    Call(Expr),
    Do(Items<Stat>),
    While {
        cond: Boxed<Expr>,
        body: Items<Stat>,
    },
    Repeat {
        body: Items<Stat>,
        cond: Boxed<Expr>,
    },
    If {
        arms: Items<Arm>,
        other: Option<Items<Stat>>,
    },
    NumFor {
        name: StrId,
        start: Boxed<Expr>,
        limit: Boxed<Expr>,
        step: Option<Boxed<Expr>>,
        body: Items<Stat>,
    },
    GenFor {
        names: Items<StrId>,
        values: Items<Expr>,
        body: Items<Stat>,
    },
    LocalFunction {
        name: StrId,
        func: FuncBody,
    },
    Return(Items<Expr>),
    Break,
    Continue,
}

/// A condition of an `if` statement, and its block.
#[cycle(tree)]
#[derive(Drop)]
pub struct Arm {
    pub cond: Expr,
    pub body: Items<Stat>,
}

/// An expression. A cast is a `Paren`.
#[cycle(tree)]
#[derive(Drop)]
pub struct Expr {
    pub id: usize,
    pub at: usize,
    pub line: usize,
    pub kind: ExprKind,
}

/// What an expression is. A run of `..` is one `Concat`; a table's name and key are an `Index` or, by a name, a `Member`.
#[cycle(tree)]
#[derive(Drop)]
pub enum ExprKind {
    Nil,
    True,
    False,
    Num(Whole),
    Str(StrId),
    Vararg,
    Name(StrId),
    Paren(Boxed<Expr>),
    Unary {
        op: UnOp,
        e: Boxed<Expr>,
    },
    Binary {
        op: BinOp,
        a: Boxed<Expr>,
        b: Boxed<Expr>,
    },
    Concat(Items<Expr>),
    Index {
        table: Boxed<Expr>,
        key: Boxed<Expr>,
    },
    Member {
        table: Boxed<Expr>,
        name: StrId,
    },
    Call {
        callee: Boxed<Expr>,
        args: Items<Expr>,
    },
    Method {
        object: Boxed<Expr>,
        name: StrId,
        args: Items<Expr>,
    },
    Table(Items<Field>),
    Function(FuncBody),
    If {
        arms: Items<ExprArm>,
        other: Boxed<Expr>,
    },
    Interp {
        texts: Items<StrId>,
        values: Items<Expr>,
    },
}

/// A condition of an `if` expression, and its value.
#[cycle(tree)]
#[derive(Drop)]
pub struct ExprArm {
    pub cond: Expr,
    pub value: Expr,
}

/// A field of a table constructor. Its place is that of its first byte.
#[cycle(tree)]
#[derive(Drop)]
pub struct Field {
    pub at: usize,
    pub kind: FieldKind,
}

/// What a field is: by position, by name, or by key.
#[cycle(tree)]
#[derive(Drop)]
pub enum FieldKind {
    Item(Expr),
    Named(StrId, Expr),
    Keyed(Expr, Expr),
}
