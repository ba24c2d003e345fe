//! Tokens, the syntax tree, its measures, and what its names are bound to.
//!
//! The types stand here, below the lexer and the parser that make them and the compiler that reads them.
#![tactic(auto)]

mod bindings;
mod facts;
mod fault;
mod form;
mod laws;
mod length;
mod level;
mod limits;
mod nesting;
mod notes;
mod token;
mod tree;
mod width;

pub use bindings::{Bindings, Bound, LocalInfo};
pub use facts::{Constant, Facts};
pub use fault::{Cause, Refusal, ScopeFault, ScopeRule};
pub use form::{Form, Opener};
pub use laws::{fixed_names, proper_nodes};
pub use length::bulk;
pub use level::Level;
pub use limits::{MOST_BULK, MOST_NESTED, MOST_REGISTERS, MOST_VARIABLES};
pub use nesting::nest;
pub use notes::{Capture, Leap, Note, Place, Visible};
pub use token::{Token, TokenKind};
pub use tree::{
    Arm, BinOp, Expr, ExprArm, ExprKind, Field, FieldKind, FuncBody, Stat, StatKind, Tree, UnOp,
};
pub use width::need;
