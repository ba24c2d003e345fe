//! Expressions, by rules that take the reader of what nests in them as a parameter.
#![tactic(auto)]

mod expressions;
mod fault;
mod functions;
mod grammar;
mod nodes;
mod operations;
mod parts;
mod prefixes;
mod simple;
mod tables;
mod types;
mod words;

pub use fault::Fault;
pub use functions::{bind, binds, generics};
pub use grammar::{Grammar, within};
pub use nodes::{boxed_at, func_at, line, named, offset, push};
pub use parts::{Bind, Binds, Block, Ending, Found, Function, Part, Parts, Prefix, Wanted};
pub use types::type_at;
pub use words::{expect, expect_name};
