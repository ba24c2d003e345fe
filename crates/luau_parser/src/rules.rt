//! The rules for statements, which stand on those for expressions.

use expression_parser::{Found, Grammar, Wanted};
use std::alloc::Global;
use syntax_tree::Token;

/// The rules for statements, over those for expressions.
#[derive(Clone, Copy)]
pub(crate) struct Rules<'a, F> {
    pub(crate) grammar: Grammar<'a, F>,
}
