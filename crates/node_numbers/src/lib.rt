//! The numbers of a tree's nodes.
//!
//! A statement, an expression and a function's body are nodes; arms and fields are none. The nodes are numbered from 0
//! on, a node before its parts, and these in the order of their fields.
#![tactic(auto)]

mod numbers;

ghost use Rattle.std.specs.Prelude.{◌≡◌, IfOk};
ghost use Rattle.syntax_tree.specs.Numbers.{numbered};

use numbers::Numbers;
use resource::OutOfMemory;
use std::alloc::Global;
use syntax_tree::{FuncBody, Tree};

/// The tree of a main function whose nodes are not numbered yet: each node gets its number. The only error is want of
/// memory.
pub fn number(alloc: Global, main: FuncBody) -> Result<Tree, OutOfMemory>
    ensures { IfOk result (λ tree. tree ≡ numbered main) }
{
    let mut numbers = Numbers::new(alloc);
    let main = numbers.func(&main)?;
    Ok(Tree {
        main,
        nodes: numbers.count(),
    })
}
