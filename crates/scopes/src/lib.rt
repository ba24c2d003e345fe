//! What each name of a tree is bound to, and the first rule that a tree breaks.
#![tactic(auto)]

mod captured;
mod error;
mod names;
mod rules;
mod scope;
mod sizes;
mod used;

ghost use Rattle.std.specs.Prelude.{◌≡◌, MatchResult, [], ⊤};
ghost use Rattle.syntax_tree.specs.Bound.{bound, faults, IsScopeFault};
ghost use Rattle.scopes.specs.Refused.{Answers};

pub use error::ScopeErr;
use error::first_of;
use names::Resolver;
use resource::OutOfMemory;
use sizes::size_func;
use sqlite_items::Items;
use std::alloc::Global;
use syntax_tree::{Bindings, Place, ScopeFault, Tree};

/// The bindings of a tree whose nodes are numbered in source order, or the first rule that the tree breaks: the one
/// at the earliest place, and at one place the one with the smaller number.
pub fn resolve(alloc: Global, tree: &Tree) -> Result<Bindings, ScopeErr>
    ensures { Answers tree.now result }
{
    let mut resolver = Resolver::new(alloc);
    resolver.function(&tree.main)?;
    let (bindings, mut faults) = resolver.finish()?;
    rules::rules_func(&mut faults, &tree.main)?;
    size_func(&mut faults, &tree.main, &bindings)?;
    match first_of(faults.as_slice()) {
        Some(fault) => Err(ScopeErr::from_fault(fault)),
        None => Ok(bindings),
    }
}
