//! All objects of all scripts, in one arena.
#![tactic(auto)]

mod arena;
mod arena_laws;
mod closure;
mod entries;
mod objects;
mod table;

pub use arena::Arena;
pub use arena_laws::{border_is_least, new_objects_keep, references_keep, writes_keep};
pub use closure::{Closure, Thread};
pub use table::Table;
