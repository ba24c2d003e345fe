//! The global table and what leads from it.

use byte_text::{Interner, StrId};
use value_arena::Arena;
use value_model::{Owner, TableId};

/// The global table and what leads from it. It is made once, and all its tables are frozen.
#[derive(Debug, Drop)]
pub struct Globals {
    pub table: TableId,
    /// The metatable of strings.
    pub string_meta: TableId,
    /// The dotted path of each table of the library and of the host.
    pub paths: Vec<(TableId, StrId)>,
    /// The dotted path of each host function, by its number.
    pub hosts: Vec<StrId>,
    pub meta: MetaNames,
}

/// The names of metamethods.
#[derive(Clone, Copy, PartialEq, Eq, Debug)]
pub struct MetaNames {
    pub index: StrId,
    pub newindex: StrId,
    pub call: StrId,
    pub eq: StrId,
    pub lt: StrId,
    pub le: StrId,
    pub add: StrId,
    pub sub: StrId,
    pub mul: StrId,
    pub div: StrId,
    pub idiv: StrId,
    pub mod_: StrId,
    pub pow: StrId,
    pub unm: StrId,
    pub concat: StrId,
    pub len: StrId,
    pub iter: StrId,
    pub tostring: StrId,
    pub metatable: StrId,
}

/// What functions of the library read and change, with the script that they run for.
#[derive(Drop)]
pub struct LibWorld {
    pub arena: Arena,
    pub names: Interner,
    pub owner: Owner,
    pub globals: Globals,
}
