//! What is known of a tree before its code is made.

ghost use Rattle.std.specs.Prelude.{◌≡◌, []};

use byte_text::StrId;
use sqlite_items::Items;
use std::alloc::Global;
use whole_num::Whole;

/// A value that is known before a script runs.
#[derive(Clone, Copy, PartialEq, Eq, Debug)]
pub enum Constant {
    Nil,
    Bool(bool),
    Num(Whole),
    Str(StrId),
}

/// Facts of a tree, each in a list by node number. Nothing is known of a node behind the end of a list.
#[derive(Drop)]
pub struct Facts {
    /// The value of an expression.
    pub consts: Items<Option<Constant>>,
    /// At the outermost node of an import path, how many names it has; 0 elsewhere.
    pub paths: Items<u8>,
    /// At a call, the number of the library function that is called; 0 where none is known.
    pub fast: Items<u8>,
    /// At a call, whether the body of its function stands in its place.
    pub inlined: Items<bool>,
    /// At a loop, how many turns its body is written out for; 0 where it is not.
    pub unrolled: Items<u8>,
}

impl Facts {
    /// Nothing is known. It takes no memory.
    pub fn new(alloc: Global) -> Facts
        ensures { result ≡ record { consts = []; paths = []; fast = []; inlined = []; unrolled = [] } }
    {
        Facts {
            consts: Items::new(alloc),
            paths: Items::new(alloc),
            fast: Items::new(alloc),
            inlined: Items::new(alloc),
            unrolled: Items::new(alloc),
        }
    }
}
