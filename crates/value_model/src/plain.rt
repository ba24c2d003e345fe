//! Values that are no objects, which pass between a script and its host.

ghost use Rattle.std.specs.Prelude.{◌≡◌, ◌++◌, ◌∷◌, [], OnOk, OnErr};

use byte_text::Bytes;
use resource::OutOfMemory;
use std::alloc::Global;
use std::marker::Model;
use whole_num::Whole;

/// A value that is no object. A text owns its bytes.
#[derive(Debug, Drop)]
pub enum Plain {
    Nil,
    Bool(bool),
    Num(Whole),
    Text(Bytes),
}

/// A list of plain values. Clauses see the list.
#[derive(Debug, Drop)]
pub struct Plains {
    held: Vec<Plain>,
}

impl Model for Plains {
    ghost use Rattle.std.specs.Prelude.{List};
    ghost use Rattle.value_model.specs.declared.plain.Plain.{Plain};

    ghost Value = { List Plain };

    ghost view = { λ p. p.held.items };
}

impl Plains {
    /// A list without values. It takes no memory.
    pub fn new(alloc: Global) -> Plains
        ensures { result ≡ [] }
    {
        Plains {
            held: Vec::new(alloc),
        }
    }

    /// One more value, at the end.
    pub fn push(&mut self, v: Plain) -> Result<(), OutOfMemory>
        ensures ok { OnOk result (self.new ≡ self.old ++ v ∷ []) }
        ensures err { OnErr result (self.new ≡ self.old) }
    {
        self.held.push(v)?;
        Ok(())
    }

    /// The values, in the order in which they were pushed.
    pub fn items(&self) -> &[Plain]
        ensures { result.now ≡ self.now }
    {
        self.held.as_slice()
    }
}
