//! Code before and after its jumps have their distances.

use op_words::Insn;

/// A line of code with labels.
#[derive(Clone, Copy)]
pub enum Item {
    Insn(Insn),
    /// A jump to a label, whatever distance it names.
    Branch(Insn, usize),
    /// The place of what follows. It takes no word.
    Label(usize),
}

/// Code with labels.
#[derive(Drop)]
pub struct Labelled {
    pub items: Vec<Item>,
}

/// The words of code whose jumps have their distances.
#[derive(Drop)]
pub struct Linked {
    pub code: Vec<u32>,
}
