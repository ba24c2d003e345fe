//! Frames.

use byte_text::StrId;
use sqlite_items::Items;
use value_model::{CellId, ClosureId, Continue, ShortOwner, Value};

/// What a frame does with the values of the call that it waits for. Registers are its own, and it goes on at `next`.
#[derive(Drop)]
pub enum ReturnKind {
    /// It waits for no call.
    Idle,
    /// Gives one value fewer than `results` to the registers from `to` on, or at 0 all of them.
    Call {
        to: u8,
        results: u8,
        next: usize,
    },
    /// Gives the first value to a register: the answer of a metamethod.
    Answer {
        to: u8,
        next: usize,
    },
    /// Gives nothing: a value was stored.
    Store {
        next: usize,
    },
    /// Jumps by so many words where the first value is true and `wanted` is, or neither.
    Jump {
        by: i16,
        wanted: bool,
        next: usize,
    },
    /// Joins the first value with the operands of a run of `..` that are left, the last of them first.
    Join {
        to: u8,
        left: Items<Value>,
        next: usize,
    },
    /// Looks up the next names of an import in the first value.
    Import {
        to: u8,
        names: Items<StrId>,
        next: usize,
    },
    /// Begins a generic loop with the three values that `__iter` gives, from a register on.
    Iterate {
        base: u8,
        by: i16,
    },
    /// Gives the variables of a generic loop their values, and jumps back unless the first is nil.
    Turn {
        base: u8,
        variables: u32,
        by: i16,
        next: usize,
    },
    /// Ends a protected call, with its handler, where there is one.
    Protected {
        handler: Option<Value>,
    },
    /// Ends the handler of a protected call.
    Handler,
    /// Goes on with a library function that asked for the text of an argument.
    Library {
        rest: Continue,
    },
    /// Ends a call that has resumed another coroutine: of `coroutine.resume`, or of a function of `coroutine.wrap`.
    Coroutine {
        wrapped: bool,
    },
}

/// One call that has not returned.
#[derive(Drop)]
pub struct Frame {
    /// The function that runs, or none for a library function.
    pub closure: Option<ClosureId>,
    /// The first of its registers.
    pub base: usize,
    /// How many registers it has.
    pub registers: u8,
    /// How many variable arguments stand directly below them.
    pub extra: usize,
    /// The place of its instruction.
    pub place: usize,
    /// What it does with the values of the call that it waits for.
    pub kind: ReturnKind,
}

/// A cell that is open, and the register that it stands for.
#[derive(Clone, Copy, Debug)]
pub(crate) struct OpenCell {
    pub register: usize,
    pub cell: CellId,
}

impl Default for OpenCell {
    fn default() -> OpenCell {
        OpenCell {
            register: 0,
            cell: CellId {
                owner: ShortOwner::Frozen,
                place: 0,
            },
        }
    }
}
