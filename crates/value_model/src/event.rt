//! What a script shows, and what its host answers.

use crate::plain::{Plain, Plains};
use byte_text::Bytes;

/// What the host answers to a call of one of its functions.
#[derive(Debug, Drop)]
pub enum Reply {
    /// The values that the call gives.
    Values(Plains),
    /// The value that the call raises.
    Raise(Plain),
}

/// Something that a script shows, with the turns that it had spent by then.
#[derive(Debug, Drop)]
pub struct Event {
    pub turns: u32,
    pub kind: EventKind,
}

/// What a script shows.
#[derive(Debug, Drop)]
pub enum EventKind {
    /// A printed line, without its end.
    Print(Bytes),
    /// A call of a host function, and its reply; none where the replies were used up.
    Host {
        name: Bytes,
        args: Plains,
        answer: Option<Reply>,
    },
}
