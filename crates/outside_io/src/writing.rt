//! Sinks, and the writing of all bytes.

ghost use Rattle.std.specs.Prelude.{◌≡◌, ℕ, ◌<◌, ◌≤◌, List, Option, length, take, IfOk, OnOk, OnErr, IsOk};
ghost use Rattle.resource.specs.Faults.{Rose};
ghost use Rattle.outside_io.specs.Sinks.{appended};

use std::error::Error;
use std::fmt;

/// A sink could not take a piece.
#[derive(Clone, Copy, Debug, PartialEq, Eq, Hash)]
pub struct Failed;

impl fmt::Display for Failed {
    fn fmt<W: fmt::Write>(&self, f: &mut fmt::Formatter<W>) -> fmt::Result {
        write!(f, "the sink failed")
    }
}

impl Error for Failed {}

/// Why not all bytes were written.
#[derive(Clone, Copy, Debug, PartialEq, Eq, Hash)]
pub enum WriteErr {
    /// The sink failed, and its count of faults rose.
    WriteFault,
}

impl fmt::Display for WriteErr {
    fn fmt<W: fmt::Write>(&self, f: &mut fmt::Formatter<W>) -> fmt::Result {
        match self {
            WriteErr::WriteFault => write!(f, "a write failed"),
        }
    }
}

impl Error for WriteErr {}

/// What takes bytes: standard output, a file, or memory.
///
/// A sink that tells its bytes tells them in every state; one that does not never does.
pub trait Sink {
    /// The bytes written, where the sink tells them.
    ghost bytes: { Self → Option (List ℕ) };

    /// How many times a call failed. It never falls, and stays at the last value of 64 bits.
    ghost faults: { Self → ℕ };

    /// Appends a front of `piece`, and answers its length in bytes. An empty front is answered only
    /// for an empty piece. A failed call appends nothing and raises the count of faults.
    fn put(&mut self, piece: &[u8]) -> Result<usize, Failed>
        ensures bound { IfOk result (λ count. count ≤ length piece.now) }
        ensures took { IfOk result (λ count. 0 < length piece.now → 0 < count) }
        ensures appends { IfOk result
            (λ count. bytes self.new ≡ appended (bytes self.old) (take count piece.now)) }
        ensures kept { OnErr result (bytes self.new ≡ bytes self.old) }
        ensures no_fault { OnOk result (faults self.new ≡ faults self.old) }
        ensures fault { OnErr result (Rose (faults self.old) (faults self.new)) };
}

/// Appends all of `bytes` to the sink, by as many calls of `put` as it takes.
///
/// It takes no memory, and makes no call for no bytes. At the first call that fails it answers
/// `WriteFault`; a front of `bytes` was then appended.
pub fn put_all<S: Sink>(sink: &mut S, bytes: &[u8]) -> Result<(), WriteErr>
    ensures ok { OnOk result (S.bytes sink.new ≡ appended (S.bytes sink.old) bytes.now) }
    ensures err { OnErr result ((count : ℕ) × (count ≤ length bytes.now)
        × (S.bytes sink.new ≡ appended (S.bytes sink.old) (take count bytes.now))) }
    ensures no_fault { OnOk result (S.faults sink.new ≡ S.faults sink.old) }
    ensures fault { OnErr result (Rose (S.faults sink.old) (S.faults sink.new)) }
    ensures nothing { length bytes.now ≡ 0 → IsOk result × (sink.new ≡ sink.old) }
{
    let mut done = 0;
    while done < bytes.len() {
        match sink.put(&bytes[done..]) {
            Ok(count) => done += count,
            Err(Failed) => return Err(WriteErr::WriteFault),
        }
    }
    Ok(())
}
