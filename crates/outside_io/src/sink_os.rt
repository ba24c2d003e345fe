//! A writer of the system as a sink.

ghost use Rattle.std.specs.Prelude.{◌≡◌};
ghost use Rattle.outside_io.specs.MemFiles.{counted};

use crate::writing::{Failed, Sink};
use std::io::Write;
use std::marker::Model;

/// A writer as a sink, such as standard output. Of its bytes nothing is told, and none are kept
/// back here.
///
/// Every error of the writer is a fault, and so is a write that takes nothing of a piece that is not
/// empty.
#[derive(Drop)]
pub struct OsSink<W> {
    writer: W,
    faults: u64,
}

impl<W> Model for OsSink<W> {
    ghost use Rattle.std.specs.Prelude.{ℕ};

    ghost Value = { ℕ };

    ghost view = { λ s. s.faults };
}

impl<W: Write> OsSink<W> {
    /// A sink over this writer, with no faults so far.
    pub fn new(writer: W) -> OsSink<W>
        ensures { result ≡ 0 }
    {
        OsSink { writer, faults: 0 }
    }

    fn fault(&mut self) -> Failed
        ensures { self.new ≡ counted self.old }
    {
        self.faults = self.faults.saturating_add(1);
        Failed
    }
}

impl<W: Write> Sink for OsSink<W> {
    ghost use Rattle.std.specs.Prelude.{None};

    ghost bytes = { λ _. None };

    ghost faults = { λ faults. faults };

    fn put(&mut self, piece: &[u8]) -> Result<usize, Failed> {
        match self.writer.write(piece) {
            Ok(0) if !piece.is_empty() => Err(self.fault()),
            Ok(count) => Ok(count),
            Err(_) => Err(self.fault()),
        }
    }
}
