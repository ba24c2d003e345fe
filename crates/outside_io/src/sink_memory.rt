//! A sink in memory.

ghost use Rattle.std.specs.Prelude.{◌≡◌, ◌++◌, ◌<◌, ◌≤◌, [], length, take, IfOk, IsOk, OnOk, OnErr, Some};
ghost use Rattle.resource.specs.Faults.{Rose};
ghost use Rattle.outside_io.specs.Sinks.{appended};
ghost use Rattle.outside_io.specs.MemFiles.{counted};
ghost use Rattle.outside_io.specs.MemSink.{put_answer};

use crate::writing::{Failed, Sink};
use resource::OutOfMemory;
use std::alloc::Global;
use std::marker::Model;

/// A sink in memory, which tells its bytes and has room for so many.
///
/// It fails at the calls that are listed, and at a piece that is not empty once its room is full, and
/// at no other. A call is known by its number from 1 on; those for an empty piece count too. The
/// number of the last call, and the count of faults, stay at the last value of 64 bits.
#[derive(Drop)]
pub struct MemSink {
    bytes: Vec<u8>,
    room: usize,
    fails: Vec<u64>,
    calls: u64,
    faults: u64,
}

impl Model for MemSink {
    ghost use Rattle.std.specs.Prelude.{◌≤◌, vec_len, vec_capacity};
    ghost use Rattle.outside_io.specs.MemSink.{Store};

    ghost Value = { Store };

    ghost view = { λ m. record {
      bytes = m.bytes.items;
      room = m.room;
      fails = m.fails.items;
      calls = m.calls;
      faults = m.faults;
    } };

    ghost invariant = { λ m. (vec_len m.bytes ≤ m.room) × (m.room ≤ vec_capacity m.bytes) };
}

impl MemSink {
    /// An empty sink with room for `room` bytes, which it takes now, so that no later call takes
    /// memory; no room takes none. The calls whose numbers are in `fails` are to fail.
    pub fn new(alloc: Global, room: usize, fails: Vec<u64>) -> Result<MemSink, OutOfMemory>
        ensures no_room { room ≡ 0 → IsOk result }
        ensures made { IfOk result (λ sink. sink ≡ record {
          bytes = [];
          room = room;
          fails = fails.items;
          calls = 0;
          faults = 0;
        }) }
    {
        let bytes = Vec::with_capacity(alloc, room)?;
        Ok(MemSink {
            bytes,
            room,
            fails,
            calls: 0,
            faults: 0,
        })
    }

    /// The bytes that were taken.
    pub fn bytes(&self) -> &[u8]
        ensures { result.now ≡ self.now.bytes }
    {
        self.bytes.as_slice()
    }
}

impl Sink for MemSink {
    ghost use Rattle.std.specs.Prelude.{Some};

    ghost bytes = { λ m. Some m.bytes };

    ghost faults = { λ m. m.faults };

    fn put(&mut self, piece: &[u8]) -> Result<usize, Failed>
        ensures bound { IfOk result (λ count. count ≤ length piece.now) }
        ensures took { IfOk result (λ count. 0 < length piece.now → 0 < count) }
        ensures appends { IfOk result
            (λ count. Some self.new.bytes ≡ appended (Some self.old.bytes) (take count piece.now)) }
        ensures kept { OnErr result (Some self.new.bytes ≡ Some self.old.bytes) }
        ensures no_fault { OnOk result (self.new.faults ≡ self.old.faults) }
        ensures fault { OnErr result (Rose self.old.faults self.new.faults) }

        // It fails at the listed calls and where its room is full, and nowhere else.
        ensures answer { result ≡ put_answer self.old (length piece.now) }
        ensures ok { IfOk result (λ count. self.new ≡ record self.old {
          bytes = self.old.bytes ++ take count piece.now;
          calls = counted self.old.calls;
        }) }
        ensures err { OnErr result (self.new ≡ record self.old {
          calls = counted self.old.calls;
          faults = counted self.old.faults;
        }) }
    {
        self.calls = self.calls.saturating_add(1);
        let left = self.room - self.bytes.len();
        if self.fails.contains(&self.calls) || (!piece.is_empty() && left == 0) {
            self.faults = self.faults.saturating_add(1);
            return Err(Failed);
        }
        let count = piece.len().min(left);
        self.bytes.extend_from_slice(&piece[..count]).unwrap();
        Ok(count)
    }
}
