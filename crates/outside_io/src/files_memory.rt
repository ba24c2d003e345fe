//! Files in memory.

ghost use Rattle.std.specs.Prelude.{◌≡◌, ◌-◌, ◌≤◌, min, length, map, take, drop, IfOk, IfSome};
ghost use Rattle.std.specs.Option.{option_copied};
ghost use Rattle.outside_io.specs.Files.{ReadsAt, ReadAtFaults};
ghost use Rattle.outside_io.specs.MemFiles.{bytes_named, counted, faults_after, file_of, is_to_fail, read_answer};

use crate::reading::{Files, ReadAtErr};
use std::marker::Model;

/// Files in memory, which tell their contents.
///
/// A read of a file that is there fails at the calls that are listed, and at no other. A call is
/// known by its number from 1 on; those for a missing file count too. The number of the last call,
/// and the count of faults, stay at the last value of 64 bits.
#[derive(Drop)]
pub struct MemFiles {
    files: Vec<(String, Vec<u8>)>,
    fails: Vec<u64>,
    calls: u64,
    faults: u64,
}

impl Model for MemFiles {
    ghost use Rattle.std.specs.Prelude.{map};
    ghost use Rattle.outside_io.specs.MemFiles.{Folder, file_of};

    ghost Value = { Folder };

    ghost view = { λ m. record {
      files = map file_of m.files.items;
      fails = m.fails.items;
      calls = m.calls;
      faults = m.faults;
    } };
}

impl MemFiles {
    /// The files of these pairs of a name and bytes; of two pairs of one name the first is the file.
    /// The calls whose numbers are in `fails` are to fail.
    pub fn new(files: Vec<(String, Vec<u8>)>, fails: Vec<u64>) -> MemFiles
        ensures { result ≡ record {
          files = map file_of files.items;
          fails = fails.items;
          calls = 0;
          faults = 0;
        } }
    {
        MemFiles {
            files,
            fails,
            calls: 0,
            faults: 0,
        }
    }
}

impl Files for MemFiles {
    ghost use Rattle.std.specs.Prelude.{Some};
    ghost use Rattle.outside_io.specs.MemFiles.{bytes_named};

    ghost contents = { λ m. Some (bytes_named m.files) };

    ghost faults = { λ m. m.faults };

    fn read_at(&mut self, name: &str, at: u64, buf: &mut [u8]) -> Result<usize, ReadAtErr>
        ensures bound { IfOk result (λ count. count ≤ length buf.old) }
        ensures told { ReadsAt (bytes_named self.old.files name.now) at buf.old buf.new result }
        ensures contents { bytes_named self.new.files ≡ bytes_named self.old.files }
        ensures faults { ReadAtFaults result self.old.faults self.new.faults }

        // It fails at the listed calls of a file that is there, and nowhere else.
        ensures answer { result ≡ read_answer (bytes_named self.old.files name.now)
            (is_to_fail self.old.fails (counted self.old.calls)) at (length buf.old) }
        ensures state { self.new ≡ record self.old {
          calls = counted self.old.calls;
          faults = faults_after result self.old.faults;
        } }
    {
        self.calls = self.calls.saturating_add(1);
        let Some(bytes) = bytes_named(&self.files, name) else {
            return Err(ReadAtErr::Missing);
        };
        if self.fails.contains(&self.calls) {
            self.faults = self.faults.saturating_add(1);
            return Err(ReadAtErr::Failed);
        }
        Ok(copy_from(bytes, at, buf))
    }
}

/// The bytes of the first file of this name.
fn bytes_named<'a>(files: &'a [(String, Vec<u8>)], name: &str) -> Option<&'a [u8]>
    ensures { option_copied result ≡ bytes_named (map file_of files.now) name.now }
{
    for (known, bytes) in files {
        if known.as_str() == name {
            return Some(bytes.as_slice());
        }
    }
    None
}

/// Copies the bytes from `at` on to the front of `buf`, as many as there are and fit, and answers
/// how many that are.
fn copy_from(bytes: &[u8], at: u64, buf: &mut [u8]) -> usize
    ensures count { result ≡ min (length buf.old) (length bytes.now - at) }
    ensures front { take result buf.new ≡ take result (drop at bytes.now) }
{
    let start = at.min(bytes.len() as u64) as usize;
    let rest = &bytes[start..];
    let count = buf.len().min(rest.len());
    buf[..count].copy_from_slice(&rest[..count]);
    count
}
