//! The files of the system.

ghost use Rattle.std.specs.Prelude.{◌≡◌};
ghost use Rattle.outside_io.specs.MemFiles.{counted};

use crate::reading::{Files, ReadAtErr};
use std::fs::File;
use std::io::ErrorKind;
use std::marker::Model;
use std::os::unix::fs::FileExt;
use std::rt;

/// The files of the system, by path. Of their bytes nothing is told.
///
/// A name that the system does not find is missing; every other error, of the opening and of the
/// reading, is a fault. So is an offset of 2^63 or more.
#[derive(Drop)]
pub struct OsFiles<R> {
    rt: R,
    faults: u64,
}

impl<R> Model for OsFiles<R> {
    ghost use Rattle.std.specs.Prelude.{ℕ};

    ghost Value = { ℕ };

    ghost view = { λ s. s.faults };
}

impl<R: rt::Files<File = File>> OsFiles<R> {
    /// The files that this runtime reaches, with no faults so far.
    pub fn new(rt: R) -> OsFiles<R>
        ensures { result ≡ 0 }
    {
        OsFiles { rt, faults: 0 }
    }

    fn fault(&mut self) -> ReadAtErr
        ensures failed { result ≡ ReadAtErr.Failed }
        ensures faults { self.new ≡ counted self.old }
    {
        self.faults = self.faults.saturating_add(1);
        ReadAtErr::Failed
    }
}

impl<R: rt::Files<File = File>> Files for OsFiles<R> {
    ghost use Rattle.std.specs.Prelude.{None};

    ghost contents = { λ _. None };

    ghost faults = { λ faults. faults };

    fn read_at(&mut self, name: &str, at: u64, buf: &mut [u8]) -> Result<usize, ReadAtErr> {
        let file = match File::open(&self.rt, name) {
            Ok(file) => file,
            Err(error) if error.kind() == ErrorKind::NotFound => return Err(ReadAtErr::Missing),
            Err(_) => return Err(self.fault()),
        };
        match file.read_at(buf, at) {
            Ok(count) => Ok(count),
            Err(_) => Err(self.fault()),
        }
    }
}
