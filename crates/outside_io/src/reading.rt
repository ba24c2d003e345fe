//! Files, and the reading of a whole file.

ghost use Rattle.std.specs.Prelude.{◌≡◌, ℕ, ◌+◌, ◌<◌, ◌≤◌, length, IfOk, IfSome, vec_len};
ghost use Rattle.outside_io.specs.Files.{Contents, ReadsAt, ReadAtFaults, ReadsAll, ReadFaults, ReadsOn};

use std::alloc::{AllocError, Global};
use std::error::Error;
use std::fmt;

/// Why a read of a part of a file gave no bytes.
#[derive(Clone, Copy, Debug, PartialEq, Eq, Hash)]
pub enum ReadAtErr {
    /// There is no file of that name.
    Missing,

    /// The read failed, and the count of faults rose.
    Failed,
}

impl fmt::Display for ReadAtErr {
    fn fmt<W: fmt::Write>(&self, f: &mut fmt::Formatter<W>) -> fmt::Result {
        match self {
            ReadAtErr::Missing => write!(f, "no such file"),
            ReadAtErr::Failed => write!(f, "a read failed"),
        }
    }
}

impl Error for ReadAtErr {}

/// Why the whole of a file was not given.
#[derive(Clone, Copy, Debug, PartialEq, Eq, Hash)]
pub enum ReadErr {
    /// There is no file of that name.
    Missing,

    /// A read failed, and the count of faults rose.
    ReadFault,

    /// The file holds more bytes than the limit.
    TooLarge,

    /// There was no memory for the bytes.
    OutOfMemory,
}

impl fmt::Display for ReadErr {
    fn fmt<W: fmt::Write>(&self, f: &mut fmt::Formatter<W>) -> fmt::Result {
        match self {
            ReadErr::Missing => write!(f, "no such file"),
            ReadErr::ReadFault => write!(f, "a read failed"),
            ReadErr::TooLarge => write!(f, "the file is too large"),
            ReadErr::OutOfMemory => write!(f, "out of memory"),
        }
    }
}

impl Error for ReadErr {}

impl From<AllocError> for ReadErr {
    ghost use Rattle.std.specs.Prelude.{◌≡◌};
    ghost use Rattle.outside_io.specs.declared.reading.ReadErr.TheVariants.{OutOfMemory};

    ghost from_gives = { λ _ e. e ≡ OutOfMemory };

    fn from(_: AllocError) -> ReadErr {
        ReadErr::OutOfMemory
    }
}

impl From<ReadAtErr> for ReadErr {
    ghost use Rattle.std.specs.Prelude.{◌≡◌};
    ghost use Rattle.outside_io.specs.Files.{read_err_of};

    ghost from_gives = { λ one e. e ≡ read_err_of one };

    fn from(one: ReadAtErr) -> ReadErr {
        match one {
            ReadAtErr::Missing => ReadErr::Missing,
            ReadAtErr::Failed => ReadErr::ReadFault,
        }
    }
}

/// The files of the outside, by name.
pub trait Files {
    /// The contents of each name, where they are told. No call changes them.
    ghost contents: { Self → Contents };

    /// How many reads failed. It never falls, and stays at the last value of 64 bits.
    ghost faults: { Self → ℕ };

    /// Fills a front of `buf` with the bytes of the file `name` from the offset `at` on, and answers
    /// how many bytes that are. Of what stands behind them in `buf` nothing is said. Nothing is read
    /// into a buffer that is not empty only at the file's end.
    fn read_at(&mut self, name: &str, at: u64, buf: &mut [u8]) -> Result<usize, ReadAtErr>
        ensures bound { IfOk result (λ count. count ≤ length buf.old) }
        ensures told { IfSome (contents self.old)
            (λ files. ReadsAt (files name.now) at buf.old buf.new result) }
        ensures contents { contents self.new ≡ contents self.old }
        ensures faults { ReadAtFaults result (faults self.old) (faults self.new) };
}

/// The most bytes that one read asks for.
const PIECE: usize = 65_536;

/// Reads the whole of the file `name`, if it has at most `limit` bytes.
///
/// It asks for `limit + 1` bytes at most in all, and stops with `TooLarge` once it has them; at the
/// limit `usize::MAX` that never comes.
pub fn read_all<F: Files>(
    alloc: Global,
    files: &mut F,
    name: &str,
    limit: usize,
) -> Result<Vec<u8>, ReadErr>
    ensures told { IfSome (F.contents files.old) (λ told. ReadsAll (told name.now) limit result) }
    ensures contents { F.contents files.new ≡ F.contents files.old }
    ensures faults { ReadFaults result (F.faults files.old) (F.faults files.new) }
    ensures within { IfOk result (λ bytes. vec_len bytes ≤ limit) }
{
    let mut buffer = [0; PIECE];
    let mut bytes = Vec::new(alloc);
    while bytes.len() <= limit {
        let most = (limit - bytes.len()).min(PIECE - 1) + 1;
        let count = read_on(files, name, &mut bytes, &mut buffer[..most])?;
        if count == 0 {
            return Ok(bytes);
        }
    }
    Err(ReadErr::TooLarge)
}

/// Reads a piece of the file `name` behind the front of it that `bytes` holds, and appends it.
/// It answers how many bytes came; none come only at the file's end.
fn read_on<F: Files>(
    files: &mut F,
    name: &str,
    bytes: &mut Vec<u8>,
    piece: &mut [u8],
) -> Result<usize, ReadErr>
    requires { 0 < length piece.old }
    ensures told { IfSome (F.contents files.old)
        (λ told. ReadsOn (told name.now) bytes.old.items bytes.new.items result) }
    ensures contents { F.contents files.new ≡ F.contents files.old }
    ensures faults { ReadFaults result (F.faults files.old) (F.faults files.new) }
    ensures count { IfOk result (λ count. vec_len bytes.new ≡ vec_len bytes.old + count) }
{
    let count = files.read_at(name, bytes.len() as u64, piece)?;
    bytes.extend_from_slice(&piece[..count])?;
    Ok(count)
}
