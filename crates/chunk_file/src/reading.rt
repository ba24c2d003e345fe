//! Bytes to chunks.

ghost use Rattle.chunk_file.specs.Answers.{Answers, Fails, Gives, IsFault, Says};
ghost use Rattle.chunk_file.specs.Reading as spec;
ghost use Rattle.op_words.specs.Chunks.{ChunkOf, chunk_of};
ghost use Rattle.std.specs.Prelude.{◌≡◌, ◌-◌, ◌≤◌, IfErr, OnOk, drop, length};

use crate::error::ChunkErr;
use crate::fault::Fault;
use crate::reader::Reader;
use op_words::Chunk;
use std::alloc::Global;

// The bytes that each chunk begins with.
const MAGIC: [u8; 4] = [0x4C, 0x57, 0x43, 0x48];

/// The chunk that the bytes spell, or the first wrong field.
pub fn read(alloc: Global, bytes: &[u8]) -> Result<Chunk, ChunkErr>
    // It is what the bytes are read as, field by field.
    ensures reads { Answers (spec.read_file bytes.now) result }
    // The bytes are the chunk's spelling; or they begin one and end before it does; or others stand behind one; or none of these.
    ensures says { Says bytes.now result }
{
    read_fields(alloc, bytes)
}

fn read_fields(alloc: Global, bytes: &[u8]) -> Result<Chunk, ChunkErr>
    ensures reads { Answers (spec.read_file bytes.now) result }
{
    check_head(bytes)?;
    let mut reader = Reader::new(&bytes[5..]);
    let chunk = match contents(alloc, &mut reader) {
        Ok(chunk) => chunk,
        Err(fault) => return Err(located(fault, bytes)),
    };
    let left = reader.len();
    if left > 0 {
        return Err(ChunkErr::Trailing {
            at: place(bytes, left),
        });
    }
    Ok(chunk)
}

// That the magic and the version stand first.
fn check_head(bytes: &[u8]) -> Result<(), ChunkErr>
    ensures room { OnOk result (5 ≤ length bytes.now) }
    ensures goes_on { OnOk result (spec.read_file bytes.now ≡ spec.contents bytes.now (spec.read_contents (drop 5 bytes.now))) }
    ensures refuses { IfErr result (λ error. IsFault (spec.read_file bytes.now) error) }
{
    for (at, wanted) in MAGIC.iter().enumerate() {
        let Some(byte) = bytes.get(at) else {
            return Err(ChunkErr::Truncated { at: bytes.len() });
        };
        if *byte != *wanted {
            return Err(ChunkErr::BadMagic { at });
        }
    }
    let Some(version) = bytes.get(4) else {
        return Err(ChunkErr::Truncated { at: bytes.len() });
    };
    if *version != 1 {
        return Err(ChunkErr::BadVersion { at: 4 });
    }
    Ok(())
}

// A fault with its place in the bytes of the file.
fn located(fault: Fault, bytes: &[u8]) -> ChunkErr
    ensures { (found : spec.Found ChunkOf) → Fails found fault → IsFault (spec.contents bytes.now found) result }
{
    match fault {
        Fault::Ends => ChunkErr::Truncated { at: bytes.len() },
        Fault::Wrong { left } => ChunkErr::BadField {
            at: place(bytes, left),
        },
        Fault::OutOfMemory => ChunkErr::OutOfMemory,
    }
}

// The place from which on so many of the bytes are left.
fn place(bytes: &[u8], left: usize) -> usize
    ensures { result ≡ length bytes.now - left }
{
    bytes.len().saturating_sub(left)
}

// What stands behind the version.
fn contents(alloc: Global, reader: &mut Reader) -> Result<Chunk, Fault>
    ensures { Gives chunk_of (spec.read_contents reader.old) result reader.new }
{
    let strings = reader.strings(alloc)?;
    let protos = reader.protos(alloc)?;
    let main = reader.number()?;
    Ok(Chunk {
        strings,
        protos,
        main,
    })
}
