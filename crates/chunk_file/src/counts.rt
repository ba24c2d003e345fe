//! Whether a chunk can be spelled.

ghost use Rattle.std.specs.Prelude.{◌≡◌, ◌↔◌, nat_lt, IsTrue, map};
ghost use Rattle.std.specs.List.{list_all};
ghost use Rattle.chunk_file.specs.Counting as test;
ghost use Rattle.chunk_file.specs.Spelling.{HasCounts, most_number};
ghost use Rattle.op_words.specs.Chunks.{chunk_of, proto_of};

use byte_text::Bytes;
use op_words::{Chunk, Proto};

// Counts are below it.
const MOST_NUMBER: usize = 1 << 32;

/// Whether each count in a chunk and each length of a string is below 2^32, which is to say that it can be written.
pub fn has_counts(chunk: &Chunk) -> bool
    ensures { IsTrue result ↔ HasCounts (chunk_of chunk.now) }
{
    chunk_counts(chunk)
}

fn chunk_counts(chunk: &Chunk) -> bool
    ensures { result ≡ test.has_counts (chunk_of chunk.now) }
{
    is_count(chunk.strings.len())
        && lengths(chunk.strings.as_slice())
        && is_count(chunk.protos.len())
        && protos_counts(chunk.protos.as_slice())
}

fn is_count(n: usize) -> bool
    ensures { result ≡ nat_lt n most_number }
{
    n < MOST_NUMBER
}

fn lengths(strings: &[Bytes]) -> bool
    ensures { result ≡ list_all (λ s. test.is_count s) strings.now }
{
    for string in strings {
        if !is_count(string.as_slice().len()) {
            return false;
        }
    }
    true
}

fn protos_counts(protos: &[Proto]) -> bool
    ensures { result ≡ list_all test.has_counts_in (map proto_of protos.now) }
{
    for proto in protos {
        if !proto_counts(proto) {
            return false;
        }
    }
    true
}

fn proto_counts(proto: &Proto) -> bool
    ensures { result ≡ test.has_counts_in (proto_of proto.now) }
{
    is_count(proto.code.len()) && is_count(proto.consts.len()) && is_count(proto.children.len())
}
