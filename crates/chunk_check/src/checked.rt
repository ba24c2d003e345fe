//! Chunks that are known to be well formed.

ghost use Rattle.machine_meaning.specs.WellFormed.{IsWellFormed};
ghost use Rattle.op_words.specs.Chunks.{chunk_of};
ghost use Rattle.std.specs.Prelude.{◌≡◌};

use op_words::Chunk;
use std::marker::Model;

/// A chunk that is well formed. Only `check` makes one. Clauses see the chunk.
#[derive(Drop)]
pub struct Checked {
    chunk: Chunk,
}

impl Model for Checked {
    ghost use Rattle.machine_meaning.specs.WellFormed.{IsWellFormed};
    ghost use Rattle.op_words.specs.Chunks.{ChunkOf, chunk_of};

    ghost Value = { ChunkOf };

    ghost view = { λ c. chunk_of c.chunk };

    ghost invariant = { λ c. IsWellFormed (chunk_of c.chunk) };
}

impl Checked {
    pub(crate) fn new(chunk: Chunk) -> Checked
        requires { IsWellFormed (chunk_of chunk) }
        ensures { result ≡ chunk_of chunk }
    {
        Checked { chunk }
    }

    /// The chunk.
    pub fn chunk(&self) -> &Chunk
        ensures chunk { chunk_of result.now ≡ self.now }
        ensures well_formed { IsWellFormed self.now }
    {
        &self.chunk
    }
}
