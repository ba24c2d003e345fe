//! Why bytes are no chunk.

/// Why bytes are no chunk: the first wrong field, by its place in bytes from 0.
#[derive(Clone, Copy, PartialEq, Eq, Debug)]
pub enum ChunkErr {
    /// They end before the chunk does. The place is their end.
    Truncated { at: usize },
    /// A byte is not that of the four that each chunk begins with.
    BadMagic { at: usize },
    /// The version is not 1.
    BadVersion { at: usize },
    /// A kind or a flag that there is not, a number that is out of range, or a longer spelling of a number.
    BadField { at: usize },
    /// Bytes stand behind the chunk, from this place on.
    Trailing { at: usize },
    OutOfMemory,
}

impl ChunkErr {
    ghost use Rattle.std.specs.Prelude.{◌≡◌};
    ghost use Rattle.chunk_file.specs.Answers.{number_of};

    /// The number of the cause, from 30 to 34; none for want of memory.
    pub fn number(self) -> Option<u8>
        ensures { result ≡ number_of self }
    {
        match self {
            ChunkErr::Truncated { .. } => Some(30),
            ChunkErr::BadMagic { .. } => Some(31),
            ChunkErr::BadVersion { .. } => Some(32),
            ChunkErr::BadField { .. } => Some(33),
            ChunkErr::Trailing { .. } => Some(34),
            ChunkErr::OutOfMemory => None,
        }
    }
}
