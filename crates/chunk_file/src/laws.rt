//! What reading has to do with spelling. Each function does nothing: its contract is the law.

ghost use Rattle.chunk_file.specs.Laws.{HasOneChunk, NoPrefix, ReadsBeginnings, ReadsSpellings, ReadsTrailing};

/// Two chunks of one spelling are one, and no spelling is the beginning of another.
pub fn one_spelling()
    ensures one { HasOneChunk }
    ensures prefix { NoPrefix }
{}

/// A file is read as a chunk exactly where it is the chunk's spelling, as cut off exactly where it begins one and ends before it
/// does, and as followed by more exactly where it is one with bytes behind it.
pub fn reads_spellings()
    ensures chunks { ReadsSpellings }
    ensures beginnings { ReadsBeginnings }
    ensures trailing { ReadsTrailing }
{}
