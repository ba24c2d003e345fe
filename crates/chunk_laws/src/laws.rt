//! Laws of chunks.

ghost use Rattle.chunk_laws.specs.Laws.{FunctionsWellFormed};

/// A function of a chunk breaks no rule of well-formed code, where it is what was emitted for a function of a script, linked, where that
/// has the shape, and where its operands are there.
pub fn functions_well_formed()
    ensures { FunctionsWellFormed }
{}
