//! Laws of decoded code.

ghost use Rattle.machine_code.specs.Laws.{ConstantsAreKnown, GrowthKeepsCode, ImportsKeepCode, LinesAreFetched, LinesAreRows};

/// Decoded code stays the chunk's when texts come behind those that the interner held.
pub fn growth_keeps_code()
    ensures { GrowthKeepsCode }
{}

/// A function stays the chunk's, whatever its imports hold.
pub fn imports_keep_code()
    ensures { ImportsKeepCode }
{}

/// Where an instruction stands in the chunk, the decoded code has a line, and it is that one.
pub fn lines_are_fetched()
    ensures { LinesAreFetched }
{}

/// At each place of the code the machine's rule is the row of the line there.
pub fn lines_are_rows()
    ensures { LinesAreRows }
{}

/// Where the chunk has a value as a constant, the decoded code has it too.
pub fn constants_are_known()
    ensures { ConstantsAreKnown }
{}
