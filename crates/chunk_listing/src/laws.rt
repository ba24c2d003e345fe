//! What is listed of code. The function does nothing: its contract is the law.

ghost use Rattle.chunk_listing.specs.Listing.{ListsInstructions};

/// Of code that is the words of instructions one behind another, these instructions are listed, each with the place of its first word.
pub fn lists_instructions()
    ensures { ListsInstructions }
{}
