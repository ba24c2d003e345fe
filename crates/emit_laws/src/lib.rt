//! Laws of the code of nodes.
#![tactic(auto)]

ghost use Rattle.emit_laws.specs.Growing.{CodeGrows};

/// The code of each node goes behind what was there, and so do its constants, variables and functions.
pub fn code_grows()
    ensures { CodeGrows }
{}
