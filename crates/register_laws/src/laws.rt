//! Laws of registers.

ghost use Rattle.register_laws.specs.Laws.{RegistersFound};

/// In a script whose nodes are numbered in source order, each function has the registers that the list says.
pub fn registers_found()
    ensures { RegistersFound }
{}
