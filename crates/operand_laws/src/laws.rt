//! Laws of operands.

ghost use Rattle.operand_laws.specs.Laws.{OperandsFit};

/// In the code of each function of a script that breaks no rule, each instruction's fields fit their bits, and the registers that it names
/// are among those that the function needs.
pub fn operands_fit()
    ensures { OperandsFit }
{}
