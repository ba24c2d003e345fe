//! Laws of upvalues.

ghost use Rattle.upvalue_laws.specs.Laws.{UpvaluesFit, UpvaluesAreFew};

/// In the code of each function of a script, each instruction that names an upvalue names one that the function has.
pub fn upvalues_fit()
    ensures { UpvaluesFit }
{}

/// A function of a script that breaks no rule has at most 200 upvalues.
pub fn upvalues_are_few()
    ensures { UpvaluesAreFew }
{}
