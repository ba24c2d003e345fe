//! Operators that a metamethod may answer.

ghost use Rattle.std.specs.Prelude.{◌≡◌};
ghost use Rattle.value_model.specs.Errors.{operator_name};

/// An arithmetic operator.
#[derive(Clone, Copy, PartialEq, Eq, Hash, Debug)]
pub enum ArithOp {
    Add,
    Sub,
    Mul,
    Div,
    Idiv,
    Mod,
    Pow,
    /// The minus of one operand.
    Unm,
}

impl ArithOp {
    /// The operator's name in run errors, as `add`.
    pub fn name(self) -> &'static str
        ensures { result.now ≡ operator_name self }
    {
        match self {
            ArithOp::Add => "add",
            ArithOp::Sub => "sub",
            ArithOp::Mul => "mul",
            ArithOp::Div => "div",
            ArithOp::Idiv => "idiv",
            ArithOp::Mod => "mod",
            ArithOp::Pow => "pow",
            ArithOp::Unm => "unm",
        }
    }
}

/// A comparison. The greater forms are these with their operands exchanged.
#[derive(Clone, Copy, PartialEq, Eq, Hash, Debug)]
pub enum CompareOp {
    Eq,
    Lt,
    Le,
}
