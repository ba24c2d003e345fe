//! The instructions of operators, and the code of constants.

ghost use Rattle.std.specs.Prelude.{◌≡◌};
ghost use Rattle.emit_expr.specs.Operators as spec;
ghost use Rattle.emit_expr.specs.Puts.{Went};

use crate::draft::{Emitter, short};
use byte_text::StrId;
use op_words::{Const, Insn};
use syntax_tree::{BinOp, UnOp};
use whole_num::Whole;

/// The instruction of an operator before one operand.
pub fn unary_insn(op: UnOp, to: u8, operand: u8) -> Insn
    ensures { result ≡ spec.unary_insn op to operand }
{
    match op {
        UnOp::Not => Insn::Not { to, operand },
        UnOp::Len => Insn::Length { to, operand },
        UnOp::Minus => Insn::Minus { to, operand },
    }
}

/// Arithmetic on two registers.
pub fn arithmetic(op: BinOp, to: u8, left: u8, right: u8) -> Insn
    ensures { result ≡ spec.arithmetic op to left right }
{
    match op {
        BinOp::Add => Insn::Add { to, left, right },
        BinOp::Sub => Insn::Sub { to, left, right },
        BinOp::Mul => Insn::Mul { to, left, right },
        BinOp::Div => Insn::Div { to, left, right },
        BinOp::Idiv => Insn::Idiv { to, left, right },
        BinOp::Mod => Insn::Mod { to, left, right },
        BinOp::Pow => Insn::Pow { to, left, right },
        BinOp::Or | BinOp::And | BinOp::Lt | BinOp::Gt | BinOp::Le => Insn::LoadNil { to },
        BinOp::Ge | BinOp::Ne | BinOp::Eq | BinOp::Concat => Insn::LoadNil { to },
    }
}

/// Arithmetic on a register and a constant.
pub fn arithmetic_constant(op: BinOp, to: u8, left: u8, constant: u8) -> Insn
    ensures { result ≡ spec.arithmetic_constant op to left constant }
{
    match op {
        BinOp::Add => Insn::AddK { to, left, constant },
        BinOp::Sub => Insn::SubK { to, left, constant },
        BinOp::Mul => Insn::MulK { to, left, constant },
        BinOp::Div => Insn::DivK { to, left, constant },
        BinOp::Idiv => Insn::IdivK { to, left, constant },
        BinOp::Mod => Insn::ModK { to, left, constant },
        BinOp::Pow => Insn::PowK { to, left, constant },
        BinOp::Or | BinOp::And | BinOp::Lt | BinOp::Gt | BinOp::Le => Insn::LoadNil { to },
        BinOp::Ge | BinOp::Ne | BinOp::Eq | BinOp::Concat => Insn::LoadNil { to },
    }
}

/// Subtraction or division of a constant by a register.
pub fn from_constant(op: BinOp, to: u8, constant: u8, right: u8) -> Insn
    ensures { result ≡ spec.from_constant op to constant right }
{
    match op {
        BinOp::Sub => Insn::SubRK {
            to,
            constant,
            right,
        },
        BinOp::Div => Insn::DivRK {
            to,
            constant,
            right,
        },
        _ => Insn::LoadNil { to },
    }
}

/// Whether there is an instruction for the operator with a constant on the left.
pub fn takes_left(op: BinOp) -> bool
    ensures { result ≡ spec.takes_left op }
{
    match op {
        BinOp::Sub | BinOp::Div => true,
        _ => false,
    }
}

pub fn is_comparison(op: BinOp) -> bool
    ensures { result ≡ spec.is_comparison op }
{
    match op {
        BinOp::Lt | BinOp::Gt | BinOp::Le | BinOp::Ge | BinOp::Ne | BinOp::Eq => true,
        _ => false,
    }
}

/// The jump that is taken where the two registers are equal, or where they are not.
fn equality(so: bool, left: u8, right: u8) -> Insn
    ensures { result ≡ spec.equality so left right }
{
    let right = right as u32;
    if so {
        Insn::JumpIfEq { left, by: 0, right }
    } else {
        Insn::JumpIfNotEq { left, by: 0, right }
    }
}

fn less(so: bool, left: u8, right: u8) -> Insn
    ensures { result ≡ spec.less so left right }
{
    let right = right as u32;
    if so {
        Insn::JumpIfLt { left, by: 0, right }
    } else {
        Insn::JumpIfNotLt { left, by: 0, right }
    }
}

fn at_most(so: bool, left: u8, right: u8) -> Insn
    ensures { result ≡ spec.at_most so left right }
{
    let right = right as u32;
    if so {
        Insn::JumpIfLe { left, by: 0, right }
    } else {
        Insn::JumpIfNotLe { left, by: 0, right }
    }
}

/// The jump that is taken where the comparison is so, or where it is not.
pub fn comparison(op: BinOp, so: bool, left: u8, right: u8) -> Insn
    ensures { result ≡ spec.comparison op so left right }
{
    match op {
        BinOp::Eq => equality(so, left, right),
        BinOp::Ne => equality(!so, left, right),
        BinOp::Lt => less(so, left, right),
        BinOp::Gt => less(so, right, left),
        BinOp::Le => at_most(so, left, right),
        BinOp::Ge => at_most(so, right, left),
        _ => Insn::Jump { by: 0 },
    }
}

/// The jump that is taken where the register's value is true, or where it is false.
pub fn truth(so: bool, value: u8) -> Insn
    ensures { result ≡ spec.truth so value }
{
    if so {
        Insn::JumpIf { value, by: 0 }
    } else {
        Insn::JumpIfNot { value, by: 0 }
    }
}

impl Emitter {
    /// A number into a register.
    pub fn load_number(&mut self, n: Whole, to: u8)
        ensures { Went self.old self.new (spec.number_run n to self.old) }
    {
        let value = n.get();
        if -32768 <= value && value <= 32767 {
            self.insn(Insn::LoadN {
                to,
                value: value as i16,
            })
        } else {
            let constant = short(self.constant(Const::Num(n)));
            self.insn(Insn::LoadK { to, constant })
        }
    }

    /// A text into a register.
    pub fn load_text(&mut self, text: StrId, to: u8)
        ensures { Went self.old self.new (spec.text_run text to self.old) }
    {
        let constant = short(self.text(text));
        self.insn(Insn::LoadK { to, constant })
    }

    /// Whether an instruction may have the number as an operand: its constant is one of the first 256.
    pub fn is_near(&self, n: Whole) -> bool
        ensures { result ≡ spec.is_near n self.now }
    {
        self.constant_place(&Const::Num(n)) <= 255
    }
}
