//! Instructions packed into words.

ghost use Rattle.std.specs.Prelude.{◌≡◌, length};
ghost use Rattle.std.specs.Cmp.{on_equiv, partial_equiv_from_equiv};
ghost use Rattle.std.specs.Ordering.{on};
ghost use Rattle.op_words.specs.Encoding.{encoded, row, word_of, words_of};

use crate::insn::Insn;
use Fields::{Abc, Ad, E};
use std::fmt;

/// The one or two words of an instruction.
#[derive(Clone, Copy)]
pub struct Words {
    pub first: u32,
    /// The word that follows, of an instruction that has one.
    pub aux: Option<u32>,
}

/// What an instruction's first word holds behind the opcode. A field that an instruction does not name is 0.
#[derive(Clone, Copy, PartialEq, Eq, Debug)]
pub enum Fields {
    /// A, B and C, of 8 bits each.
    Abc(u8, u8, u8),
    /// A of 8 bits, and the signed D of 16.
    Ad(u8, i16),
    /// The signed E of 24 bits.
    E(i32),
}

/// An instruction as it stands in the table.
#[derive(Clone, Copy, PartialEq, Eq, Debug)]
pub struct Row {
    pub opcode: u8,
    pub fields: Fields,
    pub aux: Option<u32>,
}

/// The words of an instruction.
pub fn encode(insn: &Insn) -> Words
    ensures { words_of result ≡ encoded insn.now }
{
    let row = insn.row();
    Words {
        first: row.pack(),
        aux: row.aux,
    }
}

impl Insn {
    /// How many words the instruction takes, 1 or 2.
    pub fn word_count(&self) -> usize
        ensures { result ≡ length (encoded self.now) }
    {
        match self.row().aux {
            None => 1,
            Some(_) => 2,
        }
    }

    /// The instruction's row of the table.
    pub(crate) fn row(&self) -> Row
        ensures { result ≡ row self.now }
    {
        let (fields, aux) = self.operands();
        Row {
            opcode: self.opcode(),
            fields,
            aux,
        }
    }

    fn opcode(&self) -> u8
        ensures { result ≡ (row self.now).opcode }
    {
        match *self {
            Insn::Nop { .. } => 0,
            Insn::LoadNil { .. } => 1,
            Insn::LoadB { .. } => 2,
            Insn::LoadN { .. } => 3,
            Insn::LoadK { .. } => 4,
            Insn::Move { .. } => 5,
            Insn::GetGlobal { .. } => 6,
            Insn::SetGlobal { .. } => 7,
            Insn::GetUpvalue { .. } => 8,
            Insn::SetUpvalue { .. } => 9,
            Insn::CloseUpvalues { .. } => 10,
            Insn::GetImport { .. } => 11,
            Insn::GetTable { .. } => 12,
            Insn::SetTable { .. } => 13,
            Insn::GetTableKS { .. } => 14,
            Insn::SetTableKS { .. } => 15,
            Insn::GetTableN { .. } => 16,
            Insn::SetTableN { .. } => 17,
            Insn::NewClosure { .. } => 18,
            Insn::NameCall { .. } => 19,
            Insn::Call { .. } => 20,
            Insn::Return { .. } => 21,
            Insn::Jump { .. } => 22,
            Insn::JumpBack { .. } => 23,
            Insn::JumpIf { .. } => 24,
            Insn::JumpIfNot { .. } => 25,
            Insn::JumpIfEq { .. } => 26,
            Insn::JumpIfLe { .. } => 27,
            Insn::JumpIfLt { .. } => 28,
            Insn::JumpIfNotEq { .. } => 29,
            Insn::JumpIfNotLe { .. } => 30,
            Insn::JumpIfNotLt { .. } => 31,
            Insn::Add { .. } => 32,
            Insn::Sub { .. } => 33,
            Insn::Mul { .. } => 34,
            Insn::Div { .. } => 35,
            Insn::Mod { .. } => 36,
            Insn::Pow { .. } => 37,
            Insn::Idiv { .. } => 38,
            Insn::AddK { .. } => 39,
            Insn::SubK { .. } => 40,
            Insn::MulK { .. } => 41,
            Insn::DivK { .. } => 42,
            Insn::ModK { .. } => 43,
            Insn::PowK { .. } => 44,
            Insn::IdivK { .. } => 45,
            Insn::SubRK { .. } => 46,
            Insn::DivRK { .. } => 47,
            Insn::And { .. } => 48,
            Insn::Or { .. } => 49,
            Insn::AndK { .. } => 50,
            Insn::OrK { .. } => 51,
            Insn::Concat { .. } => 52,
            Insn::Not { .. } => 53,
            Insn::Minus { .. } => 54,
            Insn::Length { .. } => 55,
            Insn::NewTable { .. } => 56,
            Insn::SetList { .. } => 57,
            Insn::ForNPrep { .. } => 58,
            Insn::ForNLoop { .. } => 59,
            Insn::ForGPrep { .. } => 60,
            Insn::ForGLoop { .. } => 61,
            Insn::GetVarargs { .. } => 62,
            Insn::PrepVarargs { .. } => 63,
            Insn::Capture { .. } => 64,
            Insn::FastCall { .. } => 65,
            Insn::FastCall1 { .. } => 66,
            Insn::FastCall2 { .. } => 67,
            Insn::FastCall2K { .. } => 68,
            Insn::JumpX { .. } => 69,
            Insn::LoadKX { .. } => 70,
            Insn::JumpXEqKNil { .. } => 71,
            Insn::JumpXEqKB { .. } => 72,
            Insn::JumpXEqKN { .. } => 73,
            Insn::JumpXEqKS { .. } => 74,
        }
    }

    /// What stands behind the opcode, in one arm for each form: the fields that its instructions name, and the second word.
    fn operands(&self) -> (Fields, Option<u32>)
        ensures { let r = row self.now in result ≡ (r.fields, r.aux) }
    {
        match *self {
            Insn::Nop { turns: e } | Insn::JumpX { by: e } => (E(e), None),
            Insn::LoadNil { to: a }
            | Insn::CloseUpvalues { from: a }
            | Insn::PrepVarargs { parameters: a } => (Abc(a, 0, 0), None),
            Insn::Move { to: a, from: b }
            | Insn::GetUpvalue { to: a, upvalue: b }
            | Insn::SetUpvalue {
                from: a,
                upvalue: b,
            }
            | Insn::Return { base: a, values: b }
            | Insn::Not { to: a, operand: b }
            | Insn::Minus { to: a, operand: b }
            | Insn::Length { to: a, operand: b }
            | Insn::GetVarargs { base: a, values: b }
            | Insn::Capture { kind: a, from: b } => (Abc(a, b, 0), None),
            Insn::LoadB {
                to: a,
                value: b,
                skip: c,
            }
            | Insn::GetTable {
                to: a,
                table: b,
                key: c,
            }
            | Insn::SetTable {
                from: a,
                table: b,
                key: c,
            }
            | Insn::GetTableN {
                to: a,
                table: b,
                index: c,
            }
            | Insn::SetTableN {
                from: a,
                table: b,
                index: c,
            }
            | Insn::Call {
                base: a,
                arguments: b,
                results: c,
            }
            | Insn::Add {
                to: a,
                left: b,
                right: c,
            }
            | Insn::Sub {
                to: a,
                left: b,
                right: c,
            }
            | Insn::Mul {
                to: a,
                left: b,
                right: c,
            }
            | Insn::Div {
                to: a,
                left: b,
                right: c,
            }
            | Insn::Mod {
                to: a,
                left: b,
                right: c,
            }
            | Insn::Pow {
                to: a,
                left: b,
                right: c,
            }
            | Insn::Idiv {
                to: a,
                left: b,
                right: c,
            }
            | Insn::AddK {
                to: a,
                left: b,
                constant: c,
            }
            | Insn::SubK {
                to: a,
                left: b,
                constant: c,
            }
            | Insn::MulK {
                to: a,
                left: b,
                constant: c,
            }
            | Insn::DivK {
                to: a,
                left: b,
                constant: c,
            }
            | Insn::ModK {
                to: a,
                left: b,
                constant: c,
            }
            | Insn::PowK {
                to: a,
                left: b,
                constant: c,
            }
            | Insn::IdivK {
                to: a,
                left: b,
                constant: c,
            }
            | Insn::SubRK {
                to: a,
                constant: b,
                right: c,
            }
            | Insn::DivRK {
                to: a,
                constant: b,
                right: c,
            }
            | Insn::And {
                to: a,
                left: b,
                right: c,
            }
            | Insn::Or {
                to: a,
                left: b,
                right: c,
            }
            | Insn::AndK {
                to: a,
                left: b,
                constant: c,
            }
            | Insn::OrK {
                to: a,
                left: b,
                constant: c,
            }
            | Insn::Concat {
                to: a,
                first: b,
                last: c,
            }
            | Insn::FastCall1 {
                builtin: a,
                argument: b,
                skip: c,
            } => (Abc(a, b, c), None),
            Insn::FastCall {
                builtin: a,
                skip: c,
            } => (Abc(a, 0, c), None),
            Insn::Jump { by: d } | Insn::JumpBack { by: d } => (Ad(0, d), None),
            Insn::LoadN { to: a, value: d }
            | Insn::LoadK { to: a, constant: d }
            | Insn::NewClosure { to: a, child: d }
            | Insn::JumpIf { value: a, by: d }
            | Insn::JumpIfNot { value: a, by: d }
            | Insn::ForNPrep { base: a, by: d }
            | Insn::ForNLoop { base: a, by: d }
            | Insn::ForGPrep { base: a, by: d } => (Ad(a, d), None),
            Insn::GetGlobal { to: a, constant: x }
            | Insn::SetGlobal {
                from: a,
                constant: x,
            }
            | Insn::LoadKX { to: a, constant: x } => (Abc(a, 0, 0), Some(x)),
            Insn::GetTableKS {
                to: a,
                table: b,
                constant: x,
            }
            | Insn::SetTableKS {
                from: a,
                table: b,
                constant: x,
            }
            | Insn::NameCall {
                base: a,
                object: b,
                constant: x,
            } => (Abc(a, b, 0), Some(x)),
            Insn::SetList {
                table: a,
                from: b,
                count: c,
                key: x,
            }
            | Insn::FastCall2 {
                builtin: a,
                first: b,
                skip: c,
                second: x,
            }
            | Insn::FastCall2K {
                builtin: a,
                first: b,
                skip: c,
                constant: x,
            } => (Abc(a, b, c), Some(x)),
            Insn::GetImport {
                to: a,
                constant: d,
                path: x,
            }
            | Insn::JumpIfEq {
                left: a,
                by: d,
                right: x,
            }
            | Insn::JumpIfLe {
                left: a,
                by: d,
                right: x,
            }
            | Insn::JumpIfLt {
                left: a,
                by: d,
                right: x,
            }
            | Insn::JumpIfNotEq {
                left: a,
                by: d,
                right: x,
            }
            | Insn::JumpIfNotLe {
                left: a,
                by: d,
                right: x,
            }
            | Insn::JumpIfNotLt {
                left: a,
                by: d,
                right: x,
            }
            | Insn::ForGLoop {
                base: a,
                by: d,
                variables: x,
            }
            | Insn::JumpXEqKNil {
                value: a,
                by: d,
                test: x,
            }
            | Insn::JumpXEqKB {
                value: a,
                by: d,
                test: x,
            }
            | Insn::JumpXEqKN {
                value: a,
                by: d,
                test: x,
            }
            | Insn::JumpXEqKS {
                value: a,
                by: d,
                test: x,
            } => (Ad(a, d), Some(x)),
            Insn::NewTable { to: a } => (Abc(a, 0, 0), Some(0)),
        }
    }
}

impl Row {
    fn pack(&self) -> u32
        ensures { result ≡ word_of self.now }
    {
        match self.fields {
            Abc(a, b, c) => u32::from_le_bytes([self.opcode, a, b, c]),
            Ad(a, d) => {
                let [low, high] = d.to_le_bytes();
                u32::from_le_bytes([self.opcode, a, low, high])
            }
            E(e) => {
                let [low, middle, high, _] = e.to_le_bytes();
                u32::from_le_bytes([self.opcode, low, middle, high])
            }
        }
    }
}

// An instruction is compared and shown by its row. Two instructions with one row are the same, since each has its own
// opcode, and a derive would take both apart variant by variant.

impl PartialEq for Insn {
    ghost use Rattle.op_words.specs.contracts.encoding.RowPartialEq.TheImpl as rows;
    ghost use Rattle.op_words.specs.contracts.encoding.RowEq.TheImpl.Laws.{laws-law};

    ghost eq = { on row (rows.ghosts).eq };

    ghost laws = { partial_equiv_from_equiv (on_equiv row laws-law) };

    fn eq(&self, other: &Insn) -> bool {
        self.row() == other.row()
    }
}

impl Eq for Insn {
    ghost use Rattle.op_words.specs.contracts.encoding.RowEq.TheImpl.Laws.{laws-law};

    ghost laws = { on_equiv row laws-law };
}

impl fmt::Debug for Insn {
    fn fmt<W: fmt::Write>(&self, f: &mut fmt::Formatter<W>) -> fmt::Result {
        self.row().fmt(f)
    }
}
