//! Instructions as text: their names, and the fields that they name.

ghost use Rattle.op_words.specs.Names.{fields_of, name_of, operand};
ghost use Rattle.std.specs.Prelude.{◌≡◌};

use crate::encoding::Fields::{self, Abc, Ad};
use crate::encoding::Row;
use crate::insn::Insn;

/// A field of an instruction's words.
#[derive(Clone, Copy, PartialEq, Eq, Debug)]
pub enum FieldName {
    A,
    B,
    C,
    D,
    E,
    /// The second word.
    X,
}

// The fields that an instruction names, in their order.
const A: &[FieldName] = &[FieldName::A];

const AB: &[FieldName] = &[FieldName::A, FieldName::B];

const ABC: &[FieldName] = &[FieldName::A, FieldName::B, FieldName::C];

const ABCX: &[FieldName] = &[FieldName::A, FieldName::B, FieldName::C, FieldName::X];

const ABX: &[FieldName] = &[FieldName::A, FieldName::B, FieldName::X];

const AC: &[FieldName] = &[FieldName::A, FieldName::C];

const AD: &[FieldName] = &[FieldName::A, FieldName::D];

const ADX: &[FieldName] = &[FieldName::A, FieldName::D, FieldName::X];

const AX: &[FieldName] = &[FieldName::A, FieldName::X];

const D: &[FieldName] = &[FieldName::D];

const E: &[FieldName] = &[FieldName::E];

impl Insn {
    /// The instruction's name, and the fields that stand behind it where it is written, in their order.
    #[tactic(auto, unfolding(crate::specs::Names::name_of, crate::specs::Names::fields_of))]
    pub fn written(&self) -> (&'static str, &'static [FieldName])
        ensures name { result.0.now ≡ name_of self.now }
        ensures fields { result.1.now ≡ fields_of self.now }
    {
        match *self {
            Insn::Nop { .. } => ("NOP", E),
            Insn::LoadNil { .. } => ("LOADNIL", A),
            Insn::LoadB { .. } => ("LOADB", ABC),
            Insn::LoadN { .. } => ("LOADN", AD),
            Insn::LoadK { .. } => ("LOADK", AD),
            Insn::Move { .. } => ("MOVE", AB),
            Insn::GetGlobal { .. } => ("GETGLOBAL", AX),
            Insn::SetGlobal { .. } => ("SETGLOBAL", AX),
            Insn::GetUpvalue { .. } => ("GETUPVAL", AB),
            Insn::SetUpvalue { .. } => ("SETUPVAL", AB),
            Insn::CloseUpvalues { .. } => ("CLOSEUPVALS", A),
            Insn::GetImport { .. } => ("GETIMPORT", ADX),
            Insn::GetTable { .. } => ("GETTABLE", ABC),
            Insn::SetTable { .. } => ("SETTABLE", ABC),
            Insn::GetTableKS { .. } => ("GETTABLEKS", ABX),
            Insn::SetTableKS { .. } => ("SETTABLEKS", ABX),
            Insn::GetTableN { .. } => ("GETTABLEN", ABC),
            Insn::SetTableN { .. } => ("SETTABLEN", ABC),
            Insn::NewClosure { .. } => ("NEWCLOSURE", AD),
            Insn::NameCall { .. } => ("NAMECALL", ABX),
            Insn::Call { .. } => ("CALL", ABC),
            Insn::Return { .. } => ("RETURN", AB),
            Insn::Jump { .. } => ("JUMP", D),
            Insn::JumpBack { .. } => ("JUMPBACK", D),
            Insn::JumpIf { .. } => ("JUMPIF", AD),
            Insn::JumpIfNot { .. } => ("JUMPIFNOT", AD),
            Insn::JumpIfEq { .. } => ("JUMPIFEQ", ADX),
            Insn::JumpIfLe { .. } => ("JUMPIFLE", ADX),
            Insn::JumpIfLt { .. } => ("JUMPIFLT", ADX),
            Insn::JumpIfNotEq { .. } => ("JUMPIFNOTEQ", ADX),
            Insn::JumpIfNotLe { .. } => ("JUMPIFNOTLE", ADX),
            Insn::JumpIfNotLt { .. } => ("JUMPIFNOTLT", ADX),
            Insn::Add { .. } => ("ADD", ABC),
            Insn::Sub { .. } => ("SUB", ABC),
            Insn::Mul { .. } => ("MUL", ABC),
            Insn::Div { .. } => ("DIV", ABC),
            Insn::Mod { .. } => ("MOD", ABC),
            Insn::Pow { .. } => ("POW", ABC),
            Insn::Idiv { .. } => ("IDIV", ABC),
            Insn::AddK { .. } => ("ADDK", ABC),
            Insn::SubK { .. } => ("SUBK", ABC),
            Insn::MulK { .. } => ("MULK", ABC),
            Insn::DivK { .. } => ("DIVK", ABC),
            Insn::ModK { .. } => ("MODK", ABC),
            Insn::PowK { .. } => ("POWK", ABC),
            Insn::IdivK { .. } => ("IDIVK", ABC),
            Insn::SubRK { .. } => ("SUBRK", ABC),
            Insn::DivRK { .. } => ("DIVRK", ABC),
            Insn::And { .. } => ("AND", ABC),
            Insn::Or { .. } => ("OR", ABC),
            Insn::AndK { .. } => ("ANDK", ABC),
            Insn::OrK { .. } => ("ORK", ABC),
            Insn::Concat { .. } => ("CONCAT", ABC),
            Insn::Not { .. } => ("NOT", AB),
            Insn::Minus { .. } => ("MINUS", AB),
            Insn::Length { .. } => ("LENGTH", AB),
            Insn::NewTable { .. } => ("NEWTABLE", A),
            Insn::SetList { .. } => ("SETLIST", ABCX),
            Insn::ForNPrep { .. } => ("FORNPREP", AD),
            Insn::ForNLoop { .. } => ("FORNLOOP", AD),
            Insn::ForGPrep { .. } => ("FORGPREP", AD),
            Insn::ForGLoop { .. } => ("FORGLOOP", ADX),
            Insn::GetVarargs { .. } => ("GETVARARGS", AB),
            Insn::PrepVarargs { .. } => ("PREPVARARGS", A),
            Insn::Capture { .. } => ("CAPTURE", AB),
            Insn::FastCall { .. } => ("FASTCALL", AC),
            Insn::FastCall1 { .. } => ("FASTCALL1", ABC),
            Insn::FastCall2 { .. } => ("FASTCALL2", ABCX),
            Insn::FastCall2K { .. } => ("FASTCALL2K", ABCX),
            Insn::JumpX { .. } => ("JUMPX", E),
            Insn::LoadKX { .. } => ("LOADKX", AX),
            Insn::JumpXEqKNil { .. } => ("JUMPXEQKNIL", ADX),
            Insn::JumpXEqKB { .. } => ("JUMPXEQKB", ADX),
            Insn::JumpXEqKN { .. } => ("JUMPXEQKN", ADX),
            Insn::JumpXEqKS { .. } => ("JUMPXEQKS", ADX),
        }
    }

    /// What a field holds. A field that the instruction's words do not have holds 0.
    #[tactic(auto, unfolding(crate::specs::Names::operand))]
    pub fn operand(&self, field: FieldName) -> i64
        ensures { result ≡ operand self.now field }
    {
        let Row { fields, aux, .. } = self.row();
        match (field, fields) {
            (FieldName::A, Abc(a, _, _) | Ad(a, _)) => i64::from(a),
            (FieldName::B, Abc(_, b, _)) => i64::from(b),
            (FieldName::C, Abc(_, _, c)) => i64::from(c),
            (FieldName::D, Ad(_, d)) => i64::from(d),
            (FieldName::E, Fields::E(e)) => i64::from(e),
            (FieldName::X, _) => i64::from(aux.unwrap_or(0)),
            _ => 0,
        }
    }
}
