//! Instructions read from words.

ghost use Rattle.std.specs.Prelude.{◌≡◌, ◌+◌, ◌<◌, ◌↔◌, List, ℕ, ◌++◌, length, drop, Some, IsNone, IfSome, OnSome, slice_get};
ghost use Rattle.op_words.specs.declared.insn.Insn.{Insn};
ghost use Rattle.op_words.specs.Encoding.{encoded, IsFit};
ghost use Rattle.op_words.specs.Decoding.{insn_at, insn_of, named, has_parts, has_fields, is_followed, ArePartsOf, StandsAt, far_signed};

use crate::encoding::{Fields, Row};
use crate::insn::Insn;

/// The instruction at a place of the code, and the place behind its words.
///
/// `None` exactly where no instruction stands: past the code, at another opcode, where a field that the instruction does not name is not 0, or where its second word is missing.
pub fn decode(code: &[u32], at: usize) -> Option<(Insn, usize)>
    ensures value { result ≡ insn_at code.now at }
    ensures read { (insn : Insn) (rest : List ℕ) → IsFit insn → drop at code.now ≡ encoded insn ++ rest
        → result ≡ Some (insn, at + length (encoded insn)) }
    ensures found { IfSome result (λ p. StandsAt code.now at p.0 p.1) }
    ensures none { IsNone result ↔ ((insn : Insn) (next : ℕ) → ¬ StandsAt code.now at insn next) }
{
    let word = word_at(code, at)?;
    let parts = Parts::new(word, word_at(code, at + 1));
    let insn = parts.insn()?;
    Some((insn, at + insn.word_count()))
}

fn word_at(code: &[u32], at: usize) -> Option<u32>
    ensures value { result ≡ slice_get code.now at }
    ensures place { OnSome result (at < length code.now) }
{
    code.get(at).copied()
}

/// A word taken apart in each way in which a row may name its fields, and the word that follows.
#[derive(Clone, Copy)]
pub struct Parts {
    pub opcode: u8,
    pub a: u8,
    pub b: u8,
    pub c: u8,
    /// B and C as one signed number.
    pub d: i16,
    /// A, B and C as one signed number.
    pub e: i32,
    pub aux: Option<u32>,
}

impl Parts {
    fn new(word: u32, aux: Option<u32>) -> Parts
        ensures { ArePartsOf word aux result }
    {
        let [opcode, a, b, c] = word.to_le_bytes();
        let d = i16::from_le_bytes([b, c]);
        let e = far_signed(a, b, c);
        Parts {
            opcode,
            a,
            b,
            c,
            d,
            e,
            aux,
        }
    }

    /// The instruction that the opcode names, where the word and the one behind it are its words.
    #[tactic(auto, unfolding(crate::specs::Decoding::insn_of))]
    fn insn(&self) -> Option<Insn>
        ensures { result ≡ insn_of self.now }
    {
        let insn = self.named()?;
        insn.row().has_parts(self).then_some(insn)
    }

    /// The instruction that the opcode names, whatever stands in the fields that it does not name.
    #[tactic(auto, unfolding(crate::specs::Decoding::named))]
    fn named(&self) -> Option<Insn>
        ensures { result ≡ named self.now }
    {
        let Parts { a, b, c, d, e, .. } = *self;
        let x = self.aux.unwrap_or(0);
        match self.opcode {
            0 => Some(Insn::Nop { turns: e }),
            1 => Some(Insn::LoadNil { to: a }),
            2 => Some(Insn::LoadB {
                to: a,
                value: b,
                skip: c,
            }),
            3 => Some(Insn::LoadN { to: a, value: d }),
            4 => Some(Insn::LoadK { to: a, constant: d }),
            5 => Some(Insn::Move { to: a, from: b }),
            6 => Some(Insn::GetGlobal { to: a, constant: x }),
            7 => Some(Insn::SetGlobal {
                from: a,
                constant: x,
            }),
            8 => Some(Insn::GetUpvalue { to: a, upvalue: b }),
            9 => Some(Insn::SetUpvalue {
                from: a,
                upvalue: b,
            }),
            10 => Some(Insn::CloseUpvalues { from: a }),
            11 => Some(Insn::GetImport {
                to: a,
                constant: d,
                path: x,
            }),
            12 => Some(Insn::GetTable {
                to: a,
                table: b,
                key: c,
            }),
            13 => Some(Insn::SetTable {
                from: a,
                table: b,
                key: c,
            }),
            14 => Some(Insn::GetTableKS {
                to: a,
                table: b,
                constant: x,
            }),
            15 => Some(Insn::SetTableKS {
                from: a,
                table: b,
                constant: x,
            }),
            16 => Some(Insn::GetTableN {
                to: a,
                table: b,
                index: c,
            }),
            17 => Some(Insn::SetTableN {
                from: a,
                table: b,
                index: c,
            }),
            18 => Some(Insn::NewClosure { to: a, child: d }),
            19 => Some(Insn::NameCall {
                base: a,
                object: b,
                constant: x,
            }),
            20 => Some(Insn::Call {
                base: a,
                arguments: b,
                results: c,
            }),
            21 => Some(Insn::Return { base: a, values: b }),
            22 => Some(Insn::Jump { by: d }),
            23 => Some(Insn::JumpBack { by: d }),
            24 => Some(Insn::JumpIf { value: a, by: d }),
            25 => Some(Insn::JumpIfNot { value: a, by: d }),
            26 => Some(Insn::JumpIfEq {
                left: a,
                by: d,
                right: x,
            }),
            27 => Some(Insn::JumpIfLe {
                left: a,
                by: d,
                right: x,
            }),
            28 => Some(Insn::JumpIfLt {
                left: a,
                by: d,
                right: x,
            }),
            29 => Some(Insn::JumpIfNotEq {
                left: a,
                by: d,
                right: x,
            }),
            30 => Some(Insn::JumpIfNotLe {
                left: a,
                by: d,
                right: x,
            }),
            31 => Some(Insn::JumpIfNotLt {
                left: a,
                by: d,
                right: x,
            }),
            32 => Some(Insn::Add {
                to: a,
                left: b,
                right: c,
            }),
            33 => Some(Insn::Sub {
                to: a,
                left: b,
                right: c,
            }),
            34 => Some(Insn::Mul {
                to: a,
                left: b,
                right: c,
            }),
            35 => Some(Insn::Div {
                to: a,
                left: b,
                right: c,
            }),
            36 => Some(Insn::Mod {
                to: a,
                left: b,
                right: c,
            }),
            37 => Some(Insn::Pow {
                to: a,
                left: b,
                right: c,
            }),
            38 => Some(Insn::Idiv {
                to: a,
                left: b,
                right: c,
            }),
            39 => Some(Insn::AddK {
                to: a,
                left: b,
                constant: c,
            }),
            40 => Some(Insn::SubK {
                to: a,
                left: b,
                constant: c,
            }),
            41 => Some(Insn::MulK {
                to: a,
                left: b,
                constant: c,
            }),
            42 => Some(Insn::DivK {
                to: a,
                left: b,
                constant: c,
            }),
            43 => Some(Insn::ModK {
                to: a,
                left: b,
                constant: c,
            }),
            44 => Some(Insn::PowK {
                to: a,
                left: b,
                constant: c,
            }),
            45 => Some(Insn::IdivK {
                to: a,
                left: b,
                constant: c,
            }),
            46 => Some(Insn::SubRK {
                to: a,
                constant: b,
                right: c,
            }),
            47 => Some(Insn::DivRK {
                to: a,
                constant: b,
                right: c,
            }),
            48 => Some(Insn::And {
                to: a,
                left: b,
                right: c,
            }),
            49 => Some(Insn::Or {
                to: a,
                left: b,
                right: c,
            }),
            50 => Some(Insn::AndK {
                to: a,
                left: b,
                constant: c,
            }),
            51 => Some(Insn::OrK {
                to: a,
                left: b,
                constant: c,
            }),
            52 => Some(Insn::Concat {
                to: a,
                first: b,
                last: c,
            }),
            53 => Some(Insn::Not { to: a, operand: b }),
            54 => Some(Insn::Minus { to: a, operand: b }),
            55 => Some(Insn::Length { to: a, operand: b }),
            56 => Some(Insn::NewTable { to: a }),
            57 => Some(Insn::SetList {
                table: a,
                from: b,
                count: c,
                key: x,
            }),
            58 => Some(Insn::ForNPrep { base: a, by: d }),
            59 => Some(Insn::ForNLoop { base: a, by: d }),
            60 => Some(Insn::ForGPrep { base: a, by: d }),
            61 => Some(Insn::ForGLoop {
                base: a,
                by: d,
                variables: x,
            }),
            62 => Some(Insn::GetVarargs { base: a, values: b }),
            63 => Some(Insn::PrepVarargs { parameters: a }),
            64 => Some(Insn::Capture { kind: a, from: b }),
            65 => Some(Insn::FastCall {
                builtin: a,
                skip: c,
            }),
            66 => Some(Insn::FastCall1 {
                builtin: a,
                argument: b,
                skip: c,
            }),
            67 => Some(Insn::FastCall2 {
                builtin: a,
                first: b,
                skip: c,
                second: x,
            }),
            68 => Some(Insn::FastCall2K {
                builtin: a,
                first: b,
                skip: c,
                constant: x,
            }),
            69 => Some(Insn::JumpX { by: e }),
            70 => Some(Insn::LoadKX { to: a, constant: x }),
            71 => Some(Insn::JumpXEqKNil {
                value: a,
                by: d,
                test: x,
            }),
            72 => Some(Insn::JumpXEqKB {
                value: a,
                by: d,
                test: x,
            }),
            73 => Some(Insn::JumpXEqKN {
                value: a,
                by: d,
                test: x,
            }),
            74 => Some(Insn::JumpXEqKS {
                value: a,
                by: d,
                test: x,
            }),
            _ => None,
        }
    }
}

impl Row {
    /// Whether these are the word's opcode and fields, and the word behind it is the second, where the row has one.
    fn has_parts(&self, parts: &Parts) -> bool
        ensures { result ≡ has_parts self.now parts.now }
    {
        self.opcode == parts.opcode && self.fields.are_of(parts) && is_followed(self.aux, parts.aux)
    }
}

impl Fields {
    fn are_of(&self, parts: &Parts) -> bool
        ensures { result ≡ has_fields self.now parts.now }
    {
        match *self {
            Fields::Abc(a, b, c) => a == parts.a && b == parts.b && c == parts.c,
            Fields::Ad(a, d) => a == parts.a && d == parts.d,
            Fields::E(e) => e == parts.e,
        }
    }
}

fn is_followed(aux: Option<u32>, following: Option<u32>) -> bool
    ensures { result ≡ is_followed aux following }
{
    match (aux, following) {
        (None, _) => true,
        (Some(x), Some(y)) => x == y,
        (Some(_), None) => false,
    }
}

// The signed number of three bytes, the lowest first.
fn far_signed(a: u8, b: u8, c: u8) -> i32
    ensures { result ≡ far_signed a b c }
{
    let number = a as i32 + 256 * b as i32 + 65_536 * c as i32;
    if number < 8_388_608 {
        number
    } else {
        number - 16_777_216
    }
}
