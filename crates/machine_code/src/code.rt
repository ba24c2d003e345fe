//! Decoded code.

ghost use Rattle.std.specs.Prelude.{◌≡◌, ◌<◌, List, length, pos, Some, slice_get};
ghost use Rattle.op_words.specs.Chunks.{ChunkOf, ProtoOf};
ghost use Rattle.value_model.specs.Parts.{meant};
ghost use Rattle.value_model.specs.Values.{Bytes};
ghost use Rattle.machine_code.specs.Code.{IsConstant, IsFunctionOf};
ghost use Rattle.machine_code.specs.Rows.{IsRowAt, StandsFor};

use op_words::Insn;
use sqlite_items::Items;
use value_model::Value;

/// An instruction, and the place behind its words.
///
/// Where no instruction begins stands one that has no rule: a `Nop` of less than no turns.
#[derive(Clone, Copy)]
pub struct Line {
    pub insn: Insn,
    pub next: usize,
}

/// The code of a function.
#[derive(Drop)]
pub struct Function {
    /// How many registers its frame has.
    pub registers: u8,
    pub params: u8,
    pub upvalues: u8,
    /// Whether it takes any number of arguments beside its parameters.
    pub vararg: bool,
    /// The instruction at each place, counted in words.
    pub lines: Items<Line>,
    /// The value of each constant, and nil in place of an import's.
    pub consts: Items<Value>,
    /// What each import constant holds, where its names led to a value when the code was loaded.
    pub imports: Items<Option<Value>>,
    /// The numbers of the functions whose closures it makes.
    pub children: Items<u32>,
}

/// The code of a script: its functions, by number, and which of them is the main one.
#[derive(Drop)]
pub struct Code {
    pub functions: Items<Function>,
    pub main: usize,
}

impl Code {
    /// The function of a number.
    pub fn function(&self, number: usize) -> &Function
        requires { number < length self.now.functions }
        ensures { slice_get self.now.functions number ≡ Some result.now }
    {
        &self.functions.as_slice()[number]
    }
}

impl Function {
    /// The instruction at a place.
    pub fn line(&self, place: usize) -> Line
        requires { place < length self.now.lines }
        ensures entry { slice_get self.now.lines place ≡ Some result }
        ensures row { (chunk : ChunkOf) (texts : List Bytes) (p : ProtoOf) → IsFunctionOf chunk texts p self.now → IsRowAt chunk p.code place result }
    {
        self.lines.as_slice()[place]
    }

    /// A constant that is no import.
    pub fn constant(&self, index: usize) -> Value
        requires { index < length self.now.consts }
        ensures entry { slice_get self.now.consts index ≡ Some result }
        ensures known { (chunk : ChunkOf) (texts : List Bytes) (p : ProtoOf) → IsFunctionOf chunk texts p self.now → StandsFor chunk texts p index result }
        ensures plain { (chunk : ChunkOf) (texts : List Bytes) (p : ProtoOf) → IsFunctionOf chunk texts p self.now → IsConstant texts result }
    {
        self.consts.as_slice()[index]
    }

    /// The number of the function that a closure is made of.
    pub fn child(&self, index: usize) -> usize
        requires { index < length self.now.children }
        ensures { slice_get self.now.children index ≡ Some result }
    {
        self.children.as_slice()[index] as usize
    }
}
