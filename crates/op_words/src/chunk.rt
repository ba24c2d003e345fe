//! Chunks: what a script is compiled to.

use byte_text::Bytes;
use whole_num::Whole;

/// What a script is compiled to: its strings, its functions, and which of these is the main one.
#[derive(Debug, Drop)]
pub struct Chunk {
    pub strings: Vec<Bytes>,
    pub protos: Vec<Proto>,
    /// The number of the main function among the prototypes, from 0.
    pub main: u32,
}

/// The code of a function, with what it stands on.
#[derive(Debug, Drop)]
pub struct Proto {
    /// How many registers its frame has.
    pub registers: u8,
    pub params: u8,
    pub upvalues: u8,
    /// Whether it takes any number of arguments beside its parameters.
    pub vararg: bool,
    pub code: Vec<u32>,
    pub consts: Vec<Const>,
    /// The numbers of the prototypes of the closures that it makes.
    pub children: Vec<u32>,
}

/// A constant of a function.
#[derive(Clone, Copy, PartialEq, Eq, Debug)]
pub enum Const {
    Nil,
    False,
    True,
    Num(Whole),
    /// A string, by its number in the chunk.
    Str(u32),
    /// The path of an import: how many names it has, 1 to 3, in the top two bits, and then the numbers of their constants, 10 bits each.
    Import(u32),
}
