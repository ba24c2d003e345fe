//! A function's code.

use byte_text::StrId;
use whole_num::Whole;

/// A constant of a function.
#[derive(Clone, Copy)]
pub enum Constant {
    Number(Whole),
    Text(StrId),
}

/// A function's words and constants.
#[derive(Drop)]
pub struct Code {
    pub words: Vec<u32>,
    pub constants: Vec<Constant>,
}
