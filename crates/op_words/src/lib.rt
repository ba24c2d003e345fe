//! The machine's instructions, and the words that they are packed into.
//!
//! Each instruction has a line in `row` of `specs/Encoding.antt`, which says what it is packed of, and one in `table` of
//! `specs/Decoding.antt`, which says by its opcode how it is made of a word. In the code the first is `Insn::opcode` and
//! its form's arm of `Insn::operands`, and the second is `Parts::named`. Everything else is said and proved once, for all
//! instructions: an instruction stands where its own row has the word's parts.
//!
//! How an instruction is written as text stands in `written` of `specs/Names.antt`, and in the code in `Insn::written`.
#![tactic(auto)]

mod chunk;
mod decoding;
mod encoding;
mod insn;
mod names;

pub use chunk::{Chunk, Const, Proto};
pub use decoding::decode;
pub use encoding::{Words, encode};
pub use insn::Insn;
pub use names::FieldName;
