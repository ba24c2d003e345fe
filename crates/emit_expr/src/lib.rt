//! What the code of a script is made of: the functions that are being emitted, their constants, the names in scope and the
//! instructions of operators.
//!
//! Each method says by one equation what the emitter is afterwards. None can fail: where memory ran out the emitter is lost
//! from then on, and nothing is said of it.
#![tactic(auto)]

mod draft;
mod names;
mod operators;

pub use draft::{
    Draft, Emitter, Loop, Mark, Prototype, Variable, Variables, label, long, narrow, short,
};
pub use names::{bound_at, first_at, is_captured, own_of};
pub use operators::{
    arithmetic, arithmetic_constant, comparison, from_constant, is_comparison, takes_left, truth,
    unary_insn,
};
