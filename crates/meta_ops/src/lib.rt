//! What comes of an operation on values, where a metamethod may answer.
#![tactic(auto)]

mod arithmetic;
mod calling;
mod comparing;
mod indexing;
mod joining;
mod measuring;
mod metamethod;
mod outcome;
mod storing;

pub use arithmetic::arith;
pub use calling::call_target;
pub use comparing::compare;
pub use indexing::index;
pub use joining::concat;
pub use measuring::length;
pub use outcome::Outcome;
pub use storing::newindex;
pub use value_model::{ArithOp, CompareOp};
