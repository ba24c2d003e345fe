//! Byte strings, and an interner that numbers them.
#![tactic(auto)]

mod bytes;
mod fixed;
mod interner;

pub use bytes::Bytes;
pub use fixed::StrId;
pub use interner::Interner;
