//! Values, what operations and library functions do with them, and what waits for calls: types, and definitions of what they mean.
#![tactic(auto)]

mod builtin;
mod error;
mod event;
mod ids;
mod kind;
mod operator;
mod plain;
mod text;
mod value;
mod waiting;

pub use builtin::Builtin;
pub use error::{LoopBound, RunErr, Wanted};
pub use event::{Event, EventKind, Reply};
pub use ids::{CellId, ClosureId, HostId, Owner, ShortOwner, TableId, ThreadId};
pub use kind::{CoStatus, Kind};
pub use operator::{ArithOp, CompareOp};
pub use plain::{Plain, Plains};
pub use value::{Value, truthy, type_name};
pub use waiting::Continue;
