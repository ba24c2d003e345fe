//! Tables in the arena: reading, writing, walking; and the texts of values.
#![tactic(auto)]

mod answer;
mod globals;
mod part_laws;
mod plain;
mod reading;
mod refusal;
mod writing;

pub use answer::LibAnswer;
pub use globals::{Globals, LibWorld, MetaNames};
pub use part_laws::{part_is_changed, part_is_kept, part_is_read};
pub use plain::plain_into;
pub use reading::{border, frozen, get, next};
pub use refusal::{MetaErr, NextErr, SetErr};
pub use writing::{set, set_meta, write};
