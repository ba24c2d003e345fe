//! Instructions that ask for operations on values, each as the machine's row of it.
#![tactic(auto)]

mod arithmetic;
mod comparing;
mod importing;
mod indexing;
mod joining;
mod measuring;
mod next;
mod settling;
mod storing;

pub use arithmetic::{constant_divided, constant_less, minus, operate, operate_with_constant};
pub use comparing::jump_on_comparison;
pub use importing::{follow, get_import, take_followed};
pub use indexing::{environment, get_global, get_member, get_numbered, get_table, name_call};
pub use joining::{concat_run, join, take_joined};
pub use measuring::length;
pub use next::Next;
pub use settling::settle;
pub use storing::{set_global, set_member, set_numbered, set_table};
