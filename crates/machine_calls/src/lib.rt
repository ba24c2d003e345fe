//! Calls, protected calls and errors: what the machine does where no instruction runs.
#![tactic(auto)]

mod calling;
mod charging;
mod entering;
mod focus;
mod handing;
mod innermost;
mod laws;
mod lists;
mod protecting;
mod raising;

pub use calling::invoke;
pub use charging::charges_call;
pub use entering::enter_function;
pub use focus::{Caller, Focus, Led};
pub use handing::hand;
pub use innermost::{Innermost, what_waits};
pub use laws::{charged_calls_charge, free_moves_charge_none, other_calls_go_on, safe_may_enter};
pub use raising::{fault, raise};
