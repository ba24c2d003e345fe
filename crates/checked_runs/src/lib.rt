//! Well-formed code is never stuck: the states that it comes to, and the laws that it comes to no others and has a rule in each.
#![tactic(auto)]

mod laws;

pub use laws::{
    code_is_never_stuck, library_keeps, loaded_is_safe, operands_are_there, operations_keep,
    reached_is_safe, steps_stay_safe,
};
