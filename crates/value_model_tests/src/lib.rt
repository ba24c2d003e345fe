//! The tests of `value_model`.
#![tactic(auto)]

#[cfg(test)]
mod tests;
