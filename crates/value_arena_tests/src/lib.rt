//! The tests of `value_arena`.
#![tactic(auto)]

#[cfg(test)]
mod tests;
