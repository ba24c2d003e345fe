//! The tests of `reg_alloc`.
#![tactic(auto)]

#[cfg(test)]
mod tests;
