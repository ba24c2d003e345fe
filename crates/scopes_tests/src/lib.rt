//! The tests of `scopes`.
#![tactic(auto)]

#[cfg(test)]
mod tests;
