//! The tests of `type_skip`.
#![tactic(auto)]

#[cfg(test)]
mod tests;
