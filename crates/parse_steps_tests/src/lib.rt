//! The tests of `parse_steps`.
#![tactic(auto)]

#[cfg(test)]
mod tests;
