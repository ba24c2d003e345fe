//! The tests of `node_numbers`.
#![tactic(auto)]

#[cfg(test)]
mod tests;
