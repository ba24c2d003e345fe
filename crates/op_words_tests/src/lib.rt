//! The tests of `op_words`.
#![tactic(auto)]

#[cfg(test)]
mod tests;
