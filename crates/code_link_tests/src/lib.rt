//! The tests of `code_link`.
#![tactic(auto)]

#[cfg(test)]
mod tests;
