//! The tests of `byte_text`.
#![tactic(auto)]

#[cfg(test)]
mod tests;
