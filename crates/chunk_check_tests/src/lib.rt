//! The tests of `chunk_check`.
#![tactic(auto)]

#[cfg(test)]
mod tests;
