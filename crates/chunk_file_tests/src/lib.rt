//! The tests of `chunk_file`.
#![tactic(auto)]

#[cfg(test)]
mod tests;
