//! The tests of `whole_num`.
#![tactic(auto)]

#[cfg(test)]
mod tests;
