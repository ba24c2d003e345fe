//! The tests of `luau_tables`.
#![tactic(auto)]

#[cfg(test)]
mod tests;
