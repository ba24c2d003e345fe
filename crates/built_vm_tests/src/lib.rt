//! The tests of `built_vm`.
#![tactic(auto)]

#[cfg(test)]
mod tests;
