//! The tests of `unbuilt_nodes`.
#![tactic(auto)]

#[cfg(test)]
mod tests;
