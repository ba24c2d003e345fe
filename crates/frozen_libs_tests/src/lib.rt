//! The tests of `frozen_libs`.
#![tactic(auto)]

#[cfg(test)]
mod listings;
#[cfg(test)]
mod tests;
#[cfg(test)]
mod trees;
