//! The tests of `script_compiler`, and of what it stands on.
#![tactic(auto)]

#[cfg(test)]
mod tests;
