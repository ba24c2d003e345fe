//! The tests of `lib_math_table`.
#![tactic(auto)]

#[cfg(test)]
mod tests;
