//! The tests of `luau_lexer`.
#![tactic(auto)]

#[cfg(test)]
mod tests;
