//! The tests of `lib_string`.
#![tactic(auto)]

#[cfg(test)]
mod given;
#[cfg(test)]
mod shown;
#[cfg(test)]
mod tests;
