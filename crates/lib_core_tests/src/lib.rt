//! The tests of `lib_core`.
#![tactic(auto)]

#[cfg(test)]
mod given;
#[cfg(test)]
mod rows;
#[cfg(test)]
mod shown;
#[cfg(test)]
mod tests;
