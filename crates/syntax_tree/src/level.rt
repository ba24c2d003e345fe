//! Levels of optimisation.

/// How much a script's code is improved. The output and the end of a script are the same at each level.
#[derive(Clone, Copy, PartialEq, Eq, Hash, Debug)]
pub enum Level {
    /// Plain code.
    O0,
    /// Constants are folded, imports and fast calls are used.
    O1,
    /// As `O1`; where the script cannot change its environment, calls are inlined and loops unrolled too.
    O2,
}
