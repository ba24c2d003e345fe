//! The limits of the language.

/// How many nodes of a tree may be around each other, and how many brackets of a type open at once.
pub const MOST_NESTED: usize = 200;

/// How many locals of a function may be live, and how many variables it may capture.
pub const MOST_VARIABLES: usize = 200;

/// How many registers a function may need.
pub const MOST_REGISTERS: usize = 250;

/// How great the bulk of a function may be.
pub const MOST_BULK: usize = 30_000;
