//! The machine: a script's run, in slices of so many turns.
#![tactic(auto)]
