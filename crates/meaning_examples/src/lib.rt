//! Examples of both meanings: scripts and chunks whose runs the check computes, with their lines, turns, look-ups and ends.
#![tactic(auto)]
