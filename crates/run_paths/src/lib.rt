//! Paths of runs: from a state to a later one, with the turns that are spent, the events that are shown and the notes between the two.
#![tactic(auto)]
