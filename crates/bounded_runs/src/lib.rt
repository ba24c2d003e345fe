//! Runs with a bound on their turns, of any machine that moves from state to state: the meaning of source and that of code are both run
//! so. As definitions, with what holds of all such runs.
#![tactic(auto)]
