//! What the code of a script does: where the code of each node stands, its run goes along with the node's.
#![tactic(auto)]
