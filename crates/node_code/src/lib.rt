//! What each node's code is, as a definition over the tree, and what its emission asks of nodes and bindings.
//!
//! Registers are counted from 0, and the first that is free is passed down.
#![tactic(auto)]

mod queries;

pub use queries::{
    answer, assign_all, begin_for, begin_function, behind, concat_insn, copy_index, count,
    count_of, declares, emit_nils, end_arm, end_choice, end_for, end_function, end_repeat,
    end_while, has_more, in_turn, is_many, left_number, loop_at, near_number, no_loop, node_of,
    own_local, results_for,
};
