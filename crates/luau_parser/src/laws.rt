//! Laws of the grammar.

ghost use Rattle.luau_parser.specs.Examples.{Trees, Refusals};
ghost use Rattle.syntax_tree.specs.Derivations.{TreesAreOne, TreesAreProper};

/// A token list has at most one tree.
pub fn one_tree()
    ensures { TreesAreOne }
{}

/// Each tree that derives is proper: calls are calls, what is assigned to can be assigned to, and operators fit where they stand.
pub fn trees_are_proper()
    ensures { TreesAreProper }
{}

/// Short token lists with their trees.
pub fn example_trees()
    ensures { Trees }
{}

/// Short token lists without a tree.
pub fn example_refusals()
    ensures { Refusals }
{}
