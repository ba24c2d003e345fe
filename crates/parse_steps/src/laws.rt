//! Laws of the machine.

ghost use Rattle.parse_steps.specs.Laws.{TreesRun, CallsAreAsked, CallsCanOpen, RunsAreShallow, DepthIsCounted, RunsHaveOneEnd};

/// A script with a tree is read by the machine to its end, which nests as deep as the tree does.
pub fn trees_run()
    ensures { TreesRun }
{}

/// Where arguments open in a tree, the machine asks for them.
pub fn calls_are_asked()
    ensures { CallsAreAsked }
{}

/// Where the machine asks for arguments and a `(` stands, some script goes on with it so that arguments open there.
pub fn calls_can_open()
    ensures { CallsCanOpen }
{}

/// The machine nests no deeper than its limit, and than the tokens passed can open nodes.
pub fn runs_are_shallow()
    ensures { RunsAreShallow }
{}

/// Where a node or a bracket opens that is one too many, more opening tokens than may nest stand up to it.
pub fn depth_is_counted()
    ensures { DepthIsCounted }
{}

/// The machine reads a script in one way.
pub fn runs_have_one_end()
    ensures { RunsHaveOneEnd }
{}
