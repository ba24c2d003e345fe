//! Laws of linking.

ghost use Rattle.link_laws.specs.Laws.{CodeLinks};

/// In the code of each function of a script that breaks no rule, each label is placed once, each branch is a jump to a label that is
/// placed there, and there are fewer words than a jump can pass.
pub fn code_links()
    ensures { CodeLinks }
{}
