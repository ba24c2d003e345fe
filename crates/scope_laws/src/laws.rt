//! Laws of the scopes.

ghost use Rattle.scope_laws.specs.Laws.{NamesInScope, NamesAreSeen, FunctionsCapture, NodesHaveFirsts, LocalsAreTold, DeclaredHaveEntries};

/// In a tree whose nodes are numbered in source order, each name is bound to what is in scope where it stands.
pub fn names_in_scope()
    ensures { NamesInScope }
{}

/// Each node that is bound to something is a name of which the scope is told.
pub fn names_are_seen()
    ensures { NamesAreSeen }
{}

/// A function captures the locals declared before it that names in it stand for, each once, in the order of the first
/// of these names.
pub fn functions_capture()
    ensures { FunctionsCapture }
{}

/// Each node is told how many locals the text declares before it.
pub fn nodes_have_firsts()
    ensures { NodesHaveFirsts }
{}

/// Each entry of the locals tells where its local is declared, and by which function, whether a name in a function
/// further inside stands for it, and whether an assignment sets a name that stands for it.
pub fn locals_are_told()
    ensures { LocalsAreTold }
{}

/// Each local that is declared has an entry, which tells that.
pub fn declared_have_entries()
    ensures { DeclaredHaveEntries }
{}
