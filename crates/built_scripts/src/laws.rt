//! A law of scripts none of whose nodes is unbuilt.

ghost use Rattle.built_scripts.specs.Laws.{BuiltScripts};

/// A proper script none of whose nodes is unbuilt is one whose code is shown to do what the script does.
pub fn built_scripts()
    ensures { BuiltScripts }
{}
