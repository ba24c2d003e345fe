//! Laws of compiled scripts.

ghost use Rattle.compiled_scripts.specs.Laws.{ParsedAccepted, BuiltRunAlike, ScriptsRunAlike, NeverStuck};

/// A tree that the parser makes is accepted with its bindings, if it breaks no rule of scopes and sizes.
pub fn parsed_accepted()
    ensures { ParsedAccepted }
{}

/// Where all nodes of an accepted script are of the kinds that are built, each report of its run is one of its chunk's run, and the other
/// way round, with each host, whatever it replies, and with each bound on the turns; and there is a report.
pub fn built_run_alike()
    ensures { BuiltRunAlike }
{}

/// The same where no node of the script is unbuilt.
pub fn scripts_run_alike()
    ensures { ScriptsRunAlike }
{}

/// Where the chunk is well formed, the script's run never ends for lack of a rule.
pub fn never_stuck()
    ensures { NeverStuck }
{}
