//! Laws of the scripts that are compiled.

ghost use Rattle.built_emitter.specs.Correct.{RunsHaveReports};

/// Each script all of whose nodes are built has a report with each bound on its turns, and its run is never stuck.
pub fn has_report()
    ensures { RunsHaveReports }
{}
