//! Laws of the meaning.

ghost use Rattle.built_machine.specs.Laws.{RunsHaveOneReport, RunsHaveReports};

/// A run of code, with a bound on its turns, has at most one report.
pub fn one_report()
    ensures { RunsHaveOneReport }
{}

/// For each bound on its turns a run of any code has a report: whatever the words and constants, it ends or spends its
/// turns.
pub fn has_report()
    ensures { RunsHaveReports }
{}
