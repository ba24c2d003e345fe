//! Laws of the meaning.

ghost use Rattle.machine_meaning.specs.Laws.{RunsHaveOneReport};

/// A run of code, with a bound on its turns, has at most one report.
pub fn one_report()
    ensures { RunsHaveOneReport }
{}
