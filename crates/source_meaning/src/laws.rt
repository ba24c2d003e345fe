//! Laws of the meaning.

ghost use Rattle.source_meaning.specs.Laws.{RunsHaveOneReport};

/// A run of a script, with a bound on its turns, has at most one report.
pub fn one_report()
    ensures { RunsHaveOneReport }
{}
