//! What functions capture, and what conditions of `repeat` use.

ghost use Rattle.std.specs.Prelude.{◌≡◌, ◌≤◌, ◌++◌, ◌||◌, ℕ, [], if◌then◌else◌, nat_lt, drop, IfOk, OnOk};
ghost use Rattle.std.specs.List.{list_any};
ghost use Rattle.syntax_tree.specs.Captures.{captures, variables, too_many};
ghost use Rattle.syntax_tree.specs.Faults.{fault};
ghost use Rattle.syntax_tree.specs.Leaps.{between, skips};
ghost use Rattle.syntax_tree.specs.Scope.{local_of};
ghost use Rattle.syntax_tree.specs.declared.fault.ScopeRule.TheVariants as rule;

use resource::OutOfMemory;
use sqlite_items::Items;
use std::alloc::Global;
use std::collections::HashSet;
use syntax_tree::{Bound, Capture, Leap, MOST_VARIABLES, Note, ScopeFault, ScopeRule};

/// The local that a name is bound to.
pub fn local_of(bound: Option<Bound>) -> Option<usize>
    ensures { result ≡ local_of bound }
{
    match bound {
        Some(Bound::Local(local)) => Some(local),
        Some(Bound::Up(local)) => Some(local),
        Some(Bound::Global) => None,
        None => None,
    }
}

/// The notes from a place on.
pub fn from(notes: &[Note], place: usize) -> &[Note]
    ensures { result.now ≡ drop place notes.now }
{
    if place <= notes.len() {
        &notes[place..]
    } else {
        &[]
    }
}

/// The names by which a function captures variables, each by its first. `first` is the number of the function's
/// first local.
pub fn captures(alloc: Global, notes: &[Note], first: usize) -> Result<Items<Capture>, OutOfMemory>
    ensures { IfOk result (λ names. names ≡ captures first notes.now) }
{
    let mut names = Items::new(alloc);
    let mut seen: HashSet<usize> = HashSet::new(alloc);
    for note in notes {
        if let Some(local) = local_of(note.bound) {
            if local < first && seen.insert(local)? {
                names.push(Capture { at: note.at, local })?;
            }
        }
    }
    Ok(names)
}

/// The variables that these names stand for.
pub fn variables(alloc: Global, names: &[Capture]) -> Result<Items<usize>, OutOfMemory>
    ensures { IfOk result (λ locals. locals ≡ variables names.now) }
{
    let mut locals = Items::new(alloc);
    for name in names {
        locals.push(name.local)?;
    }
    Ok(locals)
}

/// Notes the name by which a function gets one variable too many.
pub fn too_many(faults: &mut Items<ScopeFault>, names: &[Capture]) -> Result<(), OutOfMemory>
    ensures { OnOk result (faults.new ≡ faults.old ++ too_many names.now) }
{
    if let Some(name) = names.get(MOST_VARIABLES) {
        faults.push(ScopeFault {
            at: name.at,
            rule: ScopeRule::TooManyUpvalues,
        })?;
    }
    Ok(())
}

/// The greater of a number and one more than the local that a node uses, where that is below `below`.
fn reached(reach: usize, below: usize, note: &Note) -> usize
    requires { reach ≤ below }
    ensures most { result ≤ below }
    ensures value { (before : ℕ) → nat_lt before result
        ≡ (nat_lt before reach || between before below (local_of note.now.bound)) }
{
    match local_of(note.bound) {
        Some(local) => {
            if local < below && reach <= local {
                local + 1
            } else {
                reach
            }
        }
        None => reach,
    }
}

/// One more than the greatest number below `below` of a local that the nodes use, or 0.
fn reach(notes: &[Note], below: usize) -> usize
    ensures { (before : ℕ) → list_any (λ note. between before below (local_of note.bound)) notes.now
        ≡ nat_lt before result }
{
    let mut most = 0;
    for note in notes {
        most = reached(most, below, note);
    }
    most
}

/// Notes a `continue` that skips a local, if it does.
fn skip(faults: &mut Items<ScopeFault>, at: usize, skips: bool) -> Result<(), OutOfMemory>
    ensures { OnOk result (faults.new ≡ faults.old ++ (if skips then fault rule.UntilSkipsLocal at else [])) }
{
    if skips {
        faults.push(ScopeFault {
            at,
            rule: ScopeRule::UntilSkipsLocal,
        })?;
    }
    Ok(())
}

/// Notes each `continue` that skips a local which the condition uses.
pub fn skips(
    faults: &mut Items<ScopeFault>,
    below: usize,
    condition: &[Note],
    leaps: &[Leap],
) -> Result<(), OutOfMemory>
    ensures { OnOk result (faults.new ≡ faults.old ++ skips below condition.now leaps.now) }
{
    let reach = reach(condition, below);
    for leap in leaps {
        skip(faults, leap.at, leap.before < reach)?;
    }
    Ok(())
}
