//! The bindings, made of what was noted.

ghost use Rattle.std.specs.Prelude.{◌≡◌, [], IfOk};
ghost use Rattle.syntax_tree.specs.Bound.{used_from};
ghost use Rattle.scopes.specs.Used.{bound_notes, upvalue_notes, first_notes, marked};

use crate::captured::local_of;
use resource::OutOfMemory;
use sqlite_items::Items;
use std::alloc::Global;
use syntax_tree::{Bound, LocalInfo, Note};

/// What each node is bound to.
pub fn names_of(alloc: Global, notes: &[Note]) -> Result<Items<Option<Bound>>, OutOfMemory>
    ensures { IfOk result (λ names. names ≡ bound_notes notes.now) }
{
    let mut names = Items::new(alloc);
    for note in notes {
        names.push(note.bound)?;
    }
    Ok(names)
}

/// Which variables each node captures.
pub fn upvalues_of(alloc: Global, notes: &[Note]) -> Result<Items<Items<usize>>, OutOfMemory>
    ensures { IfOk result (λ lists. lists ≡ upvalue_notes notes.now) }
{
    let mut lists = Items::new(alloc);
    for note in notes {
        lists.push(Items::from_slice(alloc, note.upvalues.as_slice())?)?;
    }
    Ok(lists)
}

/// How many locals the text declares before each node.
pub fn firsts_of(alloc: Global, notes: &[Note]) -> Result<Items<usize>, OutOfMemory>
    ensures { IfOk result (λ firsts. firsts ≡ first_notes notes.now) }
{
    let mut firsts = Items::new(alloc);
    for note in notes {
        firsts.push(note.first)?;
    }
    Ok(firsts)
}

/// Says of a local what one note says of it.
fn mark(locals: &mut Items<LocalInfo>, note: &Note)
    ensures { locals.new ≡ marked note.now locals.old }
{
    if let Some(local) = local_of(note.bound) {
        if let Some(info) = locals.get(local) {
            let captured = match note.bound {
                Some(Bound::Up(_)) => true,
                Some(Bound::Local(_)) | Some(Bound::Global) | None => info.captured,
            };
            let info = LocalInfo {
                name: info.name,
                func: info.func,
                captured,
                assigned: info.assigned || note.target,
            };
            locals.set(local, info);
        }
    }
}

/// The locals, of which nothing is said yet.
fn unused(alloc: Global, locals: &[LocalInfo]) -> Result<Items<LocalInfo>, OutOfMemory>
    ensures { IfOk result (λ infos. infos ≡ used_from [] 0 locals.now) }
{
    let mut infos = Items::new(alloc);
    for info in locals {
        infos.push(LocalInfo {
            name: info.name,
            func: info.func,
            captured: false,
            assigned: false,
        })?;
    }
    Ok(infos)
}

/// The locals, with what the notes say of them.
pub fn locals_of(
    alloc: Global,
    locals: &[LocalInfo],
    notes: &[Note],
) -> Result<Items<LocalInfo>, OutOfMemory>
    ensures { IfOk result (λ infos. infos ≡ used_from notes.now 0 locals.now) }
{
    let mut infos = unused(alloc, locals)?;
    for note in notes {
        mark(&mut infos, note);
    }
    Ok(infos)
}
