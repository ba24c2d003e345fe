//! Whole tables.

ghost use Rattle.std.specs.Prelude.{◌≡◌, OnOk, OnErr, IfOk, []};
ghost use Rattle.table_lists.specs.Lists.{cleared, filled, AreFilled, BeganEntries};

use crate::element::is_nil;
use resource::OutOfMemory;
use std::alloc::Global;
use value_arena::Table;
use value_model::{TableId, Value};

/// Writes nil under each key.
pub fn clear(table: &mut Table)
    ensures { table.new ≡ cleared table.old }
{
    for place in 0..table.len() {
        table.write(place, Value::Nil);
    }
}

/// The entries whose values are not nil, in order.
pub fn entries(alloc: Global, table: &Table) -> Result<Vec<(Value, Value)>, OutOfMemory>
    ensures entries { IfOk result (λ es. es.items ≡ filled table.now.entries) }
    ensures keys { IfOk result (λ es. AreFilled es.items) }
{
    let mut kept = Vec::new(alloc);
    for place in 0..table.len() {
        let entry = table.at(place);
        if !is_nil(&entry.1) {
            kept.push(entry)?;
        }
    }
    Ok(kept)
}

/// Gives a table that has no entries these ones, and a metatable.
pub fn put_entries(
    table: &mut Table,
    entries: &[(Value, Value)],
    meta: Option<TableId>,
) -> Result<(), OutOfMemory>
    requires empty { table.old.entries ≡ [] }
    requires keys { AreFilled entries.now }
    ensures ok { OnOk result (table.new ≡ record table.old { entries = entries.now; meta = meta }) }
    ensures err { OnErr result (BeganEntries table.old table.new entries.now) }
{
    for entry in entries {
        table.push(entry.0, entry.1)?;
    }
    table.put_meta(meta);
    Ok(())
}
