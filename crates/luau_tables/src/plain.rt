//! The texts of values.

ghost use Rattle.std.specs.Prelude.{◌≡◌, ◌++◌, decimal, map, slice_index_or, [], OnOk, OnErr};
ghost use Rattle.luau_tables.specs.Globals.{globals_of, plain_text};
ghost use Rattle.value_model.specs.Names.{own_name, path_among, shared_name, text_of};
ghost use Rattle.value_model.specs.Parts.{bytes_at, table_ref};
ghost use Rattle.value_model.specs.Store.{same_table};
ghost use Rattle.value_model.specs.Values.{Shared};
ghost use Rattle.value_model.specs.declared.value.Value.TheVariants.{Table};

use crate::globals::Globals;
use byte_text::{Interner, StrId};
use resource::OutOfMemory;
use value_arena::Arena;
use value_model::{ShortOwner, TableId, Value};
use whole_num::print_into;

/// Appends the text of a value where no `__tostring` is asked.
///
/// It is the content of nil, a boolean, a number or a string. An object of the library or the host has its kind and its path.
/// Any other object has its kind and its number among those that its script made of that kind, from 1; the environment, its
/// metatable and the main function, which are made for the script, have texts of their own. All this stands in the value itself.
pub fn plain_into(
    _arena: &Arena,
    names: &Interner,
    globals: &Globals,
    v: Value,
    out: &mut Vec<u8>,
) -> Result<(), OutOfMemory>
    ensures ok { OnOk result (out.new.items ≡ out.old.items ++ plain_text names.now globals.now v) }
    ensures err { OnErr result (out.new.items ≡ out.old.items) }
{
    match v {
        Value::Nil => append(out, b"nil"),
        Value::Bool(true) => append(out, b"true"),
        Value::Bool(false) => append(out, b"false"),
        Value::Num(number) => print_into(number, out),
        Value::Str(id) => append(out, text_at(names, id)),
        Value::Table(id) => table_into(names, globals, id, out),
        Value::Closure(id) => append_number(out, "function: ", id.place),
        Value::Native(builtin) => append_two(out, b"function: ", builtin.path().as_bytes()),
        Value::Host(id) => append_two(out, b"function: ", host_path(names, globals, id.0)),
        Value::Wrap(id) => append_number(out, "function: wrap ", id.place),
        Value::Thread(id) => append_number(out, "thread: ", id.place),
    }
}

// Appends the text of a table.
fn table_into(
    names: &Interner,
    globals: &Globals,
    id: TableId,
    out: &mut Vec<u8>,
) -> Result<(), OutOfMemory>
    ensures ok { OnOk result (out.new.items ≡ out.old.items ++ plain_text names.now globals.now (Table id)) }
    ensures err { OnErr result (out.new.items ≡ out.old.items) }
{
    match id.owner {
        ShortOwner::Frozen => shared_into(names, globals, id.place, out),
        ShortOwner::Script(_) => own_into(id.place, out),
    }
}

// Appends the text of a table that no script owns.
fn shared_into(
    names: &Interner,
    globals: &Globals,
    place: u32,
    out: &mut Vec<u8>,
) -> Result<(), OutOfMemory>
    ensures ok { OnOk result (out.new.items ≡ out.old.items ++ text_of (shared_name (globals_of names.now globals.now) (Shared place))) }
    ensures err { OnErr result (out.new.items ≡ out.old.items) }
{
    if is_shared(globals.table, place) {
        return append(out, b"table: global");
    }
    if is_shared(globals.string_meta, place) {
        return append(out, b"table: string metatable");
    }
    append_two(
        out,
        b"table: ",
        table_path(names, globals.paths.as_slice(), place),
    )
}

// Appends the text of a script's table: the first two are made for it.
fn own_into(place: u32, out: &mut Vec<u8>) -> Result<(), OutOfMemory>
    ensures ok { OnOk result (out.new.items ≡ out.old.items ++ text_of (own_name place)) }
    ensures err { OnErr result (out.new.items ≡ out.old.items) }
{
    if place == 0 {
        return append(out, b"table: environment");
    }
    if place == 1 {
        return append(out, b"table: environment metatable");
    }
    append_number(out, "table: ", place - 1)
}

// Whether the id is that of the table at a place that no script owns.
fn is_shared(id: TableId, place: u32) -> bool
    ensures here { result ≡ same_table (table_ref id) (Shared place) }
    ensures there { result ≡ same_table (Shared place) (table_ref id) }
{
    match id.owner {
        ShortOwner::Frozen => id.place == place,
        ShortOwner::Script(_) => false,
    }
}

// The path of the table at a place that no script owns.
fn table_path<'a>(names: &'a Interner, paths: &[(TableId, StrId)], place: u32) -> &'a [u8]
    ensures { result.now ≡ path_among (map (λ p. (table_ref p.0, bytes_at names.now p.1.0)) paths.now) (Shared place) }
{
    for path in paths {
        if is_shared(path.0, place) {
            return text_at(names, path.1);
        }
    }
    b"".as_slice()
}

// The path of the host function of a number.
fn host_path<'a>(names: &'a Interner, globals: &Globals, number: usize) -> &'a [u8]
    ensures { result.now ≡ slice_index_or (globals_of names.now globals.now).hosts number [] }
{
    match globals.hosts.as_slice().get(number) {
        Some(id) => text_at(names, *id),
        None => b"".as_slice(),
    }
}

// The text of a number.
fn text_at(names: &Interner, id: StrId) -> &[u8]
    ensures { result.now ≡ bytes_at names.now id.0 }
{
    if id.0 < names.count() {
        names.bytes(id)
    } else {
        b"".as_slice()
    }
}

// Appends bytes.
fn append(out: &mut Vec<u8>, bytes: &[u8]) -> Result<(), OutOfMemory>
    ensures ok { OnOk result (out.new.items ≡ out.old.items ++ bytes.now) }
    ensures err { OnErr result (out.new.items ≡ out.old.items) }
{
    out.extend_from_slice(bytes)?;
    Ok(())
}

// Appends one text and then another.
fn append_two(out: &mut Vec<u8>, head: &[u8], tail: &[u8]) -> Result<(), OutOfMemory>
    ensures ok { OnOk result (out.new.items ≡ out.old.items ++ (head.now ++ tail.now)) }
    ensures err { OnErr result (out.new.items ≡ out.old.items) }
{
    let len = out.len();
    append(out, head)?;
    match append(out, tail) {
        Ok(()) => Ok(()),
        Err(OutOfMemory) => {
            out.truncate(len);
            Err(OutOfMemory)
        }
    }
}

// Appends a text and a number in decimal.
fn append_number(out: &mut Vec<u8>, head: &str, number: u32) -> Result<(), OutOfMemory>
    ensures ok { OnOk result (out.new.items ≡ out.old.items ++ (head.now ++ decimal number)) }
    ensures err { OnErr result (out.new.items ≡ out.old.items) }
{
    let text = format!(in *out.allocator(); "{head}{number}")?;
    append(out, text.as_bytes())
}
