//! Lengths.

ghost use Rattle.std.specs.Prelude.{◌≡◌, ◌≤◌, pos};
ghost use Rattle.luau_tables.specs.Own.{AreTexts, HasText, IsThere, MayUse, longest_text};
ghost use Rattle.meta_ops.specs.OnIds as kept;
ghost use Rattle.meta_ops.specs.Outcomes.{ChoosesIn};
ghost use Rattle.value_arena.specs.Arenas.{HasTable, table_at};
ghost use Rattle.value_arena.specs.Owning.{IsOwned};
ghost use Rattle.value_model.specs.Choices.{Length};
ghost use Rattle.value_model.specs.Parts.{bytes_at, meant};

use crate::metamethod::{kind_of, said_of_table};
use crate::outcome::{Outcome, call_one_or};
use byte_text::Interner;
use luau_tables::{Globals, border};
use value_arena::Arena;
use value_model::{RunErr, TableId, Value};
use whole_num::Whole;

/// The length of a value: how many bytes a string has; what `__len` of a table gives when it is called, or else the table's border.
/// Any other value is a run error.
pub fn length(arena: &Arena, globals: &Globals, names: &Interner, a: Value) -> Outcome
    requires owned { IsOwned arena.now }
    requires there { IsThere arena.now a }
    requires text { HasText names.now a }
    requires texts { AreTexts names.now }
    // In the part of each script that may use the value, the outcome is that of the definition.
    ensures { ChoosesIn names.now globals.now arena.now (λ w. MayUse names.now arena.now w a) (Length (meant names.now a)) result 0 }
{
    let value = &a;
    length_of(arena, globals, names, value)
}

// The same.
fn length_of(arena: &Arena, globals: &Globals, names: &Interner, a: &Value) -> Outcome
    requires owned { IsOwned arena.now }
    requires there { IsThere arena.now a.now }
    requires text { HasText names.now a.now }
    requires texts { AreTexts names.now }
    ensures { result ≡ kept.length_of names.now arena.now globals.now a.now }
{
    match a {
        Value::Str(id) => Outcome::Done(count(names.bytes(*id).len())),
        Value::Table(t) => table_length(arena, globals, *t),
        _ => Outcome::RunError(RunErr::LengthOf {
            operand: kind_of(a),
        }),
    }
}

// The length of a table.
fn table_length(arena: &Arena, globals: &Globals, t: TableId) -> Outcome
    requires owned { IsOwned arena.now }
    requires there { HasTable arena.now t }
    ensures { result ≡ kept.table_length arena.now globals.now t }
{
    let handler = said_of_table(arena, t, globals.meta.len);
    call_one_or(&handler, &Value::Table(t), border_of(arena, t))
}

// The border of a table.
fn border_of(arena: &Arena, t: TableId) -> Outcome
    requires { HasTable arena.now t }
    ensures { result ≡ kept.border_of arena.now t }
{
    let entries = arena.table(t).len();
    let end = border(arena, t);
    prove!(end <= entries);
    Outcome::Done(count(end))
}

// A number of bytes or entries, as a value.
fn count(n: usize) -> Value
    requires { n ≤ longest_text }
    ensures { result ≡ kept.count n }
{
    match Whole::new(n as i64) {
        Some(whole) => Value::Num(whole),
        None => unreachable!(),
    }
}
