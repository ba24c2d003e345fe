//! Single elements.

ghost use Rattle.std.specs.Prelude.{◌≡◌, ◌+◌, ◌^◌, false, pos, ◌+ℤ◌, ◌≤ℤ◌, OnOk, OnErr};
ghost use Rattle.luau_tables.specs.Rules as rule;
ghost use Rattle.table_lists.specs.Lists.{item};
ghost use Rattle.value_model.specs.StringRows.{count_between};
ghost use Rattle.whole_num.specs.Whole.{IsWhole};
ghost use Rattle.value_arena.specs.Tables.{is_nil};

use resource::OutOfMemory;
use value_arena::Table;
use value_model::Value;
use whole_num::Whole;

/// Whether a value is nil.
#[inline(always)]
pub fn is_nil(value: &Value) -> bool
    ensures { result ≡ is_nil value.now }
{
    matches!(value, Value::Nil)
}

// The element under a whole number, else nil.
pub(crate) fn item(table: &Table, k: i64) -> Value
    requires { IsWhole k }
    ensures { result ≡ item table.now k }
{
    match Whole::new(k) {
        Some(number) => table.value(Value::Num(number)),
        None => unreachable!(),
    }
}

/// The border, as a number.
pub fn end_of(table: &Table) -> Whole
    ensures { result ≡ pos (rule.border table.now) }
{
    let border = table.border();
    prove!(border <= table.len());
    match Whole::new(border as i64) {
        Some(number) => number,
        None => unreachable!(),
    }
}

/// How many whole numbers stand from one to another.
pub fn count_between(first: Whole, last: Whole) -> usize
    ensures count { result ≡ count_between first last }
    ensures within { (first +ℤ pos result) ≤ℤ pos (2 ^ 53 + 1) }
{
    let count = last.get() - first.get() + 1;
    if count < 0 { 0 } else { count as usize }
}

/// Writes the value under a key that is not nil, in the key's place or under a new key at the end. Nil under a key that was never
/// inserted appends nothing.
pub fn put(table: &mut Table, key: Value, v: Value) -> Result<(), OutOfMemory>
    requires { is_nil key ≡ false }
    ensures ok { OnOk result (table.new ≡ rule.put table.old key v) }
    ensures err { OnErr result (table.new ≡ table.old) }
{
    let sought = &key;
    if let Some(place) = table.place(*sought) {
        table.write(place, v);
        return Ok(());
    }
    if is_nil(&v) {
        return Ok(());
    }
    table.push(*sought, v)
}
