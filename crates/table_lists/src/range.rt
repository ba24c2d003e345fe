//! Elements in a row.

ghost use Rattle.std.specs.Prelude.{◌≡◌, false, ◌+◌, ◌^◌, ◌≤◌, pos, ◌+ℤ◌, ◌≤ℤ◌, length, replicate, OnOk, OnErr, IfOk};
ghost use Rattle.luau_tables.specs.Rules as rule;
ghost use Rattle.table_lists.specs.Lists.{items, put_all, Began};
ghost use Rattle.value_arena.specs.Tables.{is_nil};
ghost use Rattle.value_model.specs.declared.value.Value.TheVariants.{Num};
ghost use Rattle.whole_num.specs.Whole.{IsWhole};

use crate::element::{item, put};
use resource::OutOfMemory;
use std::alloc::Global;
use value_arena::Table;
use value_model::Value;
use whole_num::Whole;

/// The values under so many numbers from one on.
pub fn items(
    alloc: Global,
    table: &Table,
    first: Whole,
    count: usize,
) -> Result<Vec<Value>, OutOfMemory>
    requires { (first +ℤ pos count) ≤ℤ pos (2 ^ 53 + 1) }
    ensures { IfOk result (λ vs. vs.items ≡ items table.now first count) }
{
    let mut values = Vec::new(alloc);
    for step in 0..count {
        values.push(item(table, first.get() + step as i64))?;
    }
    Ok(values)
}

/// Writes values under the numbers from one on, which are all in range.
pub fn put_all(table: &mut Table, first: Whole, values: &[Value]) -> Result<(), OutOfMemory>
    requires { (first +ℤ pos (length values.now)) ≤ℤ pos (2 ^ 53 + 1) }
    ensures ok { OnOk result (table.new ≡ put_all table.old first values.now) }
    ensures err { OnErr result (Began table.old table.new first values.now) }
{
    for (step, v) in values.iter().enumerate() {
        put_number(table, first.get() + step as i64, *v)?;
    }
    Ok(())
}

/// Writes one value under the numbers from 1 on, so many.
pub fn fill(table: &mut Table, count: usize, v: Value) -> Result<(), OutOfMemory>
    requires { count ≤ 2 ^ 53 }
    ensures ok { OnOk result (table.new ≡ put_all table.old (pos 1) (replicate count v)) }
    ensures err { OnErr result (Began table.old table.new (pos 1) (replicate count v)) }
{
    let filling = &v;
    for step in 0..count {
        put_number(table, 1 + step as i64, *filling)?;
    }
    Ok(())
}

/// Writes values under the numbers from 1 on, and then another one under a key that is not nil.
pub fn put_all_and(
    table: &mut Table,
    first: Whole,
    values: &[Value],
    key: Value,
    v: Value,
) -> Result<(), OutOfMemory>
    requires within { (first +ℤ pos (length values.now)) ≤ℤ pos (2 ^ 53 + 1) }
    requires key { is_nil key ≡ false }
    ensures ok { OnOk result (table.new ≡ rule.put (put_all table.old first values.now) key v) }
    ensures err { OnErr result (Began table.old table.new first values.now) }
{
    put_all(table, first, values)?;
    put(table, key, v)
}

// Writes the value under a number that is in range.
pub(crate) fn put_number(table: &mut Table, k: i64, v: Value) -> Result<(), OutOfMemory>
    requires { IsWhole k }
    ensures ok { OnOk result (table.new ≡ rule.put table.old (Num k) v) }
    ensures err { OnErr result (table.new ≡ table.old) }
{
    match Whole::new(k) {
        Some(number) => put(table, Value::Num(number), v),
        None => unreachable!(),
    }
}
