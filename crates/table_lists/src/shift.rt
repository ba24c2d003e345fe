//! Elements put in and taken out, with those behind them moved by one place.

ghost use Rattle.std.specs.Prelude.{◌≡◌, ◌^◌, pos, neg_ℤ, ◌+ℤ◌, ◌≤ℤ◌, OnOk, OnErr};
ghost use Rattle.table_lists.specs.Lists.{items, put_all, inserted, removed, Began};

use crate::element::item;
use crate::range::put_number;
use resource::OutOfMemory;
use value_arena::Table;
use value_model::Value;
use whole_num::Whole;

/// Puts a value under a number. So many elements from there on move one place up.
pub fn insert(table: &mut Table, k: Whole, count: usize, v: Value) -> Result<(), OutOfMemory>
    requires { (k +ℤ pos count) ≤ℤ pos (2 ^ 53) }
    ensures ok { OnOk result (table.new ≡ inserted table.old k count v) }
    ensures err { OnErr result (Began table.old table.new (k +ℤ pos 1) (items table.old k count)) }
{
    shift_up(table, k.get(), count)?;
    put_number(table, k.get(), v)
}

/// Takes out the element under a number. So many elements behind it move one place down, and nil stands where the last one was.
pub fn remove(table: &mut Table, k: Whole, count: usize) -> Result<(), OutOfMemory>
    requires { (k +ℤ pos count) ≤ℤ pos (2 ^ 53) }
    ensures ok { OnOk result (table.new ≡ removed table.old k count) }
    ensures err { OnErr result (Began table.old table.new k (items table.old (k +ℤ pos 1) count)) }
{
    shift_down(table, k.get(), count)?;
    put_number(table, k.get() + count as i64, Value::Nil)
}

// Moves so many elements from a number on one place up. What stood behind the last is written over.
fn shift_up(table: &mut Table, first: i64, count: usize) -> Result<(), OutOfMemory>
    requires low { neg_ℤ (pos (2 ^ 53)) ≤ℤ first }
    requires high { (first +ℤ pos count) ≤ℤ pos (2 ^ 53) }
    ensures ok { OnOk result (table.new ≡ put_all table.old (first +ℤ pos 1) (items table.old first count)) }
    ensures err { OnErr result (Began table.old table.new (first +ℤ pos 1) (items table.old first count)) }
{
    let mut carried = item(table, first);
    for step in 0..count {
        let k = first + step as i64 + 1;
        let next = item(table, k);
        put_number(table, k, carried)?;
        carried = next;
    }
    Ok(())
}

// Moves so many elements behind a number one place down. The last one stays too in its old place.
fn shift_down(table: &mut Table, first: i64, count: usize) -> Result<(), OutOfMemory>
    requires low { neg_ℤ (pos (2 ^ 53)) ≤ℤ first }
    requires high { (first +ℤ pos count) ≤ℤ pos (2 ^ 53) }
    ensures ok { OnOk result (table.new ≡ put_all table.old first (items table.old (first +ℤ pos 1) count)) }
    ensures err { OnErr result (Began table.old table.new first (items table.old (first +ℤ pos 1) count)) }
{
    for step in 0..count {
        let k = first + step as i64;
        let v = item(table, k + 1);
        put_number(table, k, v)?;
    }
    Ok(())
}
