//! Search.

ghost use Rattle.std.specs.Prelude.{◌≡◌, length};
ghost use Rattle.table_lists.specs.Lists.{found};

use crate::element::is_nil;
use value_arena::Table;
use value_model::Value;
use whole_num::Whole;

/// The first number from one on under which the value stands, before the first nil.
pub fn find(table: &Table, v: Value, first: Whole) -> Option<Whole>
    ensures { result ≡ found (length table.now.entries) table.now v first }
{
    let sought = &v;
    for step in 0..table.len() {
        let k = first.get() + step as i64;
        let value = table.item(k);
        if is_nil(&value) {
            return None;
        }
        let number = Whole::new(k)?;
        if value == *sought {
            return Some(number);
        }
    }
    None
}
