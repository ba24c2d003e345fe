//! Positions in a text, from 1. Those below 0 count from the end.

ghost use Rattle.std.specs.Prelude.{◌≡◌, ◌<◌, ◌≤◌, length, pos};
ghost use Rattle.luau_tables.specs.Own.{longest_text};
ghost use Rattle.value_model.specs.StringRows as row;

use whole_num::Whole;

// The position that is meant in a text of so many bytes.
fn position_in(len: usize, i: Whole) -> i64
    requires { len < longest_text }
    ensures { result ≡ row.position_in len i }
{
    let i = i.get();
    if i < 0 { i + len as i64 + 1 } else { i }
}

/// The bytes from one position to another. A first one below 1 is taken as 1, and a last one above the length as the length;
/// where the first is then after the last there are none.
pub(crate) fn bytes_between(bytes: &[u8], i: Whole, j: Whole) -> &[u8]
    requires { length bytes.now < longest_text }
    ensures { result.now ≡ row.bytes_between bytes.now i j }
{
    let first = position_in(bytes.len(), i).max(1);
    let last = position_in(bytes.len(), j).min(bytes.len() as i64);
    if last < first {
        return b"".as_slice();
    }
    &bytes[first as usize - 1..last as usize]
}
