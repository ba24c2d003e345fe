//! Texts that are filled to a width.

ghost use Rattle.std.specs.Prelude.{◌≡◌, ◌++◌, replicate, OnOk};
ghost use Rattle.lib_string.specs.Directives.{field_of};
ghost use Rattle.value_model.specs.FormatRows as row;

use crate::directive::Field;
use resource::OutOfMemory;

/// Appends a text, filled to the width of a field. Zeros fill numbers alone.
pub(crate) fn fit_into(
    field: Field,
    number: bool,
    bytes: &[u8],
    out: &mut Vec<u8>,
) -> Result<(), OutOfMemory>
    ensures { OnOk result (out.new.items ≡ out.old.items ++ row.fitted (field_of field) number bytes.now) }
{
    let missing = field.width.saturating_sub(bytes.len());
    if field.left {
        append(bytes, out)?;
        fill(b' ', missing, out)
    } else if field.zeros && number {
        zeros_into(missing, bytes, out)
    } else {
        fill(b' ', missing, out)?;
        append(bytes, out)
    }
}

// Appends zeros and a number's text, whose sign stands before them.
fn zeros_into(missing: usize, bytes: &[u8], out: &mut Vec<u8>) -> Result<(), OutOfMemory>
    ensures { OnOk result (out.new.items ≡ out.old.items ++ row.zeros_into missing bytes.now) }
{
    match bytes {
        [b'-', digits @ ..] => {
            append(b"-", out)?;
            fill(b'0', missing, out)?;
            append(digits, out)
        }
        _ => {
            fill(b'0', missing, out)?;
            append(bytes, out)
        }
    }
}

/// Appends bytes.
pub(crate) fn append(bytes: &[u8], out: &mut Vec<u8>) -> Result<(), OutOfMemory>
    ensures { OnOk result (out.new.items ≡ out.old.items ++ bytes.now) }
{
    out.extend_from_slice(bytes)?;
    Ok(())
}

// Appends a byte so many times over.
fn fill(byte: u8, count: usize, out: &mut Vec<u8>) -> Result<(), OutOfMemory>
    ensures { OnOk result (out.new.items ≡ out.old.items ++ replicate count byte) }
{
    for _ in 0..count {
        out.push(byte)?;
    }
    Ok(())
}
