//! The decimal text of a number.

ghost use Rattle.std.specs.Prelude.{◌≡◌, ◌++◌, OnOk, OnErr};
ghost use Rattle.std.specs.Fmt.{signed_decimal};

use crate::whole::Whole;
use resource::OutOfMemory;

/// Appends the decimal text of `n` to `out`: a `-` where it is below 0, then its digits with no leading zero.
pub fn print_into(n: Whole, out: &mut Vec<u8>) -> Result<(), OutOfMemory>
    ensures ok { OnOk result (out.new.items ≡ out.old.items ++ signed_decimal n) }
    ensures err { OnErr result (out.new.items ≡ out.old.items) }
{
    let value = n.get();
    let text = format!(in *out.allocator(); "{value}")?;
    out.extend_from_slice(text.as_bytes())?;
    Ok(())
}
