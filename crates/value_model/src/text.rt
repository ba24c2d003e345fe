//! Pieces of texts.

ghost use Rattle.std.specs.Prelude.{◌≡◌, [], IfOk};
ghost use Rattle.value_model.specs.Errors as errors;
ghost use Rattle.value_model.specs.Paths as paths;
ghost use Rattle.value_model.specs.Pieces.{followed_by};

use resource::OutOfMemory;
use std::alloc::Global;

/// The pieces, one behind the other.
pub fn joined(alloc: Global, pieces: &[&[u8]]) -> Result<Vec<u8>, OutOfMemory>
    ensures { IfOk result (λ v. v.items ≡ followed_by (λ p. p.now) [] pieces.now) }
{
    let mut text = Vec::new(alloc);
    for piece in pieces {
        text.extend_from_slice(piece)?;
    }
    Ok(text)
}

/// What stands behind the last point of a path, or all of it where it has none.
pub fn last_name(path: &[u8]) -> &[u8]
    ensures { result.now ≡ paths.last_name path.now }
{
    let mut start = path.len();
    while start > 0 && path[start - 1] != b'.' {
        start -= 1;
    }
    &path[start..]
}

/// The argument of this number of a function, as errors name it.
pub fn argument(alloc: Global, number: usize, function: &[u8]) -> Result<Vec<u8>, OutOfMemory>
    ensures { IfOk result (λ v. v.items ≡ errors.argument_of number function.now) }
{
    let number = format!(in alloc; "{number}")?;
    joined(
        alloc,
        &[
            "argument #".as_bytes(),
            number.as_bytes(),
            " to '".as_bytes(),
            function,
            "'".as_bytes(),
        ],
    )
}
