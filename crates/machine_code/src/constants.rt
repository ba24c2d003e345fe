//! The constants of a function, as values.

ghost use Rattle.std.specs.Prelude.{◌≡◌, None, IfOk, map, replicate};
ghost use Rattle.machine_code.specs.Kept.{kept};

use byte_text::StrId;
use op_words::Const;
use resource::OutOfMemory;
use sqlite_items::Items;
use std::alloc::Global;
use value_model::Value;

/// The values of the constants, by the numbers of the chunk's strings.
pub(crate) fn values(
    alloc: Global,
    constants: &[Const],
    numbers: &[StrId],
) -> Result<Items<Value>, OutOfMemory>
    ensures { IfOk result (λ vs. vs ≡ map (kept numbers.now) constants.now) }
{
    let mut found = Items::new(alloc);
    for constant in constants {
        found.push(value(*constant, numbers))?;
    }
    Ok(found)
}

// The value of a constant, and nil in place of an import's.
fn value(constant: Const, numbers: &[StrId]) -> Value
    ensures { result ≡ kept numbers.now constant }
{
    match constant {
        Const::Nil | Const::Import(_) => Value::Nil,
        Const::False => Value::Bool(false),
        Const::True => Value::Bool(true),
        Const::Num(number) => Value::Num(number),
        Const::Str(string) => match numbers.get(string as usize) {
            Some(number) => Value::Str(*number),
            None => Value::Nil,
        },
    }
}

/// As many imports that hold nothing yet.
pub(crate) fn no_imports(alloc: Global, count: usize) -> Result<Items<Option<Value>>, OutOfMemory>
    ensures { IfOk result (λ found. found ≡ replicate count None) }
{
    let found = vec![in alloc; None; count]?;
    Ok(Items::from_vec(found))
}
