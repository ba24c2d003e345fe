//! Why a table refuses.

ghost use Rattle.std.specs.Prelude.{◌≡◌};
ghost use Rattle.value_arena.specs.Tables.{is_nil};

use value_model::Value;

/// Why nothing was written.
#[derive(Clone, Copy, PartialEq, Eq, Debug)]
pub enum SetErr {
    /// The table is frozen.
    Frozen,
    /// The table is not frozen, and the key is nil.
    NilKey,
    OutOfMemory,
}

/// Why there is no next entry.
#[derive(Clone, Copy, PartialEq, Eq, Debug)]
pub enum NextErr {
    /// The key is not nil and was never inserted.
    UnknownKey,
}

/// Why no metatable was set.
#[derive(Clone, Copy, PartialEq, Eq, Debug)]
pub enum MetaErr {
    /// The table is frozen.
    Frozen,
}

// Whether a value is nil.
#[inline(always)]
pub(crate) fn is_nil(value: &Value) -> bool
    ensures { result ≡ is_nil value.now }
{
    matches!(value, Value::Nil)
}
