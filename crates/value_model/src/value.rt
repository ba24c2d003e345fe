//! Values, as a program keeps them: strings and objects by their numbers.

ghost use Rattle.std.specs.Prelude.{◌≡◌, ℕ, List};
ghost use Rattle.value_model.specs.Values.{is_true, kind_name, kind_of};
ghost use Rattle.value_model.specs.Parts.{meant};

use crate::builtin::Builtin;
use crate::ids::{ClosureId, HostId, TableId, ThreadId};
use crate::kind::Kind;
use byte_text::StrId;
use whole_num::Whole;

/// A value.
///
/// Two values are equal exactly where they are of one kind and have one content, or are one object. Of texts that are numbered by
/// one interner that means equal bytes.
#[derive(Clone, Copy, PartialEq, Eq, Hash, Debug)]
pub enum Value {
    Nil,
    Bool(bool),
    Num(Whole),
    Str(StrId),
    Table(TableId),
    /// A Luau function.
    Closure(ClosureId),
    /// A function of the library.
    Native(Builtin),
    /// A function of the host.
    Host(HostId),
    /// A function that `coroutine.wrap` made, by its coroutine.
    Wrap(ThreadId),
    Thread(ThreadId),
}

impl Value {
    /// The kind of the value. All sorts of functions are of one kind.
    #[tactic(auto, unfolding(crate::specs::Parts::meant, crate::specs::Values::kind_of))]
    pub fn kind(self) -> Kind
        ensures { (texts : List (List ℕ)) → kind_of (meant texts self) ≡ result }
    {
        match self {
            Value::Nil => Kind::Nil,
            Value::Bool(_) => Kind::Boolean,
            Value::Num(_) => Kind::Number,
            Value::Str(_) => Kind::String,
            Value::Table(_) => Kind::Table,
            Value::Closure(_) | Value::Native(_) | Value::Host(_) | Value::Wrap(_) =>
                Kind::Function,
            Value::Thread(_) => Kind::Thread,
        }
    }
}

/// Whether a condition takes the value for true: nil and `false` are false, and all else is true.
#[tactic(auto, unfolding(crate::specs::Parts::meant, crate::specs::Values::is_true))]
pub fn truthy(v: Value) -> bool
    ensures { (texts : List (List ℕ)) → is_true (meant texts v) ≡ result }
{
    match v {
        Value::Nil => false,
        Value::Bool(b) => b,
        _ => true,
    }
}

/// The name of the value's kind: `nil`, `boolean`, `number`, `string`, `table`, `function` or `thread`.
pub fn type_name(v: Value) -> &'static str
    ensures { (texts : List (List ℕ)) → result.now ≡ kind_name (kind_of (meant texts v)) }
{
    v.kind().name()
}
