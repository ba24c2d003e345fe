//! Kinds of values, and states of coroutines.

ghost use Rattle.std.specs.Prelude.{◌≡◌};
ghost use Rattle.value_model.specs.Values.{kind_name};

/// The kind of a value.
#[derive(Clone, Copy, PartialEq, Eq, Hash, Debug)]
pub enum Kind {
    Nil,
    Boolean,
    Number,
    String,
    Table,
    Function,
    Thread,
}

impl Kind {
    /// The name of the kind, in small letters.
    pub fn name(self) -> &'static str
        ensures { result.now ≡ kind_name self }
    {
        match self {
            Kind::Nil => "nil",
            Kind::Boolean => "boolean",
            Kind::Number => "number",
            Kind::String => "string",
            Kind::Table => "table",
            Kind::Function => "function",
            Kind::Thread => "thread",
        }
    }
}

/// The state of a coroutine.
#[derive(Clone, Copy, PartialEq, Eq, Hash, Debug)]
pub enum CoStatus {
    Running,
    Suspended,
    /// It has resumed another one, which has not yet yielded or ended.
    Normal,
    Dead,
}
