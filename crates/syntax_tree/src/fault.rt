//! Why and where a script is refused.

ghost use Rattle.std.specs.Prelude.{◌≡◌};
ghost use Rattle.syntax_tree.specs.Causes.{name, number, named, cause_of};

use std::fmt;

/// Why a script is refused.
#[derive(Clone, Copy, PartialEq, Eq, Hash, Debug)]
pub enum Cause {
    /// A byte begins no token.
    BadByte,
    /// A string has no end.
    UnfinishedString,
    /// An escape is malformed.
    BadEscape,
    /// A long comment has no end.
    UnfinishedComment,
    /// A number is malformed.
    BadNumber,
    /// A number is not whole.
    NotWholeLiteral,
    /// A number is whole and above 2^53.
    LiteralRange,
    /// `{{` stands in an interpolated string.
    DoubleBrace,
    /// No script goes on with a token.
    Unexpected,
    /// The constructs nest too deep, or too many brackets of a type are open.
    TooDeep,
    /// A `(` on a later line than the token before it opens a call's arguments.
    AmbiguousCall,
    /// A `break` or `continue` stands in no loop of its function.
    LoopWordOutside,
    /// A `continue` of a `repeat` skips a local of the body which the condition uses.
    UntilSkipsLocal,
    /// A `...` stands in a function that does not take any number of arguments.
    VarargOutside,
    /// Too many locals of a function are live.
    TooManyLocals,
    /// A function captures too many variables.
    TooManyUpvalues,
    /// A function needs too many registers.
    TooWide,
    /// The bulk of a function is too great.
    TooLong,
}

impl Cause {
    /// The name of a cause.
    pub fn name(self) -> &'static str
        ensures { result.now ≡ name self }
    {
        self.named().0
    }

    /// The number of a cause.
    pub fn number(self) -> u8
        ensures { result ≡ number self }
    {
        self.named().1
    }

    // The name and the number.
    fn named(self) -> (&'static str, u8)
        ensures name { result.0.now ≡ (named self).0 }
        ensures number { result.1 ≡ (named self).1 }
    {
        match self {
            Cause::BadByte => ("BadByte", 1),
            Cause::UnfinishedString => ("UnfinishedString", 2),
            Cause::BadEscape => ("BadEscape", 3),
            Cause::UnfinishedComment => ("UnfinishedComment", 4),
            Cause::BadNumber => ("BadNumber", 5),
            Cause::NotWholeLiteral => ("NotWholeLiteral", 6),
            Cause::LiteralRange => ("LiteralRange", 7),
            Cause::DoubleBrace => ("DoubleBrace", 8),
            Cause::Unexpected => ("Unexpected", 10),
            Cause::TooDeep => ("TooDeep", 11),
            Cause::AmbiguousCall => ("AmbiguousCall", 12),
            Cause::LoopWordOutside => ("LoopWordOutside", 20),
            Cause::UntilSkipsLocal => ("UntilSkipsLocal", 21),
            Cause::VarargOutside => ("VarargOutside", 22),
            Cause::TooManyLocals => ("TooManyLocals", 23),
            Cause::TooManyUpvalues => ("TooManyUpvalues", 24),
            Cause::TooWide => ("TooWide", 25),
            Cause::TooLong => ("TooLong", 26),
        }
    }
}

/// A cause, and where it shows: an offset in bytes.
#[derive(Clone, Copy, PartialEq, Eq, Hash, Debug)]
pub struct Refusal {
    pub cause: Cause,
    pub at: usize,
}

/// The cause by its name and number, and the place.
impl fmt::Display for Refusal {
    ghost use Rattle.std.specs.Prelude.{Some};
    ghost use Rattle.syntax_tree.specs.Causes.{refusal_text};

    ghost output = { λ r. Some (refusal_text r) };

    fn fmt<W: fmt::Write>(&self, f: &mut fmt::Formatter<W>) -> fmt::Result {
        let name = self.cause.name();
        let number = self.cause.number();
        let at = self.at;
        write!(f, "{name} {number} at {at}")
    }
}

/// A rule that a tree may break.
#[derive(Clone, Copy, PartialEq, Eq, Hash, Debug)]
pub enum ScopeRule {
    /// `break` and `continue` stand in a loop of their function.
    LoopWordOutside,
    /// A `continue` of a `repeat` skips no local of its body that its condition uses.
    UntilSkipsLocal,
    /// `...` stands in a function that takes any number of arguments.
    VarargOutside,
    /// Not too many locals of a function are live.
    TooManyLocals,
    /// A function does not capture too many variables.
    TooManyUpvalues,
    /// A function does not need too many registers.
    TooWide,
    /// The bulk of a function is not too great.
    TooLong,
}

impl ScopeRule {
    /// Why a script is refused that breaks the rule.
    pub fn cause(self) -> Cause
        ensures { result ≡ cause_of self }
    {
        match self {
            ScopeRule::LoopWordOutside => Cause::LoopWordOutside,
            ScopeRule::UntilSkipsLocal => Cause::UntilSkipsLocal,
            ScopeRule::VarargOutside => Cause::VarargOutside,
            ScopeRule::TooManyLocals => Cause::TooManyLocals,
            ScopeRule::TooManyUpvalues => Cause::TooManyUpvalues,
            ScopeRule::TooWide => Cause::TooWide,
            ScopeRule::TooLong => Cause::TooLong,
        }
    }
}

/// A broken rule and where it is broken: the byte offset of the statement, word, name or function.
#[derive(Clone, Copy, PartialEq, Eq, Hash, Debug)]
pub struct ScopeFault {
    pub at: usize,
    pub rule: ScopeRule,
}
