//! Why a tree is refused.

ghost use Rattle.std.specs.Prelude.{◌≡◌, MatchOption, []};
ghost use Rattle.syntax_tree.specs.Faults.{IsFirst};
ghost use Rattle.scopes.specs.Refused.{IsRefusal, IsEarlier, refusal_of};

use resource::OutOfMemory;
use std::error::Error;
use std::fmt;
use syntax_tree::{Cause, Refusal, ScopeFault, ScopeRule};

/// Why a tree is refused. Each rule that it breaks has a place: the byte offset of the statement, the `continue`, the
/// `...`, the statement or function that declares the local, the name, or the function.
#[derive(Clone, Copy, PartialEq, Eq, Hash, Debug)]
pub enum ScopeErr {
    /// A `break` or `continue` that stands in no loop of its function.
    LoopWordOutside { at: usize },
    /// A `continue` of a `repeat` that skips a local of the body which the condition uses.
    UntilSkipsLocal { at: usize },
    /// A `...` in a function that does not take any number of arguments.
    VarargOutside { at: usize },
    /// Too many locals are live in a function.
    TooManyLocals { at: usize },
    /// A function captures too many variables.
    TooManyUpvalues { at: usize },
    /// A function needs too many registers.
    TooWide { at: usize },
    /// The bulk of a function is too great.
    TooLong { at: usize },
    /// There was no memory left.
    OutOfMemory,
}

impl ScopeErr {
    /// The refusal that names a broken rule.
    pub fn from_fault(fault: ScopeFault) -> ScopeErr
        ensures { IsRefusal fault result }
    {
        let at = fault.at;
        match fault.rule {
            ScopeRule::LoopWordOutside => ScopeErr::LoopWordOutside { at },
            ScopeRule::UntilSkipsLocal => ScopeErr::UntilSkipsLocal { at },
            ScopeRule::VarargOutside => ScopeErr::VarargOutside { at },
            ScopeRule::TooManyLocals => ScopeErr::TooManyLocals { at },
            ScopeRule::TooManyUpvalues => ScopeErr::TooManyUpvalues { at },
            ScopeRule::TooWide => ScopeErr::TooWide { at },
            ScopeRule::TooLong => ScopeErr::TooLong { at },
        }
    }

    /// Why and where the tree is refused. There is no refusal where memory ran out.
    pub fn refusal(self) -> Option<Refusal>
        ensures { result ≡ refusal_of self }
    {
        let (cause, at) = match self {
            ScopeErr::LoopWordOutside { at } => (Cause::LoopWordOutside, at),
            ScopeErr::UntilSkipsLocal { at } => (Cause::UntilSkipsLocal, at),
            ScopeErr::VarargOutside { at } => (Cause::VarargOutside, at),
            ScopeErr::TooManyLocals { at } => (Cause::TooManyLocals, at),
            ScopeErr::TooManyUpvalues { at } => (Cause::TooManyUpvalues, at),
            ScopeErr::TooWide { at } => (Cause::TooWide, at),
            ScopeErr::TooLong { at } => (Cause::TooLong, at),
            ScopeErr::OutOfMemory => return None,
        };
        Some(Refusal { cause, at })
    }
}

impl fmt::Display for ScopeErr {
    fn fmt<W: fmt::Write>(&self, f: &mut fmt::Formatter<W>) -> fmt::Result {
        match self.refusal() {
            Some(refusal) => write!(f, "{refusal}"),
            None => write!(f, "out of memory"),
        }
    }
}

impl Error for ScopeErr {}

impl From<OutOfMemory> for ScopeErr {
    ghost use Rattle.std.specs.Prelude.{◌≡◌};
    ghost use Rattle.scopes.specs.declared.error.ScopeErr.TheVariants.{OutOfMemory};

    ghost from_gives = { λ _ e. e ≡ OutOfMemory };

    fn from(_: OutOfMemory) -> ScopeErr {
        ScopeErr::OutOfMemory
    }
}

/// The fault that comes first of two.
fn earlier(a: ScopeFault, b: ScopeFault) -> ScopeFault
    ensures { IsEarlier a b result }
{
    if a.at < b.at {
        return a;
    }
    if b.at < a.at {
        return b;
    }
    if a.rule.cause().number() <= b.rule.cause().number() {
        a
    } else {
        b
    }
}

/// The first of one fault more.
fn first_with(first: Option<ScopeFault>, fault: ScopeFault) -> ScopeFault
    ensures { MatchOption first (result ≡ fault) (λ found. IsEarlier found fault result) }
{
    match first {
        Some(found) => earlier(found, fault),
        None => fault,
    }
}

/// The first of the faults.
pub fn first_of(faults: &[ScopeFault]) -> Option<ScopeFault>
    ensures { MatchOption result (faults.now ≡ []) (IsFirst faults.now) }
{
    let mut first: Option<ScopeFault> = None;
    for fault in faults {
        first = Some(first_with(first, *fault));
    }
    first
}
