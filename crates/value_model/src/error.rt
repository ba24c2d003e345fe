//! The run errors, and their texts.

ghost use Rattle.std.specs.Prelude.{◌≡◌, ◌++◌, OnOk, OnErr, IfOk};
ghost use Rattle.value_model.specs.Values.{kind_name};
ghost use Rattle.value_model.specs.Errors.{IndexWithName, Arithmetic, ForBound, MissingArgument, InvalidArgument, ArgumentOutOfRange, InvalidElement, bound_name, error_text, wanted_name};
ghost use Rattle.value_model.specs.Paths as paths;
ghost use Rattle.value_model.specs.Paths.{name_in_errors};
ghost use Rattle.value_model.specs.Parts.{IsKnown, meant_error};

use crate::builtin::Builtin;
use crate::kind::Kind;
use crate::operator::ArithOp;
use crate::text::{argument, joined, last_name};
use byte_text::{Interner, StrId};
use resource::OutOfMemory;
use std::alloc::Global;
use whole_num::{Whole, print_into};

/// What a function wants of an argument.
#[derive(Clone, Copy, PartialEq, Eq, Hash, Debug)]
pub enum Wanted {
    /// A value of a kind.
    OfKind(Kind),
    /// A value that is no object: nil, a boolean, a number or a string.
    PlainValue,
    Coroutine,
    /// Any value, which has to be there.
    AnyValue,
}

/// A bound of a numeric `for`.
#[derive(Clone, Copy, PartialEq, Eq, Hash, Debug)]
pub enum LoopBound {
    Initial,
    Limit,
    Step,
}

/// A run error. Arguments count from 1.
#[derive(Clone, Copy, PartialEq, Eq, Hash, Debug)]
pub enum RunErr {
    /// A value that cannot be indexed was indexed with a string.
    IndexWithName {
        base: Kind,
        key: StrId,
    },
    /// A value that cannot be indexed was indexed with another value.
    IndexWith {
        base: Kind,
        key: Kind,
    },
    CallOf {
        callee: Kind,
    },
    /// For `Unm` only the left operand is shown.
    Arithmetic {
        operator: ArithOp,
        left: Kind,
        right: Kind,
    },
    Concatenate {
        left: Kind,
        right: Kind,
    },
    CompareLess {
        left: Kind,
        right: Kind,
    },
    CompareLessOrEqual {
        left: Kind,
        right: Kind,
    },
    LengthOf {
        operand: Kind,
    },
    IterateOver {
        operand: Kind,
    },
    ReadonlyTable,
    /// A value was stored under nil.
    NilKey,
    /// `next` was given a key that was never inserted.
    UnknownKey,
    /// A chain of `__index` has more than 100 links.
    IndexChain,
    /// A chain of `__newindex` has more than 100 links.
    NewindexChain,
    /// A bound of a numeric `for` is no number.
    ForBound {
        bound: LoopBound,
        got: Kind,
    },
    MissingArgument {
        argument: usize,
        function: Builtin,
        wanted: Wanted,
    },
    InvalidArgument {
        argument: usize,
        function: Builtin,
        wanted: Wanted,
        got: Kind,
    },
    /// A host function, here by its whole path, was given an object.
    HostArgument {
        argument: usize,
        path: StrId,
        got: Kind,
    },
    ArgumentOutOfRange {
        argument: usize,
        function: Builtin,
    },
    /// In a format of `string.format`.
    InvalidDirective,
    ProtectedMetatable,
    FixedEnvironment,
    DeadCoroutine,
    NotSuspended,
    CloseRunning,
    YieldOutside,
    AssertionFailed,
    NotStringByTostring,
    StringTooLarge,
    TooManyValues,
    /// `table.concat` met a value that is neither a string nor a number.
    InvalidElement {
        got: Kind,
        place: Whole,
    },
    /// The replies of the host were used up.
    NoReply,
}

impl Wanted {
    /// What is wanted, as errors name it.
    fn name(self) -> &'static str
        ensures { result.now ≡ wanted_name self }
    {
        match self {
            Wanted::OfKind(kind) => kind.name(),
            Wanted::PlainValue => "plain value",
            Wanted::Coroutine => "coroutine",
            Wanted::AnyValue => "value",
        }
    }
}

impl LoopBound {
    /// The bound, as errors name it.
    fn name(self) -> &'static str
        ensures { result.now ≡ bound_name self }
    {
        match self {
            LoopBound::Initial => "initial",
            LoopBound::Limit => "limit",
            LoopBound::Step => "step",
        }
    }
}

impl RunErr {
    /// Appends the error's text to `out`. The texts that it shows are numbered by `names`. Where memory is wanting, `out` is as it was.
    pub fn text_into(&self, names: &Interner, out: &mut Vec<u8>) -> Result<(), OutOfMemory>
        requires { IsKnown names.now self.now }
        ensures ok { OnOk result (out.new.items ≡ out.old.items ++ error_text (meant_error names.now self.now)) }
        ensures err { OnErr result (out.new.items ≡ out.old.items) }
    {
        let text = self.text(*out.allocator(), names)?;
        out.extend_from_slice(text.as_slice())?;
        Ok(())
    }

    /// The error's text.
    #[tactic(auto, unfolding(crate::specs::Parts::meant_error, crate::specs::Errors::error_text))]
    fn text(&self, alloc: Global, names: &Interner) -> Result<Vec<u8>, OutOfMemory>
        requires { IsKnown names.now self.now }
        ensures { IfOk result (λ v. v.items ≡ error_text (meant_error names.now self.now)) }
    {
        match *self {
            RunErr::IndexWithName { base, key } => quoted(alloc, base, names.bytes(key)),
            RunErr::IndexWith { base, key } => two_kinds(
                alloc,
                "attempt to index ",
                base,
                " with ",
                key,
            ),
            RunErr::CallOf { callee } => one_kind(alloc, "attempt to call a ", callee, " value"),
            RunErr::Arithmetic {
                operator,
                left,
                right,
            } => arithmetic(alloc, operator, left, right),
            RunErr::Concatenate { left, right } => two_kinds(
                alloc,
                "attempt to concatenate ",
                left,
                " with ",
                right,
            ),
            RunErr::CompareLess { left, right } => two_kinds(
                alloc,
                "attempt to compare ",
                left,
                " < ",
                right,
            ),
            RunErr::CompareLessOrEqual { left, right } => two_kinds(
                alloc,
                "attempt to compare ",
                left,
                " <= ",
                right,
            ),
            RunErr::LengthOf { operand } => one_kind(
                alloc,
                "attempt to get length of a ",
                operand,
                " value",
            ),
            RunErr::IterateOver { operand } => one_kind(
                alloc,
                "attempt to iterate over a ",
                operand,
                " value",
            ),
            RunErr::ReadonlyTable => whole(alloc, "attempt to modify a readonly table"),
            RunErr::NilKey => whole(alloc, "table index is nil"),
            RunErr::UnknownKey => whole(alloc, "invalid key to 'next'"),
            RunErr::IndexChain => whole(alloc, "'__index' chain too long"),
            RunErr::NewindexChain => whole(alloc, "'__newindex' chain too long"),
            RunErr::ForBound { bound, got } => for_bound(alloc, bound, got),
            RunErr::MissingArgument {
                argument,
                function,
                wanted,
            } => missing(alloc, argument, function, wanted),
            RunErr::InvalidArgument {
                argument,
                function,
                wanted,
                got,
            } => invalid(alloc, argument, function.path().as_bytes(), wanted, got),
            RunErr::HostArgument {
                argument,
                path,
                got,
            } => { invalid(alloc, argument, names.bytes(path), Wanted::PlainValue, got) }
            RunErr::ArgumentOutOfRange { argument, function } => out_of_range(
                alloc, argument, function,
            ),
            RunErr::InvalidDirective => whole(alloc, "invalid directive in 'format'"),
            RunErr::ProtectedMetatable => whole(alloc, "cannot change a protected metatable"),
            RunErr::FixedEnvironment => whole(alloc, "cannot change environment of this function"),
            RunErr::DeadCoroutine => whole(alloc, "cannot resume dead coroutine"),
            RunErr::NotSuspended => whole(alloc, "cannot resume non-suspended coroutine"),
            RunErr::CloseRunning => whole(alloc, "cannot close a running coroutine"),
            RunErr::YieldOutside => whole(alloc, "attempt to yield from outside a coroutine"),
            RunErr::AssertionFailed => whole(alloc, "assertion failed!"),
            RunErr::NotStringByTostring => whole(alloc, "'__tostring' must return a string"),
            RunErr::StringTooLarge => whole(alloc, "resulting string too large"),
            RunErr::TooManyValues => whole(alloc, "too many values"),
            RunErr::InvalidElement { got, place } => invalid_element(alloc, got, place),
            RunErr::NoReply => whole(alloc, "no reply from host"),
        }
    }
}

/// A text without a part that changes.
fn whole(alloc: Global, text: &str) -> Result<Vec<u8>, OutOfMemory>
    ensures { IfOk result (λ v. v.items ≡ text.now) }
{
    Ok(Vec::from_slice(alloc, text.as_bytes())?)
}

/// A text that shows a kind.
fn one_kind(
    alloc: Global,
    before: &'static str,
    kind: Kind,
    behind: &'static str,
) -> Result<Vec<u8>, OutOfMemory>
    ensures { IfOk result (λ v. v.items ≡ before.now ++ kind_name kind ++ behind.now) }
{
    joined(
        alloc,
        &[before.as_bytes(), kind.name().as_bytes(), behind.as_bytes()],
    )
}

/// A text that shows two kinds.
fn two_kinds(
    alloc: Global,
    before: &'static str,
    left: Kind,
    between: &'static str,
    right: Kind,
) -> Result<Vec<u8>, OutOfMemory>
    ensures { IfOk result (λ v. v.items ≡ before.now ++ kind_name left ++ between.now ++ kind_name right) }
{
    joined(
        alloc,
        &[
            before.as_bytes(),
            left.name().as_bytes(),
            between.as_bytes(),
            right.name().as_bytes(),
        ],
    )
}

fn quoted(alloc: Global, base: Kind, key: &[u8]) -> Result<Vec<u8>, OutOfMemory>
    ensures { IfOk result (λ v. v.items ≡ error_text (IndexWithName base key.now)) }
{
    let mut text = joined(
        alloc,
        &[
            "attempt to index ".as_bytes(),
            base.name().as_bytes(),
            " with '".as_bytes(),
        ],
    )?;
    text.extend_from_slice(key)?;
    text.push(b'\'')?;
    Ok(text)
}

fn arithmetic(
    alloc: Global,
    operator: ArithOp,
    left: Kind,
    right: Kind,
) -> Result<Vec<u8>, OutOfMemory>
    ensures { IfOk result (λ v. v.items ≡ error_text (Arithmetic operator left right)) }
{
    let front = "attempt to perform arithmetic (";
    match operator {
        ArithOp::Unm => joined(
            alloc,
            &[
                front.as_bytes(),
                operator.name().as_bytes(),
                ") on ".as_bytes(),
                left.name().as_bytes(),
            ],
        ),
        _ => joined(
            alloc,
            &[
                front.as_bytes(),
                operator.name().as_bytes(),
                ") on ".as_bytes(),
                left.name().as_bytes(),
                " and ".as_bytes(),
                right.name().as_bytes(),
            ],
        ),
    }
}

fn for_bound(alloc: Global, bound: LoopBound, got: Kind) -> Result<Vec<u8>, OutOfMemory>
    ensures { IfOk result (λ v. v.items ≡ error_text (ForBound bound got)) }
{
    joined(
        alloc,
        &[
            "invalid 'for' ".as_bytes(),
            bound.name().as_bytes(),
            " value (number expected, got ".as_bytes(),
            got.name().as_bytes(),
            ")".as_bytes(),
        ],
    )
}

fn missing(
    alloc: Global,
    number: usize,
    function: Builtin,
    wanted: Wanted,
) -> Result<Vec<u8>, OutOfMemory>
    ensures { IfOk result (λ v. v.items ≡ error_text (MissingArgument number (name_in_errors function) wanted)) }
{
    let argument = argument(alloc, number, last_name(function.path().as_bytes()))?;
    joined(
        alloc,
        &[
            "missing ".as_bytes(),
            argument.as_slice(),
            " (".as_bytes(),
            wanted.name().as_bytes(),
            " expected)".as_bytes(),
        ],
    )
}

/// The path is that of the function.
fn invalid(
    alloc: Global,
    number: usize,
    path: &[u8],
    wanted: Wanted,
    got: Kind,
) -> Result<Vec<u8>, OutOfMemory>
    ensures { IfOk result (λ v. v.items ≡ error_text (InvalidArgument number (paths.last_name path.now) wanted got)) }
{
    let argument = argument(alloc, number, last_name(path))?;
    joined(
        alloc,
        &[
            "invalid ".as_bytes(),
            argument.as_slice(),
            " (".as_bytes(),
            wanted.name().as_bytes(),
            " expected, got ".as_bytes(),
            got.name().as_bytes(),
            ")".as_bytes(),
        ],
    )
}

fn out_of_range(alloc: Global, number: usize, function: Builtin) -> Result<Vec<u8>, OutOfMemory>
    ensures { IfOk result (λ v. v.items ≡ error_text (ArgumentOutOfRange number (name_in_errors function))) }
{
    let argument = argument(alloc, number, last_name(function.path().as_bytes()))?;
    joined(
        alloc,
        &[
            "invalid ".as_bytes(),
            argument.as_slice(),
            " (out of range)".as_bytes(),
        ],
    )
}

fn invalid_element(alloc: Global, got: Kind, place: Whole) -> Result<Vec<u8>, OutOfMemory>
    ensures { IfOk result (λ v. v.items ≡ error_text (InvalidElement got place)) }
{
    let mut number = Vec::new(alloc);
    print_into(place, &mut number)?;
    joined(
        alloc,
        &[
            "invalid value (".as_bytes(),
            got.name().as_bytes(),
            ") at index ".as_bytes(),
            number.as_slice(),
            " in 'concat'".as_bytes(),
        ],
    )
}
