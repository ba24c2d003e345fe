//! Statements of a tree that is not numbered yet.

ghost use Rattle.std.specs.Prelude.{◌≡◌, ◌∷◌, ◌++◌, [], IfOk, OnOk};
ghost use Rattle.syntax_tree.specs.Nodes.{stat_at, arm};
ghost use Rattle.syntax_tree.specs.declared.tree.StatKind as stat;
ghost use Rattle.luau_parser.specs.Statements.{assigns_function};

use expression_parser::{Function, boxed_at, func_at, line, offset, push};
use sqlite_items::{Boxed, Items};
use std::alloc::{AllocError, Global};
use syntax_tree::{Arm, Expr, ExprKind, Stat, StatKind, Token};

/// A statement that begins at a place.
pub(crate) fn boxed_stat(
    alloc: Global,
    tokens: &[Token],
    place: usize,
    kind: StatKind,
) -> Result<Boxed<Stat>, AllocError>
    ensures { IfOk result (λ s. s ≡ stat_at tokens.now place kind) }
{
    let stat = Stat {
        id: 0,
        at: offset(tokens, place),
        line: line(tokens, place),
        kind,
    };
    Boxed::new(alloc, stat)
}

/// A call that is a statement.
pub(crate) fn call_stat(
    alloc: Global,
    tokens: &[Token],
    place: usize,
    call: Boxed<Expr>,
) -> Result<Boxed<Stat>, AllocError>
    ensures { IfOk result (λ s. s ≡ stat_at tokens.now place (stat.Call call)) }
{
    boxed_stat(alloc, tokens, place, StatKind::Call(call.into_inner()))
}

/// The assignment of a function, whose word stands at a place, to a target.
pub(crate) fn function_assigned(
    alloc: Global,
    tokens: &[Token],
    place: usize,
    target: Boxed<Expr>,
    function: Function,
) -> Result<Boxed<Stat>, AllocError>
    ensures { IfOk result (λ s. s ≡ assigns_function tokens.now place target function) }
{
    let mut targets = Items::new(alloc);
    push(&mut targets, target)?;
    let func = func_at(tokens, place, function);
    let value = boxed_at(alloc, tokens, place, ExprKind::Function(func))?;
    let mut values = Items::new(alloc);
    push(&mut values, value)?;
    boxed_stat(alloc, tokens, place, StatKind::Assign { targets, values })
}

/// Puts a statement at the end of a list.
pub(crate) fn push_stat(list: &mut Items<Stat>, stat: Boxed<Stat>) -> Result<(), AllocError>
    ensures { OnOk result (list.new ≡ list.old ++ stat ∷ []) }
{
    list.push(stat.into_inner())
}

/// Puts an arm at the end of a list.
pub(crate) fn push_arm(
    list: &mut Items<Arm>,
    cond: Boxed<Expr>,
    body: Items<Stat>,
) -> Result<(), AllocError>
    ensures { OnOk result (list.new ≡ list.old ++ arm cond body ∷ []) }
{
    list.push(Arm {
        cond: cond.into_inner(),
        body,
    })
}
