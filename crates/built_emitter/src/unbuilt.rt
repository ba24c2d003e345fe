//! Which node of a script is not built.

ghost use Rattle.std.specs.Prelude.{◌≡◌, ◌≤◌, [], map, None};
ghost use Rattle.syntax_tree.specs.declared.tree.FuncBody.{out-FuncBody};
ghost use Rattle.syntax_tree.specs.Bound.{faults};
ghost use Rattle.built_emitter.specs.Form.{IsBlock};
ghost use Rattle.built_emitter.specs.Size.{most_words, block_words};
ghost use Rattle.built_emitter.specs.Standing.{IsBound};
ghost use Rattle.built_emitter.specs.Unbuilt.{uses_of, unbuilt_in_stat, unbuilt_in_arm, is_arithmetic, is_comparison, local_statement, assignment, print_call, first_unbuilt};

use crate::bound::bound_at;
use byte_text::StrId;
use syntax_tree::{Arm, BinOp, Bindings, Bound, Expr, ExprKind, Stat, StatKind, Tree};

/// The place of the first node of a script, in source order, that is not built, if there is one.
///
/// The bindings are those of the tree. A script that breaks no rule of scopes and sizes and has no such node can be compiled.
pub fn first_unbuilt(tree: &Tree, bindings: &Bindings) -> Option<usize>
    requires { IsBound tree.now bindings.now }
    ensures place { result ≡ first_unbuilt bindings.now (out-FuncBody tree.now.main).body }
    ensures form { result ≡ None → faults tree.now ≡ [] → IsBlock bindings.now [] (out-FuncBody tree.now.main).body }
    ensures small { result ≡ None → faults tree.now ≡ [] → block_words (out-FuncBody tree.now.main).body ≤ most_words }
{
    in_block(bindings, tree.main.body.as_slice())
}

// What is not built in a block.
#[cycle(unbuilt)]
fn in_block(bindings: &Bindings, block: &[Stat]) -> Option<usize>
    ensures { result ≡ first_unbuilt bindings.now block.now }
{
    for stat in block {
        if let Some(at) = in_statement(bindings, stat) {
            return Some(at);
        }
    }
    None
}

// What is not built in a statement.
#[cycle(unbuilt)]
fn in_statement(bindings: &Bindings, stat: &Stat) -> Option<usize>
    ensures { result ≡ unbuilt_in_stat bindings.now stat.now }
{
    match &stat.kind {
        StatKind::Local { names, values } => {
            in_local(bindings, stat.at, names.as_slice(), values.as_slice())
        }
        StatKind::Assign { targets, values } => {
            in_assignment(bindings, stat.at, targets.as_slice(), values.as_slice())
        }
        StatKind::Call(call) => in_call(bindings, call),
        StatKind::If { arms, other } => {
            let [arm] = arms.as_slice() else {
                return Some(stat.at);
            };
            if let Some(at) = in_arm(bindings, arm) {
                return Some(at);
            }
            match other {
                None => None,
                Some(body) => in_block(bindings, body.as_slice()),
            }
        }
        StatKind::While { cond, body } => match in_condition(bindings, cond.get()) {
            Some(at) => Some(at),
            None => in_block(bindings, body.as_slice()),
        },
        _ => Some(stat.at),
    }
}

// What is not built in a condition and its block.
#[cycle(unbuilt)]
fn in_arm(bindings: &Bindings, arm: &Arm) -> Option<usize>
    ensures { result ≡ unbuilt_in_arm bindings.now arm.now }
{
    match in_condition(bindings, &arm.cond) {
        Some(at) => Some(at),
        None => in_block(bindings, arm.body.as_slice()),
    }
}

// What is not built in a `local` at a place.
fn in_local(bindings: &Bindings, at: usize, names: &[StrId], values: &[Expr]) -> Option<usize>
    ensures { result ≡ local_statement at names.now (map (uses_of bindings.now) values.now) }
{
    let [_] = names else {
        return Some(at);
    };
    let [value] = values else {
        return Some(at);
    };
    in_value(bindings, value)
}

// What is not built in an assignment at a place.
fn in_assignment(bindings: &Bindings, at: usize, targets: &[Expr], values: &[Expr]) -> Option<usize>
    ensures { result ≡ assignment at (map (uses_of bindings.now) targets.now) (map (uses_of bindings.now) values.now) }
{
    let [target] = targets else {
        return Some(at);
    };
    let [value] = values else {
        return Some(at);
    };
    if is_local(bindings, target) {
        in_value(bindings, value)
    } else {
        Some(at)
    }
}

// What is not built in a call that is a statement.
fn in_call(bindings: &Bindings, call: &Expr) -> Option<usize>
    ensures { result ≡ (uses_of bindings.now call.now).call }
{
    match &call.kind {
        ExprKind::Call { callee, args } => {
            in_print(bindings, call.at, callee.get(), args.as_slice())
        }
        _ => Some(call.at),
    }
}

// What is not built in a call of a function at a place.
fn in_print(bindings: &Bindings, at: usize, callee: &Expr, args: &[Expr]) -> Option<usize>
    ensures { result ≡ print_call at (uses_of bindings.now callee.now) (map (uses_of bindings.now) args.now) }
{
    let [argument] = args else {
        return Some(at);
    };
    if is_print(bindings, callee) {
        in_value(bindings, argument)
    } else {
        Some(at)
    }
}

// What is not built in a condition.
fn in_condition(bindings: &Bindings, cond: &Expr) -> Option<usize>
    ensures { result ≡ (uses_of bindings.now cond.now).condition }
{
    match &cond.kind {
        ExprKind::Binary { op, a, b } => {
            if !is_comparison(*op) {
                return Some(cond.at);
            }
            match in_value(bindings, a.get()) {
                Some(at) => Some(at),
                None => in_value(bindings, b.get()),
            }
        }
        _ => Some(cond.at),
    }
}

// What is not built in a value.
fn in_value(bindings: &Bindings, e: &Expr) -> Option<usize>
    ensures { result ≡ (uses_of bindings.now e.now).value }
{
    match &e.kind {
        ExprKind::Num(_) => None,
        ExprKind::Name(_) => match bound_at(bindings, e.id) {
            Some(Bound::Local(_)) => None,
            _ => Some(e.at),
        },
        ExprKind::Binary { op, a, b } => {
            if !is_arithmetic(*op) {
                return Some(e.at);
            }
            match in_value(bindings, a.get()) {
                Some(at) => Some(at),
                None => in_value(bindings, b.get()),
            }
        }
        _ => Some(e.at),
    }
}

// Whether an expression is the name of a local.
fn is_local(bindings: &Bindings, e: &Expr) -> bool
    ensures { result ≡ (uses_of bindings.now e.now).local }
{
    match &e.kind {
        ExprKind::Name(_) => matches!(bound_at(bindings, e.id), Some(Bound::Local(_))),
        _ => false,
    }
}

// Whether an expression is the name `print`, which no local has taken.
fn is_print(bindings: &Bindings, e: &Expr) -> bool
    ensures { result ≡ (uses_of bindings.now e.now).print }
{
    match &e.kind {
        ExprKind::Name(name) => {
            *name == StrId::PRINT && matches!(bound_at(bindings, e.id), Some(Bound::Global))
        }
        _ => false,
    }
}

// Whether an operator is `+`, `-` or `*`.
fn is_arithmetic(op: BinOp) -> bool
    ensures { result ≡ is_arithmetic op }
{
    matches!(op, BinOp::Add | BinOp::Sub | BinOp::Mul)
}

// Whether an operator compares.
fn is_comparison(op: BinOp) -> bool
    ensures { result ≡ is_comparison op }
{
    matches!(
        op,
        BinOp::Eq | BinOp::Ne | BinOp::Lt | BinOp::Le | BinOp::Gt | BinOp::Ge
    )
}
