//! How deep a tree nests.

ghost use Rattle.std.specs.Prelude.{◌≡◌, min, map};
ghost use Rattle.syntax_tree.specs.Lists.{greatest};
ghost use Rattle.syntax_tree.specs.Nest as spec;

use crate::tree::{Arm, Expr, ExprArm, ExprKind, Field, FieldKind, FuncBody, Stat, StatKind, Tree};
use sqlite_items::Boxed;

/// The greatest number of nodes on one path that hold others but statements and their lists: loops, blocks, `if`,
/// functions, and all expressions that have parts. It stands still at `usize::MAX`.
pub fn nest(tree: &Tree) -> usize
    ensures { result ≡ min (spec.nest tree.now) usize.MAX }
{
    nest_func(&tree.main)
}

#[cycle(nest)]
fn nest_func(func: &FuncBody) -> usize
    ensures { result ≡ min (spec.nest_func func.now) usize.MAX }
{
    nest_block(func.body.as_slice())
}

#[cycle(nest)]
fn nest_block(block: &[Stat]) -> usize
    ensures { result ≡ min (greatest (map spec.nest_stat block.now)) usize.MAX }
{
    let mut deepest = 0;
    for stat in block {
        deepest = nest_stat(stat).max(deepest);
    }
    deepest
}

#[cycle(nest)]
fn nest_list(list: &[Expr]) -> usize
    ensures { result ≡ min (greatest (map spec.nest_expr list.now)) usize.MAX }
{
    let mut deepest = 0;
    for expr in list {
        deepest = nest_expr(expr).max(deepest);
    }
    deepest
}

#[cycle(nest)]
fn nest_arms(arms: &[Arm]) -> usize
    ensures { result ≡ min (greatest (map spec.nest_arm arms.now)) usize.MAX }
{
    let mut deepest = 0;
    for arm in arms {
        let cond = nest_expr(&arm.cond);
        let body = nest_block(arm.body.as_slice());
        deepest = cond.max(body).max(deepest);
    }
    deepest
}

#[cycle(nest)]
fn nest_expr_arms(arms: &[ExprArm]) -> usize
    ensures { result ≡ min (greatest (map spec.nest_expr_arm arms.now)) usize.MAX }
{
    let mut deepest = 0;
    for arm in arms {
        let cond = nest_expr(&arm.cond);
        let value = nest_expr(&arm.value);
        deepest = cond.max(value).max(deepest);
    }
    deepest
}

#[cycle(nest)]
fn nest_fields(fields: &[Field]) -> usize
    ensures { result ≡ min (greatest (map spec.nest_field fields.now)) usize.MAX }
{
    let mut deepest = 0;
    for field in fields {
        deepest = nest_field(field).max(deepest);
    }
    deepest
}

#[cycle(nest)]
fn nest_field(field: &Field) -> usize
    ensures { result ≡ min (spec.nest_field field.now) usize.MAX }
{
    match &field.kind {
        FieldKind::Item(value) => nest_expr(value),
        FieldKind::Named(_, value) => nest_expr(value),
        FieldKind::Keyed(key, value) => nest_expr(key).max(nest_expr(value)),
    }
}

#[cycle(nest)]
fn nest_stat(stat: &Stat) -> usize
    ensures { result ≡ min (spec.nest_stat stat.now) usize.MAX }
{
    match &stat.kind {
        StatKind::Local { names: _, values } => nest_list(values.as_slice()),
        StatKind::Assign { targets, values } => {
            nest_list(targets.as_slice()).max(nest_list(values.as_slice()))
        }
        StatKind::Compound {
            op: _,
            target,
            value,
        } => { nest_expr(target.get()).max(nest_expr(value.get())) }
        StatKind::Call(call) => nest_expr(call),
        StatKind::Do(body) => nest_block(body.as_slice()).saturating_add(1),
        StatKind::While { cond, body } => nest_expr(cond.get())
            .max(nest_block(body.as_slice()))
            .saturating_add(1),
        StatKind::Repeat { body, cond } => nest_expr(cond.get())
            .max(nest_block(body.as_slice()))
            .saturating_add(1),
        StatKind::If { arms, other } => {
            let arms = nest_arms(arms.as_slice());
            let other = match other {
                Some(body) => nest_block(body.as_slice()),
                None => 0,
            };
            arms.max(other).saturating_add(1)
        }
        StatKind::NumFor {
            name: _,
            start,
            limit,
            step,
            body,
        } => {
            let body = nest_block(body.as_slice());
            let bounds = nest_expr(start.get()).max(nest_expr(limit.get()));
            bounds.max(nest_step(step)).max(body).saturating_add(1)
        }
        StatKind::GenFor {
            names: _,
            values,
            body,
        } => nest_list(values.as_slice())
            .max(nest_block(body.as_slice()))
            .saturating_add(1),
        StatKind::LocalFunction { name: _, func } => nest_func(func).saturating_add(1),
        StatKind::Return(values) => nest_list(values.as_slice()),
        StatKind::Break | StatKind::Continue => 0,
    }
}

#[cycle(nest)]
fn nest_step(step: &Option<Boxed<Expr>>) -> usize
    ensures { result ≡ min (spec.nest_step step.now) usize.MAX }
{
    match step {
        Some(step) => nest_expr(step.get()),
        None => 0,
    }
}

#[cycle(nest)]
fn nest_expr(expr: &Expr) -> usize
    ensures { result ≡ min (spec.nest_expr expr.now) usize.MAX }
{
    match &expr.kind {
        ExprKind::Paren(e) => nest_expr(e.get()).saturating_add(1),
        ExprKind::Unary { op: _, e } => nest_expr(e.get()).saturating_add(1),
        ExprKind::Binary { op: _, a, b } => nest_expr(a.get())
            .max(nest_expr(b.get()))
            .saturating_add(1),
        ExprKind::Concat(list) => nest_list(list.as_slice()).saturating_add(1),
        ExprKind::Index { table, key } => nest_expr(table.get())
            .max(nest_expr(key.get()))
            .saturating_add(1),
        ExprKind::Member { table, name: _ } => nest_expr(table.get()).saturating_add(1),
        ExprKind::Call { callee, args } => nest_expr(callee.get())
            .max(nest_list(args.as_slice()))
            .saturating_add(1),
        ExprKind::Method {
            object,
            name: _,
            args,
        } => nest_expr(object.get())
            .max(nest_list(args.as_slice()))
            .saturating_add(1),
        ExprKind::Table(fields) => nest_fields(fields.as_slice()).saturating_add(1),
        ExprKind::Function(func) => nest_func(func).saturating_add(1),
        ExprKind::If { arms, other } => nest_expr_arms(arms.as_slice())
            .max(nest_expr(other.get()))
            .saturating_add(1),
        ExprKind::Interp { texts: _, values } => nest_list(values.as_slice()).saturating_add(1),
        ExprKind::Nil
        | ExprKind::True
        | ExprKind::False
        | ExprKind::Num(_)
        | ExprKind::Str(_)
        | ExprKind::Vararg
        | ExprKind::Name(_) => 0,
    }
}
