//! How long a function's code may be.

ghost use Rattle.std.specs.Prelude.{◌≡◌, ◌+◌, ◌*◌, min, map, length};
ghost use Rattle.syntax_tree.specs.Lists.{total};
ghost use Rattle.syntax_tree.specs.Bulk as spec;

use crate::bindings::Bindings;
use crate::tree::{Arm, Expr, ExprArm, ExprKind, Field, FieldKind, FuncBody, Stat, StatKind};
use sqlite_items::Boxed;

/// A bound on the code of a function: 8, and 6 for each expression, 8 for each statement, 2 for each name that a
/// `local` or a loop declares, and 1 for each variable that a function made directly in it captures. What stands in
/// such functions is not counted. It stands still at `usize::MAX`.
pub fn bulk(func: &FuncBody, bindings: &Bindings) -> usize
    ensures { result ≡ min (spec.bulk bindings.now func.now) usize.MAX }
{
    bulk_block(func.body.as_slice(), bindings).saturating_add(8)
}

/// How many variables a function captures.
fn captured(func: &FuncBody, bindings: &Bindings) -> usize
    ensures { result ≡ min (spec.bulk_func bindings.now func.now).made usize.MAX }
{
    match bindings.upvalues.get(func.id) {
        Some(variables) => variables.len(),
        None => 0,
    }
}

#[cycle(bulk_stats)]
fn bulk_block(block: &[Stat], bindings: &Bindings) -> usize
    ensures { result ≡ min (total (map (spec.bulk_stat bindings.now) block.now)) usize.MAX }
{
    let mut sum: usize = 0;
    for stat in block {
        sum = sum.saturating_add(bulk_stat(stat, bindings));
    }
    sum
}

#[cycle(bulk_exprs)]
fn bulk_list(list: &[Expr], bindings: &Bindings) -> usize
    ensures { result ≡ min (total (map (spec.bulk_expr bindings.now) list.now)) usize.MAX }
{
    let mut sum: usize = 0;
    for expr in list {
        sum = sum.saturating_add(bulk_expr(expr, bindings));
    }
    sum
}

#[cycle(bulk_stats)]
fn bulk_arms(arms: &[Arm], bindings: &Bindings) -> usize
    ensures { result ≡ min (total (map (spec.bulk_arm bindings.now) arms.now)) usize.MAX }
{
    let mut sum: usize = 0;
    for arm in arms {
        let cond = bulk_expr(&arm.cond, bindings);
        let body = bulk_block(arm.body.as_slice(), bindings);
        sum = sum.saturating_add(cond.saturating_add(body));
    }
    sum
}

#[cycle(bulk_exprs)]
fn bulk_expr_arms(arms: &[ExprArm], bindings: &Bindings) -> usize
    ensures { result ≡ min (total (map (spec.bulk_expr_arm bindings.now) arms.now)) usize.MAX }
{
    let mut sum: usize = 0;
    for arm in arms {
        let cond = bulk_expr(&arm.cond, bindings);
        let value = bulk_expr(&arm.value, bindings);
        sum = sum.saturating_add(cond.saturating_add(value));
    }
    sum
}

#[cycle(bulk_exprs)]
fn bulk_fields(fields: &[Field], bindings: &Bindings) -> usize
    ensures { result ≡ min (total (map (spec.bulk_field bindings.now) fields.now)) usize.MAX }
{
    let mut sum: usize = 0;
    for field in fields {
        sum = sum.saturating_add(bulk_field(field, bindings));
    }
    sum
}

#[cycle(bulk_exprs)]
fn bulk_field(field: &Field, bindings: &Bindings) -> usize
    ensures { result ≡ min (spec.bulk_field bindings.now field.now) usize.MAX }
{
    match &field.kind {
        FieldKind::Item(value) => bulk_expr(value, bindings),
        FieldKind::Named(_, value) => bulk_expr(value, bindings),
        FieldKind::Keyed(key, value) => {
            bulk_expr(key, bindings).saturating_add(bulk_expr(value, bindings))
        }
    }
}

fn bulk_step(step: &Option<Boxed<Expr>>, bindings: &Bindings) -> usize
    ensures { result ≡ min (spec.bulk_step bindings.now step.now) usize.MAX }
{
    match step {
        Some(step) => bulk_expr(step.get(), bindings),
        None => 0,
    }
}

/// What a list of names adds: 2 for each.
fn names_bulk(count: usize) -> usize
    ensures { result ≡ min (2 * count) usize.MAX }
{
    count.saturating_mul(2)
}

#[cycle(bulk_stats)]
fn bulk_stat(stat: &Stat, bindings: &Bindings) -> usize
    ensures { result ≡ min (spec.bulk_stat bindings.now stat.now) usize.MAX }
{
    match &stat.kind {
        StatKind::Local { names, values } => names_bulk(names.len())
            .saturating_add(bulk_list(values.as_slice(), bindings))
            .saturating_add(8),
        StatKind::Assign { targets, values } => bulk_list(targets.as_slice(), bindings)
            .saturating_add(bulk_list(values.as_slice(), bindings))
            .saturating_add(8),
        StatKind::Compound {
            op: _,
            target,
            value,
        } => bulk_expr(target.get(), bindings)
            .saturating_add(bulk_expr(value.get(), bindings))
            .saturating_add(8),
        StatKind::Call(call) => bulk_expr(call, bindings).saturating_add(8),
        StatKind::Do(body) => bulk_block(body.as_slice(), bindings).saturating_add(8),
        StatKind::While { cond, body } => bulk_expr(cond.get(), bindings)
            .saturating_add(bulk_block(body.as_slice(), bindings))
            .saturating_add(8),
        StatKind::Repeat { body, cond } => bulk_block(body.as_slice(), bindings)
            .saturating_add(bulk_expr(cond.get(), bindings))
            .saturating_add(8),
        StatKind::If { arms, other } => {
            let arms = bulk_arms(arms.as_slice(), bindings);
            let other = match other {
                Some(body) => bulk_block(body.as_slice(), bindings),
                None => 0,
            };
            arms.saturating_add(other).saturating_add(8)
        }
        StatKind::NumFor {
            name: _,
            start,
            limit,
            step,
            body,
        } => {
            let body = bulk_block(body.as_slice(), bindings);
            let bounds = bulk_expr(start.get(), bindings).saturating_add(bulk_expr(
                limit.get(),
                bindings,
            ));
            let step = bulk_step(step, bindings);
            bounds
                .saturating_add(step)
                .saturating_add(body)
                .saturating_add(10)
        }
        StatKind::GenFor {
            names,
            values,
            body,
        } => {
            let body = bulk_block(body.as_slice(), bindings);
            names_bulk(names.len())
                .saturating_add(bulk_list(values.as_slice(), bindings))
                .saturating_add(body)
                .saturating_add(8)
        }
        StatKind::LocalFunction { name: _, func } => captured(func, bindings).saturating_add(8),
        StatKind::Return(values) => bulk_list(values.as_slice(), bindings).saturating_add(8),
        StatKind::Break | StatKind::Continue => 8,
    }
}

#[cycle(bulk_exprs)]
fn bulk_expr(expr: &Expr, bindings: &Bindings) -> usize
    ensures { result ≡ min (spec.bulk_expr bindings.now expr.now) usize.MAX }
{
    match &expr.kind {
        ExprKind::Paren(e) => bulk_expr(e.get(), bindings).saturating_add(6),
        ExprKind::Unary { op: _, e } => bulk_expr(e.get(), bindings).saturating_add(6),
        ExprKind::Binary { op: _, a, b } => bulk_expr(a.get(), bindings)
            .saturating_add(bulk_expr(b.get(), bindings))
            .saturating_add(6),
        ExprKind::Concat(list) => bulk_list(list.as_slice(), bindings).saturating_add(6),
        ExprKind::Index { table, key } => bulk_expr(table.get(), bindings)
            .saturating_add(bulk_expr(key.get(), bindings))
            .saturating_add(6),
        ExprKind::Member { table, name: _ } => bulk_expr(table.get(), bindings).saturating_add(6),
        ExprKind::Call { callee, args } => bulk_expr(callee.get(), bindings)
            .saturating_add(bulk_list(args.as_slice(), bindings))
            .saturating_add(6),
        ExprKind::Method {
            object,
            name: _,
            args,
        } => bulk_expr(object.get(), bindings)
            .saturating_add(bulk_list(args.as_slice(), bindings))
            .saturating_add(6),
        ExprKind::Table(fields) => bulk_fields(fields.as_slice(), bindings).saturating_add(6),
        ExprKind::Function(func) => captured(func, bindings).saturating_add(6),
        ExprKind::If { arms, other } => bulk_expr_arms(arms.as_slice(), bindings)
            .saturating_add(bulk_expr(other.get(), bindings))
            .saturating_add(6),
        ExprKind::Interp { texts: _, values } => {
            bulk_list(values.as_slice(), bindings).saturating_add(6)
        }
        ExprKind::Nil
        | ExprKind::True
        | ExprKind::False
        | ExprKind::Num(_)
        | ExprKind::Str(_)
        | ExprKind::Vararg
        | ExprKind::Name(_) => 6,
    }
}
