//! How many registers a function needs.

ghost use Rattle.std.specs.Prelude.{◌≡◌, ◌+◌, ◌<◌, min, map, length};
ghost use Rattle.syntax_tree.specs.Lists.{greatest};
ghost use Rattle.syntax_tree.specs.Need as spec;

use crate::tree::{Arm, Expr, ExprArm, ExprKind, Field, FieldKind, FuncBody, Stat, StatKind};
use sqlite_items::Boxed;

/// How many registers a function needs: its parameters, the locals of its blocks, and the values that are held while
/// others are made. It stands still at `usize::MAX`.
pub fn need(func: &FuncBody) -> usize
    ensures { result ≡ min (spec.need func.now) usize.MAX }
{
    need_block(func.body.as_slice()).saturating_add(func.params.len())
}

/// How many locals a statement declares in its block.
fn declares(stat: &Stat) -> usize
    ensures { result ≡ (spec.need_stat stat.now).declares }
{
    match &stat.kind {
        StatKind::Local { names, values: _ } => names.len(),
        StatKind::LocalFunction { name: _, func: _ } => 1,
        StatKind::Assign { .. }
        | StatKind::Compound { .. }
        | StatKind::Call(_)
        | StatKind::Do(_)
        | StatKind::While { .. }
        | StatKind::Repeat { .. }
        | StatKind::If { .. }
        | StatKind::NumFor { .. }
        | StatKind::GenFor { .. }
        | StatKind::Return(_)
        | StatKind::Break
        | StatKind::Continue => 0,
    }
}

/// How many locals the statements of a block declare.
fn declared_in(block: &[Stat]) -> usize
    ensures { result ≡ min (spec.declared_in (map spec.need_stat block.now)) usize.MAX }
{
    let mut count: usize = 0;
    for stat in block {
        count = count.saturating_add(declares(stat));
    }
    count
}

/// How many registers an expression holds as a target.
fn holds(target: &Expr) -> usize
    ensures value { result ≡ (spec.need_expr target.now).holds }
{
    match &target.kind {
        ExprKind::Member { table: _, name: _ } => 1,
        ExprKind::Index { table: _, key: _ } => 2,
        ExprKind::Nil
        | ExprKind::True
        | ExprKind::False
        | ExprKind::Num(_)
        | ExprKind::Str(_)
        | ExprKind::Vararg
        | ExprKind::Name(_)
        | ExprKind::Paren(_)
        | ExprKind::Unary { .. }
        | ExprKind::Binary { .. }
        | ExprKind::Concat(_)
        | ExprKind::Call { .. }
        | ExprKind::Method { .. }
        | ExprKind::Table(_)
        | ExprKind::Function(_)
        | ExprKind::If { .. }
        | ExprKind::Interp { .. } => 0,
    }
}

/// How many registers all targets hold.
fn all_hold(targets: &[Expr]) -> usize
    ensures { result ≡ min (spec.all_hold (map spec.need_expr targets.now)) usize.MAX }
{
    let mut count: usize = 0;
    for target in targets {
        count = count.saturating_add(holds(target));
    }
    count
}

/// How many positional fields wait after a field.
fn waiting_after(field: &Field, waiting: usize) -> usize
    requires { waiting < 16 }
    ensures value { result ≡ (spec.need_field field.now).waiting waiting }
    ensures below { result < 16 }
{
    match &field.kind {
        FieldKind::Item(_) => (waiting + 1) % 16,
        FieldKind::Named(_, _) => waiting,
        FieldKind::Keyed(_, _) => 0,
    }
}

#[cycle(need_stats)]
fn need_block(block: &[Stat]) -> usize
    ensures { result ≡ min (spec.block_need (map spec.need_stat block.now)) usize.MAX }
{
    let mut most = 0;
    let mut declared: usize = 0;
    for stat in block {
        most = need_stat(stat).saturating_add(declared).max(most);
        declared = declared.saturating_add(declares(stat));
    }
    most
}

#[cycle(need_exprs)]
fn need_list(list: &[Expr]) -> usize
    ensures { result ≡ min (spec.list_need (map spec.need_expr list.now)) usize.MAX }
{
    let mut most = 0;
    for (held, expr) in list.iter().enumerate() {
        most = need_expr(expr).saturating_add(held).max(most);
    }
    most
}

/// What the parts of a target need, `held` registers being held by the targets before it.
fn need_target(target: &Expr, held: usize) -> usize
    ensures { result ≡ min (spec.parts_need held (spec.need_expr target.now)) usize.MAX }
{
    if holds(target) == 0 {
        0
    } else {
        need_expr(target).saturating_add(held)
    }
}

fn need_targets(targets: &[Expr]) -> usize
    ensures { result ≡ min (spec.targets_from 0 (map spec.need_expr targets.now)) usize.MAX }
{
    let mut most = 0;
    let mut held: usize = 0;
    for target in targets {
        most = need_target(target, held).max(most);
        held = held.saturating_add(holds(target));
    }
    most
}

#[cycle(need_stats)]
fn need_arms(arms: &[Arm]) -> usize
    ensures { result ≡ min (greatest (map spec.need_arm arms.now)) usize.MAX }
{
    let mut most = 0;
    for arm in arms {
        let cond = need_expr(&arm.cond);
        let body = need_block(arm.body.as_slice());
        most = cond.max(body).max(most);
    }
    most
}

#[cycle(need_exprs)]
fn need_expr_arms(arms: &[ExprArm]) -> usize
    ensures { result ≡ min (greatest (map spec.need_expr_arm arms.now)) usize.MAX }
{
    let mut most = 0;
    for arm in arms {
        let cond = need_expr(&arm.cond);
        let value = need_expr(&arm.value);
        most = cond.max(value).max(most);
    }
    most
}

#[cycle(need_exprs)]
fn need_fields(fields: &[Field]) -> usize
    ensures { result ≡ min (spec.fields_from 0 (map spec.need_field fields.now)) usize.MAX }
{
    let mut most = 0;
    let mut waiting = 0;
    for field in fields {
        most = need_field(field).saturating_add(waiting).max(most);
        waiting = waiting_after(field, waiting);
    }
    most
}

#[cycle(need_exprs)]
fn need_field(field: &Field) -> usize
    ensures { result ≡ min (spec.need_field field.now).need usize.MAX }
{
    match &field.kind {
        FieldKind::Item(value) => need_expr(value),
        FieldKind::Named(_, value) => need_expr(value),
        FieldKind::Keyed(key, value) => need_expr(key).max(need_expr(value).saturating_add(1)),
    }
}

fn need_step(step: &Option<Boxed<Expr>>) -> usize
    ensures { result ≡ min (spec.need_step step.now) usize.MAX }
{
    match step {
        Some(step) => need_expr(step.get()).saturating_add(3),
        None => 0,
    }
}

#[cycle(need_stats)]
fn need_stat(stat: &Stat) -> usize
    ensures { result ≡ min (spec.need_stat stat.now).need usize.MAX }
{
    match &stat.kind {
        StatKind::Local { names, values } => need_list(values.as_slice()).max(names.len()),
        StatKind::Assign { targets, values } => {
            let stored = need_list(values.as_slice()).max(targets.len());
            let held = all_hold(targets.as_slice());
            need_targets(targets.as_slice()).max(stored.saturating_add(held))
        }
        StatKind::Compound {
            op: _,
            target,
            value,
        } => {
            let stored = need_expr(value.get()).saturating_add(1);
            let held = holds(target.get());
            need_target(target.get(), 0).max(stored.saturating_add(held))
        }
        StatKind::Call(call) => need_expr(call),
        StatKind::Do(body) => need_block(body.as_slice()),
        StatKind::While { cond, body } => {
            let body = need_block(body.as_slice());
            need_expr(cond.get()).max(body)
        }
        StatKind::Repeat { body, cond } => {
            let locals = declared_in(body.as_slice());
            let body = need_block(body.as_slice());
            need_expr(cond.get()).saturating_add(locals).max(body)
        }
        StatKind::If { arms, other } => {
            let arms = need_arms(arms.as_slice());
            let other = match other {
                Some(body) => need_block(body.as_slice()),
                None => 0,
            };
            arms.max(other)
        }
        StatKind::NumFor {
            name: _,
            start,
            limit,
            step,
            body,
        } => {
            let body = need_block(body.as_slice()).saturating_add(4);
            let bounds = need_expr(start.get())
                .max(need_expr(limit.get()))
                .saturating_add(3);
            bounds.max(need_step(step)).max(body)
        }
        StatKind::GenFor {
            names,
            values,
            body,
        } => {
            let body = need_block(body.as_slice())
                .saturating_add(names.len())
                .saturating_add(3);
            let values = need_list(values.as_slice());
            names.len().max(3).saturating_add(3).max(values).max(body)
        }
        StatKind::LocalFunction { name: _, func: _ } => 1,
        StatKind::Return(values) => need_list(values.as_slice()),
        StatKind::Break | StatKind::Continue => 0,
    }
}

#[cycle(need_exprs)]
fn need_expr(expr: &Expr) -> usize
    ensures { result ≡ min (spec.need_expr expr.now).need usize.MAX }
{
    match &expr.kind {
        ExprKind::Paren(e) => need_expr(e.get()),
        ExprKind::Unary { op: _, e } => need_expr(e.get()),
        ExprKind::Binary { op: _, a, b } => {
            need_expr(a.get()).max(need_expr(b.get()).saturating_add(1))
        }
        ExprKind::Concat(list) => need_list(list.as_slice()),
        ExprKind::Index { table, key } => {
            need_expr(table.get()).max(need_expr(key.get()).saturating_add(1))
        }
        ExprKind::Member { table, name: _ } => need_expr(table.get()),
        ExprKind::Call { callee, args } => {
            need_expr(callee.get()).max(need_list(args.as_slice()).saturating_add(1))
        }
        ExprKind::Method {
            object,
            name: _,
            args,
        } => need_expr(object.get()).max(need_list(args.as_slice()).saturating_add(2)),
        ExprKind::Table(fields) => need_fields(fields.as_slice()).saturating_add(1),
        ExprKind::If { arms, other } => {
            need_expr_arms(arms.as_slice()).max(need_expr(other.get()))
        }
        ExprKind::Interp { texts: _, values } => need_list(values.as_slice()).saturating_add(2),
        ExprKind::Nil
        | ExprKind::True
        | ExprKind::False
        | ExprKind::Num(_)
        | ExprKind::Str(_)
        | ExprKind::Vararg
        | ExprKind::Name(_)
        | ExprKind::Function(_) => 1,
    }
}
