//! The rules on the size of functions.

ghost use Rattle.std.specs.Prelude.{◌≡◌, ◌++◌, OnOk};
ghost use Rattle.syntax_tree.specs.Sizes as spec;

use resource::OutOfMemory;
use sqlite_items::{Boxed, Items};
use syntax_tree::{
    Arm, Bindings, Expr, ExprArm, ExprKind, Field, FieldKind, FuncBody, MOST_BULK, MOST_REGISTERS,
    ScopeFault, ScopeRule, Stat, StatKind, bulk, need,
};

/// Notes what is wrong with the size of a function, those in it aside.
fn own_size(
    faults: &mut Items<ScopeFault>,
    func: &FuncBody,
    bindings: &Bindings,
) -> Result<(), OutOfMemory>
    ensures { OnOk result (faults.new ≡ faults.old ++ spec.size_faults bindings.now func.now) }
{
    if need(func) > MOST_REGISTERS {
        faults.push(ScopeFault {
            at: func.at,
            rule: ScopeRule::TooWide,
        })?;
    }
    if bulk(func, bindings) > MOST_BULK {
        faults.push(ScopeFault {
            at: func.at,
            rule: ScopeRule::TooLong,
        })?;
    }
    Ok(())
}

/// The faults of a function and of those in it.
#[cycle(sizes)]
pub fn size_func(
    faults: &mut Items<ScopeFault>,
    func: &FuncBody,
    bindings: &Bindings,
) -> Result<(), OutOfMemory>
    ensures { OnOk result (faults.new ≡ faults.old ++ spec.all_sizes bindings.now func.now) }
{
    own_size(faults, func, bindings)?;
    size_block(faults, func.body.as_slice(), bindings)
}

#[cycle(sizes)]
fn size_block(
    faults: &mut Items<ScopeFault>,
    block: &[Stat],
    bindings: &Bindings,
) -> Result<(), OutOfMemory>
    ensures { OnOk result (faults.new ≡ faults.old ++ spec.sizes_in_block bindings.now block.now) }
{
    for stat in block {
        size_stat(faults, stat, bindings)?;
    }
    Ok(())
}

#[cycle(sizes)]
fn size_list(
    faults: &mut Items<ScopeFault>,
    list: &[Expr],
    bindings: &Bindings,
) -> Result<(), OutOfMemory>
    ensures { OnOk result (faults.new ≡ faults.old ++ spec.sizes_in_list bindings.now list.now) }
{
    for expr in list {
        size_expr(faults, expr, bindings)?;
    }
    Ok(())
}

#[cycle(sizes)]
fn size_arms(
    faults: &mut Items<ScopeFault>,
    arms: &[Arm],
    bindings: &Bindings,
) -> Result<(), OutOfMemory>
    ensures { OnOk result (faults.new ≡ faults.old ++ spec.sizes_in_arms bindings.now arms.now) }
{
    for arm in arms {
        size_arm(faults, arm, bindings)?;
    }
    Ok(())
}

#[cycle(sizes)]
fn size_expr_arms(
    faults: &mut Items<ScopeFault>,
    arms: &[ExprArm],
    bindings: &Bindings,
) -> Result<(), OutOfMemory>
    ensures { OnOk result (faults.new ≡ faults.old ++ spec.sizes_in_expr_arms bindings.now arms.now) }
{
    for arm in arms {
        size_expr_arm(faults, arm, bindings)?;
    }
    Ok(())
}

#[cycle(sizes)]
fn size_fields(
    faults: &mut Items<ScopeFault>,
    fields: &[Field],
    bindings: &Bindings,
) -> Result<(), OutOfMemory>
    ensures { OnOk result (faults.new ≡ faults.old ++ spec.sizes_in_fields bindings.now fields.now) }
{
    for field in fields {
        size_field(faults, field, bindings)?;
    }
    Ok(())
}

#[cycle(sizes)]
fn size_arm(
    faults: &mut Items<ScopeFault>,
    arm: &Arm,
    bindings: &Bindings,
) -> Result<(), OutOfMemory>
    ensures { OnOk result (faults.new ≡ faults.old ++ spec.sizes_in_arm bindings.now arm.now) }
{
    size_expr(faults, &arm.cond, bindings)?;
    size_block(faults, arm.body.as_slice(), bindings)
}

#[cycle(sizes)]
fn size_expr_arm(
    faults: &mut Items<ScopeFault>,
    arm: &ExprArm,
    bindings: &Bindings,
) -> Result<(), OutOfMemory>
    ensures { OnOk result (faults.new ≡ faults.old ++ spec.sizes_in_expr_arm bindings.now arm.now) }
{
    size_expr(faults, &arm.cond, bindings)?;
    size_expr(faults, &arm.value, bindings)
}

#[cycle(sizes)]
fn size_field(
    faults: &mut Items<ScopeFault>,
    field: &Field,
    bindings: &Bindings,
) -> Result<(), OutOfMemory>
    ensures { OnOk result (faults.new ≡ faults.old ++ spec.sizes_in_field bindings.now field.now) }
{
    match &field.kind {
        FieldKind::Item(value) => size_expr(faults, value, bindings),
        FieldKind::Named(_, value) => size_expr(faults, value, bindings),
        FieldKind::Keyed(key, value) => {
            size_expr(faults, key, bindings)?;
            size_expr(faults, value, bindings)
        }
    }
}

#[cycle(sizes)]
fn size_step(
    faults: &mut Items<ScopeFault>,
    step: &Option<Boxed<Expr>>,
    bindings: &Bindings,
) -> Result<(), OutOfMemory>
    ensures { OnOk result (faults.new ≡ faults.old ++ spec.sizes_in_step bindings.now step.now) }
{
    match step {
        Some(step) => size_expr(faults, step.get(), bindings),
        None => Ok(()),
    }
}

#[cycle(sizes)]
fn size_stat(
    faults: &mut Items<ScopeFault>,
    stat: &Stat,
    bindings: &Bindings,
) -> Result<(), OutOfMemory>
    ensures { OnOk result (faults.new ≡ faults.old ++ spec.sizes_in_stat bindings.now stat.now) }
{
    match &stat.kind {
        StatKind::Local { names: _, values } => size_list(faults, values.as_slice(), bindings),
        StatKind::Assign { targets, values } => {
            size_list(faults, targets.as_slice(), bindings)?;
            size_list(faults, values.as_slice(), bindings)
        }
        StatKind::Compound {
            op: _,
            target,
            value,
        } => {
            size_expr(faults, target.get(), bindings)?;
            size_expr(faults, value.get(), bindings)
        }
        StatKind::Call(call) => size_expr(faults, call, bindings),
        StatKind::Do(body) => size_block(faults, body.as_slice(), bindings),
        StatKind::While { cond, body } => {
            size_expr(faults, cond.get(), bindings)?;
            size_block(faults, body.as_slice(), bindings)
        }
        StatKind::Repeat { body, cond } => {
            size_block(faults, body.as_slice(), bindings)?;
            size_expr(faults, cond.get(), bindings)
        }
        StatKind::If { arms, other } => {
            size_arms(faults, arms.as_slice(), bindings)?;
            match other {
                Some(body) => size_block(faults, body.as_slice(), bindings),
                None => Ok(()),
            }
        }
        StatKind::NumFor {
            name: _,
            start,
            limit,
            step,
            body,
        } => {
            size_expr(faults, start.get(), bindings)?;
            size_expr(faults, limit.get(), bindings)?;
            size_step(faults, step, bindings)?;
            size_block(faults, body.as_slice(), bindings)
        }
        StatKind::GenFor {
            names: _,
            values,
            body,
        } => {
            size_list(faults, values.as_slice(), bindings)?;
            size_block(faults, body.as_slice(), bindings)
        }
        StatKind::LocalFunction { name: _, func } => size_func(faults, func, bindings),
        StatKind::Return(values) => size_list(faults, values.as_slice(), bindings),
        StatKind::Break => Ok(()),
        StatKind::Continue => Ok(()),
    }
}

#[cycle(sizes)]
fn size_expr(
    faults: &mut Items<ScopeFault>,
    expr: &Expr,
    bindings: &Bindings,
) -> Result<(), OutOfMemory>
    ensures { OnOk result (faults.new ≡ faults.old ++ spec.sizes_in_expr bindings.now expr.now) }
{
    match &expr.kind {
        ExprKind::Nil => Ok(()),
        ExprKind::True => Ok(()),
        ExprKind::False => Ok(()),
        ExprKind::Num(_) => Ok(()),
        ExprKind::Str(_) => Ok(()),
        ExprKind::Vararg => Ok(()),
        ExprKind::Name(_) => Ok(()),
        ExprKind::Paren(e) => size_expr(faults, e.get(), bindings),
        ExprKind::Unary { op: _, e } => size_expr(faults, e.get(), bindings),
        ExprKind::Binary { op: _, a, b } => {
            size_expr(faults, a.get(), bindings)?;
            size_expr(faults, b.get(), bindings)
        }
        ExprKind::Concat(list) => size_list(faults, list.as_slice(), bindings),
        ExprKind::Index { table, key } => {
            size_expr(faults, table.get(), bindings)?;
            size_expr(faults, key.get(), bindings)
        }
        ExprKind::Member { table, name: _ } => size_expr(faults, table.get(), bindings),
        ExprKind::Call { callee, args } => {
            size_expr(faults, callee.get(), bindings)?;
            size_list(faults, args.as_slice(), bindings)
        }
        ExprKind::Method {
            object,
            name: _,
            args,
        } => {
            size_expr(faults, object.get(), bindings)?;
            size_list(faults, args.as_slice(), bindings)
        }
        ExprKind::Table(fields) => size_fields(faults, fields.as_slice(), bindings),
        ExprKind::Function(func) => size_func(faults, func, bindings),
        ExprKind::If { arms, other } => {
            size_expr_arms(faults, arms.as_slice(), bindings)?;
            size_expr(faults, other.get(), bindings)
        }
        ExprKind::Interp { texts: _, values } => size_list(faults, values.as_slice(), bindings),
    }
}
