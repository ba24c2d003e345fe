//! The walk over a tree that notes the registers of its functions.

ghost use Rattle.std.specs.Prelude.{◌≡◌, ◌++◌, OnOk};
ghost use Rattle.function_registers.specs.Registers as spec;

use resource::OutOfMemory;
use sqlite_items::{Boxed, Items};
use syntax_tree::{Arm, Expr, ExprArm, ExprKind, Field, FieldKind, FuncBody, Stat, StatKind, need};

/// How many registers a function has, by the number of its node.
#[derive(Clone, Copy)]
pub struct FuncRegisters {
    pub func: usize,
    pub registers: u8,
}

/// As many registers as a function needs, but one at least.
fn registers_for(func: &FuncBody) -> u8
    ensures { result ≡ spec.registers_for func.now }
{
    need(func).max(1).min(255) as u8
}

/// Notes the registers of a function, those in it aside.
fn note_own(entries: &mut Items<FuncRegisters>, func: &FuncBody) -> Result<(), OutOfMemory>
    ensures { OnOk result (entries.new ≡ entries.old ++ spec.own_entry func.now) }
{
    entries.push(FuncRegisters {
        func: func.id,
        registers: registers_for(func),
    })?;
    Ok(())
}

/// Notes the registers of a function and of those in it.
#[cycle(walk)]
pub fn note_func(entries: &mut Items<FuncRegisters>, func: &FuncBody) -> Result<(), OutOfMemory>
    ensures { OnOk result (entries.new ≡ entries.old ++ spec.all_entries func.now) }
{
    note_own(entries, func)?;
    note_block(entries, func.body.as_slice())
}

#[cycle(walk)]
fn note_block(entries: &mut Items<FuncRegisters>, block: &[Stat]) -> Result<(), OutOfMemory>
    ensures { OnOk result (entries.new ≡ entries.old ++ spec.in_block block.now) }
{
    for stat in block {
        note_stat(entries, stat)?;
    }
    Ok(())
}

#[cycle(walk)]
fn note_list(entries: &mut Items<FuncRegisters>, list: &[Expr]) -> Result<(), OutOfMemory>
    ensures { OnOk result (entries.new ≡ entries.old ++ spec.in_list list.now) }
{
    for expr in list {
        note_expr(entries, expr)?;
    }
    Ok(())
}

#[cycle(walk)]
fn note_arms(entries: &mut Items<FuncRegisters>, arms: &[Arm]) -> Result<(), OutOfMemory>
    ensures { OnOk result (entries.new ≡ entries.old ++ spec.in_arms arms.now) }
{
    for arm in arms {
        note_arm(entries, arm)?;
    }
    Ok(())
}

#[cycle(walk)]
fn note_expr_arms(entries: &mut Items<FuncRegisters>, arms: &[ExprArm]) -> Result<(), OutOfMemory>
    ensures { OnOk result (entries.new ≡ entries.old ++ spec.in_expr_arms arms.now) }
{
    for arm in arms {
        note_expr_arm(entries, arm)?;
    }
    Ok(())
}

#[cycle(walk)]
fn note_fields(entries: &mut Items<FuncRegisters>, fields: &[Field]) -> Result<(), OutOfMemory>
    ensures { OnOk result (entries.new ≡ entries.old ++ spec.in_fields fields.now) }
{
    for field in fields {
        note_field(entries, field)?;
    }
    Ok(())
}

#[cycle(walk)]
fn note_arm(entries: &mut Items<FuncRegisters>, arm: &Arm) -> Result<(), OutOfMemory>
    ensures { OnOk result (entries.new ≡ entries.old ++ spec.in_arm arm.now) }
{
    note_expr(entries, &arm.cond)?;
    note_block(entries, arm.body.as_slice())
}

#[cycle(walk)]
fn note_expr_arm(entries: &mut Items<FuncRegisters>, arm: &ExprArm) -> Result<(), OutOfMemory>
    ensures { OnOk result (entries.new ≡ entries.old ++ spec.in_expr_arm arm.now) }
{
    note_expr(entries, &arm.cond)?;
    note_expr(entries, &arm.value)
}

#[cycle(walk)]
fn note_field(entries: &mut Items<FuncRegisters>, field: &Field) -> Result<(), OutOfMemory>
    ensures { OnOk result (entries.new ≡ entries.old ++ spec.in_field field.now) }
{
    match &field.kind {
        FieldKind::Item(value) => note_expr(entries, value),
        FieldKind::Named(_, value) => note_expr(entries, value),
        FieldKind::Keyed(key, value) => {
            note_expr(entries, key)?;
            note_expr(entries, value)
        }
    }
}

#[cycle(walk)]
fn note_step(
    entries: &mut Items<FuncRegisters>,
    step: &Option<Boxed<Expr>>,
) -> Result<(), OutOfMemory>
    ensures { OnOk result (entries.new ≡ entries.old ++ spec.in_step step.now) }
{
    match step {
        Some(step) => note_expr(entries, step.get()),
        None => Ok(()),
    }
}

#[cycle(walk)]
fn note_stat(entries: &mut Items<FuncRegisters>, stat: &Stat) -> Result<(), OutOfMemory>
    ensures { OnOk result (entries.new ≡ entries.old ++ spec.in_stat stat.now) }
{
    match &stat.kind {
        StatKind::Local { names: _, values } => note_list(entries, values.as_slice()),
        StatKind::Assign { targets, values } => {
            note_list(entries, targets.as_slice())?;
            note_list(entries, values.as_slice())
        }
        StatKind::Compound {
            op: _,
            target,
            value,
        } => {
            note_expr(entries, target.get())?;
            note_expr(entries, value.get())
        }
        StatKind::Call(call) => note_expr(entries, call),
        StatKind::Do(body) => note_block(entries, body.as_slice()),
        StatKind::While { cond, body } => {
            note_expr(entries, cond.get())?;
            note_block(entries, body.as_slice())
        }
        StatKind::Repeat { body, cond } => {
            note_block(entries, body.as_slice())?;
            note_expr(entries, cond.get())
        }
        StatKind::If { arms, other } => {
            note_arms(entries, arms.as_slice())?;
            match other {
                Some(body) => note_block(entries, body.as_slice()),
                None => Ok(()),
            }
        }
        StatKind::NumFor {
            name: _,
            start,
            limit,
            step,
            body,
        } => {
            note_expr(entries, start.get())?;
            note_expr(entries, limit.get())?;
            note_step(entries, step)?;
            note_block(entries, body.as_slice())
        }
        StatKind::GenFor {
            names: _,
            values,
            body,
        } => {
            note_list(entries, values.as_slice())?;
            note_block(entries, body.as_slice())
        }
        StatKind::LocalFunction { name: _, func } => note_func(entries, func),
        StatKind::Return(values) => note_list(entries, values.as_slice()),
        StatKind::Break => Ok(()),
        StatKind::Continue => Ok(()),
    }
}

#[cycle(walk)]
fn note_expr(entries: &mut Items<FuncRegisters>, expr: &Expr) -> Result<(), OutOfMemory>
    ensures { OnOk result (entries.new ≡ entries.old ++ spec.in_expr expr.now) }
{
    match &expr.kind {
        ExprKind::Nil => Ok(()),
        ExprKind::True => Ok(()),
        ExprKind::False => Ok(()),
        ExprKind::Num(_) => Ok(()),
        ExprKind::Str(_) => Ok(()),
        ExprKind::Vararg => Ok(()),
        ExprKind::Name(_) => Ok(()),
        ExprKind::Paren(e) => note_expr(entries, e.get()),
        ExprKind::Unary { op: _, e } => note_expr(entries, e.get()),
        ExprKind::Binary { op: _, a, b } => {
            note_expr(entries, a.get())?;
            note_expr(entries, b.get())
        }
        ExprKind::Concat(list) => note_list(entries, list.as_slice()),
        ExprKind::Index { table, key } => {
            note_expr(entries, table.get())?;
            note_expr(entries, key.get())
        }
        ExprKind::Member { table, name: _ } => note_expr(entries, table.get()),
        ExprKind::Call { callee, args } => {
            note_expr(entries, callee.get())?;
            note_list(entries, args.as_slice())
        }
        ExprKind::Method {
            object,
            name: _,
            args,
        } => {
            note_expr(entries, object.get())?;
            note_list(entries, args.as_slice())
        }
        ExprKind::Table(fields) => note_fields(entries, fields.as_slice()),
        ExprKind::Function(func) => note_func(entries, func),
        ExprKind::If { arms, other } => {
            note_expr_arms(entries, arms.as_slice())?;
            note_expr(entries, other.get())
        }
        ExprKind::Interp { texts: _, values } => note_list(entries, values.as_slice()),
    }
}
