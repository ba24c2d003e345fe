//! The rules on what stands where in a function.

ghost use Rattle.std.specs.Prelude.{◌≡◌, ◌+◌, ◌++◌, map, length, IfOk, OnOk};
ghost use Rattle.syntax_tree.specs.Rules as spec;

use resource::OutOfMemory;
use sqlite_items::{Boxed, Items};
use syntax_tree::{
    Arm, Expr, ExprArm, ExprKind, Field, FieldKind, FuncBody, MOST_VARIABLES, Place, ScopeFault,
    ScopeRule, Stat, StatKind,
};

/// The sum of two counts of locals. There is no memory for as many as there are numbers.
fn sum(a: usize, b: usize) -> Result<usize, OutOfMemory>
    ensures { IfOk result (λ c. c ≡ a + b) }
{
    match a.checked_add(b) {
        Some(sum) => Ok(sum),
        None => Err(OutOfMemory),
    }
}

/// Notes what declares one live local too many.
fn too_many(
    faults: &mut Items<ScopeFault>,
    at: usize,
    live: usize,
    more: usize,
) -> Result<(), OutOfMemory>
    ensures { OnOk result (faults.new ≡ faults.old ++ spec.too_many at live more) }
{
    if live <= MOST_VARIABLES && MOST_VARIABLES < sum(live, more)? {
        faults.push(ScopeFault {
            at,
            rule: ScopeRule::TooManyLocals,
        })?;
    }
    Ok(())
}

/// Notes a `break` or `continue` outside a loop.
fn loop_word(faults: &mut Items<ScopeFault>, at: usize, place: Place) -> Result<(), OutOfMemory>
    ensures { OnOk result (faults.new ≡ faults.old ++ (spec.loop_word at).faults place) }
{
    if !place.in_loop {
        faults.push(ScopeFault {
            at,
            rule: ScopeRule::LoopWordOutside,
        })?;
    }
    Ok(())
}

/// Notes a `...` where it does not belong.
fn vararg(faults: &mut Items<ScopeFault>, at: usize, place: Place) -> Result<(), OutOfMemory>
    ensures { OnOk result (faults.new ≡ faults.old ++ spec.vararg at place) }
{
    if !place.vararg {
        faults.push(ScopeFault {
            at,
            rule: ScopeRule::VarargOutside,
        })?;
    }
    Ok(())
}

/// How many locals a statement declares in its block.
fn declares(stat: &Stat) -> usize
    ensures { result ≡ (spec.rules_stat stat.now).declares }
{
    match &stat.kind {
        StatKind::Local { names, values: _ } => names.len(),
        StatKind::LocalFunction { name: _, func: _ } => 1,
        StatKind::Assign { .. }
        | StatKind::Compound { .. }
        | StatKind::Call(_)
        | StatKind::Do(_)
        | StatKind::While { .. }
        | StatKind::Repeat { .. }
        | StatKind::If { .. }
        | StatKind::NumFor { .. }
        | StatKind::GenFor { .. }
        | StatKind::Return(_)
        | StatKind::Break
        | StatKind::Continue => 0,
    }
}

/// A place in the body of a loop that declares so many variables.
fn in_loop(place: Place, more: usize) -> Result<Place, OutOfMemory>
    ensures { IfOk result (λ inner. inner ≡ spec.in_loop_of more place) }
{
    Ok(Place {
        in_loop: true,
        vararg: place.vararg,
        live: sum(place.live, more)?,
    })
}

/// The faults of a function.
#[cycle(rules)]
pub fn rules_func(faults: &mut Items<ScopeFault>, func: &FuncBody) -> Result<(), OutOfMemory>
    ensures { OnOk result (faults.new ≡ faults.old ++ spec.rules_func func.now) }
{
    let live = func.params.len();
    too_many(faults, func.at, 0, live)?;
    let place = Place {
        in_loop: false,
        vararg: func.vararg,
        live,
    };
    rules_block(faults, func.body.as_slice(), place)
}

#[cycle(rules)]
fn rules_block(
    faults: &mut Items<ScopeFault>,
    block: &[Stat],
    place: Place,
) -> Result<(), OutOfMemory>
    ensures { OnOk result (faults.new ≡ faults.old ++ spec.block (map spec.rules_stat block.now) place) }
{
    let mut at = place;
    for stat in block {
        rules_stat(faults, stat, at)?;
        at.live = sum(at.live, declares(stat))?;
    }
    Ok(())
}

#[cycle(rules)]
fn rules_list(
    faults: &mut Items<ScopeFault>,
    list: &[Expr],
    place: Place,
) -> Result<(), OutOfMemory>
    ensures { OnOk result (faults.new ≡ faults.old ++ spec.all (map spec.rules_expr list.now) place) }
{
    for expr in list {
        rules_expr(faults, expr, place)?;
    }
    Ok(())
}

#[cycle(rules)]
fn rules_arms(faults: &mut Items<ScopeFault>, arms: &[Arm], place: Place) -> Result<(), OutOfMemory>
    ensures { OnOk result (faults.new ≡ faults.old ++ spec.all (map spec.rules_arm arms.now) place) }
{
    for arm in arms {
        rules_expr(faults, &arm.cond, place)?;
        rules_block(faults, arm.body.as_slice(), place)?;
    }
    Ok(())
}

#[cycle(rules)]
fn rules_expr_arms(
    faults: &mut Items<ScopeFault>,
    arms: &[ExprArm],
    place: Place,
) -> Result<(), OutOfMemory>
    ensures { OnOk result (faults.new ≡ faults.old ++ spec.all (map spec.rules_expr_arm arms.now) place) }
{
    for arm in arms {
        rules_expr(faults, &arm.cond, place)?;
        rules_expr(faults, &arm.value, place)?;
    }
    Ok(())
}

#[cycle(rules)]
fn rules_fields(
    faults: &mut Items<ScopeFault>,
    fields: &[Field],
    place: Place,
) -> Result<(), OutOfMemory>
    ensures { OnOk result (faults.new ≡ faults.old ++ spec.all (map spec.rules_field fields.now) place) }
{
    for field in fields {
        rules_field(faults, field, place)?;
    }
    Ok(())
}

#[cycle(rules)]
fn rules_field(
    faults: &mut Items<ScopeFault>,
    field: &Field,
    place: Place,
) -> Result<(), OutOfMemory>
    ensures { OnOk result (faults.new ≡ faults.old ++ spec.rules_field field.now place) }
{
    match &field.kind {
        FieldKind::Item(value) => rules_expr(faults, value, place),
        FieldKind::Named(_, value) => rules_expr(faults, value, place),
        FieldKind::Keyed(key, value) => {
            rules_expr(faults, key, place)?;
            rules_expr(faults, value, place)
        }
    }
}

#[cycle(rules)]
fn rules_step(
    faults: &mut Items<ScopeFault>,
    step: &Option<Boxed<Expr>>,
    place: Place,
) -> Result<(), OutOfMemory>
    ensures { OnOk result (faults.new ≡ faults.old ++ spec.rules_step step.now place) }
{
    match step {
        Some(step) => rules_expr(faults, step.get(), place),
        None => Ok(()),
    }
}

#[cycle(rules)]
fn rules_stat(faults: &mut Items<ScopeFault>, stat: &Stat, place: Place) -> Result<(), OutOfMemory>
    ensures { OnOk result (faults.new ≡ faults.old ++ (spec.rules_stat stat.now).faults place) }
{
    match &stat.kind {
        StatKind::Local { names, values } => {
            rules_list(faults, values.as_slice(), place)?;
            too_many(faults, stat.at, place.live, names.len())
        }
        StatKind::Assign { targets, values } => {
            rules_list(faults, targets.as_slice(), place)?;
            rules_list(faults, values.as_slice(), place)
        }
        StatKind::Compound {
            op: _,
            target,
            value,
        } => {
            rules_expr(faults, target.get(), place)?;
            rules_expr(faults, value.get(), place)
        }
        StatKind::Call(call) => rules_expr(faults, call, place),
        StatKind::Do(body) => rules_block(faults, body.as_slice(), place),
        StatKind::While { cond, body } => {
            rules_expr(faults, cond.get(), place)?;
            rules_block(faults, body.as_slice(), in_loop(place, 0)?)
        }
        StatKind::Repeat { body, cond } => {
            rules_block(faults, body.as_slice(), in_loop(place, 0)?)?;
            rules_expr(faults, cond.get(), place)
        }
        StatKind::If { arms, other } => {
            rules_arms(faults, arms.as_slice(), place)?;
            match other {
                Some(body) => rules_block(faults, body.as_slice(), place),
                None => Ok(()),
            }
        }
        StatKind::NumFor {
            name: _,
            start,
            limit,
            step,
            body,
        } => {
            rules_expr(faults, start.get(), place)?;
            rules_expr(faults, limit.get(), place)?;
            rules_step(faults, step, place)?;
            too_many(faults, stat.at, place.live, 1)?;
            rules_block(faults, body.as_slice(), in_loop(place, 1)?)
        }
        StatKind::GenFor {
            names,
            values,
            body,
        } => {
            rules_list(faults, values.as_slice(), place)?;
            too_many(faults, stat.at, place.live, names.len())?;
            rules_block(faults, body.as_slice(), in_loop(place, names.len())?)
        }
        StatKind::LocalFunction { name: _, func } => {
            too_many(faults, stat.at, place.live, 1)?;
            rules_func(faults, func)
        }
        StatKind::Return(values) => rules_list(faults, values.as_slice(), place),
        StatKind::Break | StatKind::Continue => loop_word(faults, stat.at, place),
    }
}

#[cycle(rules)]
fn rules_expr(faults: &mut Items<ScopeFault>, expr: &Expr, place: Place) -> Result<(), OutOfMemory>
    ensures { OnOk result (faults.new ≡ faults.old ++ spec.rules_expr expr.now place) }
{
    match &expr.kind {
        ExprKind::Nil
        | ExprKind::True
        | ExprKind::False
        | ExprKind::Num(_)
        | ExprKind::Str(_)
        | ExprKind::Name(_) => Ok(()),
        ExprKind::Vararg => vararg(faults, expr.at, place),
        ExprKind::Paren(e) => rules_expr(faults, e.get(), place),
        ExprKind::Unary { op: _, e } => rules_expr(faults, e.get(), place),
        ExprKind::Binary { op: _, a, b } => {
            rules_expr(faults, a.get(), place)?;
            rules_expr(faults, b.get(), place)
        }
        ExprKind::Concat(list) => rules_list(faults, list.as_slice(), place),
        ExprKind::Index { table, key } => {
            rules_expr(faults, table.get(), place)?;
            rules_expr(faults, key.get(), place)
        }
        ExprKind::Member { table, name: _ } => rules_expr(faults, table.get(), place),
        ExprKind::Call { callee, args } => {
            rules_expr(faults, callee.get(), place)?;
            rules_list(faults, args.as_slice(), place)
        }
        ExprKind::Method {
            object,
            name: _,
            args,
        } => {
            rules_expr(faults, object.get(), place)?;
            rules_list(faults, args.as_slice(), place)
        }
        ExprKind::Table(fields) => rules_fields(faults, fields.as_slice(), place),
        ExprKind::Function(func) => rules_func(faults, func),
        ExprKind::If { arms, other } => {
            rules_expr_arms(faults, arms.as_slice(), place)?;
            rules_expr(faults, other.get(), place)
        }
        ExprKind::Interp { texts: _, values } => rules_list(faults, values.as_slice(), place),
    }
}
