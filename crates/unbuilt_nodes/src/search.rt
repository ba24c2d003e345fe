//! Which node of a script is not built.

ghost use Rattle.std.specs.Prelude.{◌≡◌, map, option_map};
ghost use Rattle.unbuilt_nodes.specs.Unbuilt as unbuilt;

use byte_text::{Interner, StrId};
use emit_expr::bound_at;
use sqlite_items::Boxed;
use syntax_tree::{Arm, Bindings, Bound, Expr, ExprArm, ExprKind, FuncBody, Stat, StatKind, Tree};

/// The place of the first node of a script, in source order, that is not built, if there is one. It takes no memory.
///
/// The bindings are those of the tree, and the names are those of its texts.
pub fn first_unbuilt(tree: &Tree, bindings: &Bindings, names: &Interner) -> Option<usize>
    ensures { result ≡ unbuilt.unbuilt_in_func names.now bindings.now tree.now.main }
{
    in_function(names, bindings, &tree.main)
}

// What is not built in a function.
#[cycle(unbuilt)]
fn in_function(names: &Interner, bindings: &Bindings, func: &FuncBody) -> Option<usize>
    ensures { result ≡ unbuilt.unbuilt_in_func names.now bindings.now func.now }
{
    in_block(names, bindings, func.body.as_slice())
}

// What is not built in a block.
#[cycle(unbuilt)]
fn in_block(names: &Interner, bindings: &Bindings, block: &[Stat]) -> Option<usize>
    ensures { result ≡ unbuilt.block (map (unbuilt.unbuilt_in_stat names.now bindings.now) block.now) }
{
    for stat in block {
        if let Some(at) = in_statement(names, bindings, stat) {
            return Some(at);
        }
    }
    None
}

// What is not built in a statement.
#[cycle(unbuilt)]
fn in_statement(names: &Interner, bindings: &Bindings, stat: &Stat) -> Option<usize>
    ensures { result ≡ unbuilt.unbuilt_in_stat names.now bindings.now stat.now }
{
    match &stat.kind {
        StatKind::Local { values, .. } => in_values(names, bindings, values.as_slice()),
        StatKind::Assign { targets, values } => {
            match in_targets(names, bindings, targets.as_slice()) {
                Some(at) => Some(at),
                None => in_values(names, bindings, values.as_slice()),
            }
        }
        StatKind::Compound { target, value, .. } => match in_target(names, bindings, target.get()) {
            Some(at) => Some(at),
            None => in_value(names, bindings, value.get()),
        },
        StatKind::Call(call) => in_value(names, bindings, call),
        StatKind::Do(body) => in_block(names, bindings, body.as_slice()),
        StatKind::While { cond, body } => match in_value(names, bindings, cond.get()) {
            Some(at) => Some(at),
            None => in_block(names, bindings, body.as_slice()),
        },
        StatKind::Repeat { body, cond } => match in_block(names, bindings, body.as_slice()) {
            Some(at) => Some(at),
            None => in_value(names, bindings, cond.get()),
        },
        StatKind::If { arms, other } => match in_arms(names, bindings, arms.as_slice()) {
            Some(at) => Some(at),
            None => match other {
                None => None,
                Some(body) => in_block(names, bindings, body.as_slice()),
            },
        },
        StatKind::NumFor {
            name: _,
            start,
            limit,
            step,
            body,
        } => {
            let body = in_block(names, bindings, body.as_slice());
            let step = first_of(in_step(names, bindings, step), body);
            let limit = first_of(in_value(names, bindings, limit.get()), step);
            first_of(in_value(names, bindings, start.get()), limit)
        }
        StatKind::GenFor { .. } => Some(stat.at),
        StatKind::LocalFunction { func, .. } => in_function(names, bindings, func),
        StatKind::Return(values) => in_values(names, bindings, values.as_slice()),
        StatKind::Break | StatKind::Continue => None,
    }
}

// The first of two places, where one is found.
fn first_of(found: Option<usize>, other: Option<usize>) -> Option<usize>
    ensures { result ≡ unbuilt.or_else found other }
{
    match found {
        Some(at) => Some(at),
        None => other,
    }
}

// What is not built in the step of a loop.
#[cycle(unbuilt)]
fn in_step(names: &Interner, bindings: &Bindings, step: &Option<Boxed<Expr>>) -> Option<usize>
    ensures { result ≡ unbuilt.step_value (option_map (unbuilt.uses_of names.now bindings.now) step.now) }
{
    match step {
        None => None,
        Some(step) => in_value(names, bindings, step.get()),
    }
}

// What is not built in the arms of an `if`.
#[cycle(unbuilt)]
fn in_arms(names: &Interner, bindings: &Bindings, arms: &[Arm]) -> Option<usize>
    ensures { result ≡ unbuilt.block (map (unbuilt.unbuilt_in_arm names.now bindings.now) arms.now) }
{
    for arm in arms {
        if let Some(at) = in_value(names, bindings, &arm.cond) {
            return Some(at);
        }
        if let Some(at) = in_block(names, bindings, arm.body.as_slice()) {
            return Some(at);
        }
    }
    None
}

// What is not built in values.
#[cycle(unbuilt)]
fn in_values(names: &Interner, bindings: &Bindings, values: &[Expr]) -> Option<usize>
    ensures { result ≡ unbuilt.values (map (unbuilt.uses_of names.now bindings.now) values.now) }
{
    for value in values {
        if let Some(at) = in_value(names, bindings, value) {
            return Some(at);
        }
    }
    None
}

// What is not built in a value.
#[cycle(unbuilt)]
fn in_value(names: &Interner, bindings: &Bindings, e: &Expr) -> Option<usize>
    ensures { result ≡ (unbuilt.uses_of names.now bindings.now e.now).value }
{
    match &e.kind {
        ExprKind::Nil
        | ExprKind::True
        | ExprKind::False
        | ExprKind::Num(_)
        | ExprKind::Str(_)
        | ExprKind::Vararg => None,
        ExprKind::Name(name) => in_name(names, bound_at(bindings, e.id), *name, e.at),
        ExprKind::Paren(e) | ExprKind::Unary { e, .. } => in_value(names, bindings, e.get()),
        ExprKind::Binary { a, b, .. } => match in_value(names, bindings, a.get()) {
            Some(at) => Some(at),
            None => in_value(names, bindings, b.get()),
        },
        ExprKind::Concat(operands) => in_values(names, bindings, operands.as_slice()),
        ExprKind::Call { callee, args } => match in_value(names, bindings, callee.get()) {
            Some(at) => Some(at),
            None => in_values(names, bindings, args.as_slice()),
        },
        ExprKind::Function(func) => in_function(names, bindings, func),
        ExprKind::If { arms, other } => match in_expr_arms(names, bindings, arms.as_slice()) {
            Some(at) => Some(at),
            None => in_value(names, bindings, other.get()),
        },
        ExprKind::Index { .. }
        | ExprKind::Member { .. }
        | ExprKind::Method { .. }
        | ExprKind::Table(_)
        | ExprKind::Interp { .. } => Some(e.at),
    }
}

// What is not built in the arms of an `if` expression.
#[cycle(unbuilt)]
fn in_expr_arms(names: &Interner, bindings: &Bindings, arms: &[ExprArm]) -> Option<usize>
    ensures { result ≡ unbuilt.block (map (unbuilt.unbuilt_in_expr_arm names.now bindings.now) arms.now) }
{
    for arm in arms {
        if let Some(at) = in_value(names, bindings, &arm.cond) {
            return Some(at);
        }
        if let Some(at) = in_value(names, bindings, &arm.value) {
            return Some(at);
        }
    }
    None
}

// What is not built in a name at a place.
fn in_name(names: &Interner, bound: Bound, name: StrId, at: usize) -> Option<usize>
    ensures { result ≡ unbuilt.name_value names.now name bound at }
{
    match bound {
        Bound::Local(_) | Bound::Up(_) => None,
        Bound::Global => {
            if is_built_global(names, name) {
                None
            } else {
                Some(at)
            }
        }
    }
}

// Whether a global may be read.
fn is_built_global(names: &Interner, name: StrId) -> bool
    ensures { result ≡ unbuilt.is_built_global names.now name }
{
    if name.0 >= names.count() {
        return false;
    }
    let text = names.bytes(name);
    text == b"print".as_slice()
        || text == b"type".as_slice()
        || text == b"select".as_slice()
        || text == b"rawequal".as_slice()
}

// What is not built in what is assigned to.
fn in_targets(names: &Interner, bindings: &Bindings, targets: &[Expr]) -> Option<usize>
    ensures { result ≡ unbuilt.targets (map (unbuilt.uses_of names.now bindings.now) targets.now) }
{
    for target in targets {
        if let Some(at) = in_target(names, bindings, target) {
            return Some(at);
        }
    }
    None
}

// What is not built in an expression that is assigned to.
fn in_target(names: &Interner, bindings: &Bindings, e: &Expr) -> Option<usize>
    ensures { result ≡ (unbuilt.uses_of names.now bindings.now e.now).target }
{
    match &e.kind {
        ExprKind::Name(_) => match bound_at(bindings, e.id) {
            Bound::Local(_) | Bound::Up(_) => None,
            Bound::Global => Some(e.at),
        },
        _ => Some(e.at),
    }
}
