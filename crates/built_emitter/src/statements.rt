//! The code of statements.

ghost use Rattle.std.specs.Prelude.{◌≡◌, ◌+◌, ◌^◌, ◌<◌, ◌≤◌, [], ◌∷◌, map, length, OnOk, Some, IsSome};
ghost use Rattle.built_emitter.specs.Operations.{unless};
ghost use Rattle.built_emitter.specs.Form.{room, IsValue, IsCondition, IsCall, IsStatement, IsBlock};
ghost use Rattle.built_emitter.specs.Size.{expr_words, stat_words, block_words};
ghost use Rattle.syntax_tree.specs.Limits.{most_variables};
ghost use Rattle.built_emitter.specs.Emitted.{NamesPrint, IsTarget, EmitsAssignment, EmitsPrint, EmitsTest, EmitsStatement, EmitsBlock};
ghost use Rattle.built_emitter.specs.Standing.{names_of, scope_after, Stand, StandsAt};
ghost use Rattle.scope_laws.specs.Sight as sight;

use crate::bound::first_at;
use crate::draft::{Draft, new_label, put};
use crate::scope::Scope;
use crate::values::{emit_value, register_of};
use code_link::Item;
use op_words::Insn;
use resource::OutOfMemory;
use syntax_tree::{BinOp, Bindings, Expr, ExprKind, Stat, StatKind, Visible};

// The constant that names `print`, which each script has first.
const PRINT: u32 = 0;

// An assignment to a local. The value is put into the first free register, and copied.
#[tactic(auto, using(crate::proofs::Assignments::value_form, crate::proofs::Assignments::emits_of_assignment))]
fn emit_assignment(
    code: &mut Draft,
    scope: &Scope,
    bindings: &Bindings,
    target: &Expr,
    value: &Expr,
) -> Result<(), OutOfMemory>
    requires stand { Stand bindings.now scope.now (sight.expr target.now ∷ sight.expr value.now ∷ []) }
    requires target { IsTarget (names_of scope.now) target.now }
    requires value { IsValue bindings.now (room (names_of scope.now) 0) value.now }
    requires few { length (names_of scope.now) ≤ most_variables }
    requires room { length code.old.constants.items + expr_words value.now ≤ 2 ^ 15 }
    ensures { OnOk result (EmitsAssignment (names_of scope.now) target.now value.now code.old code.new) }
{
    let to = register_of(scope, bindings, target).unwrap() as u8;
    let from = scope.free_register() as u8;
    emit_value(code, scope, bindings, from, value)?;
    put(code, Item::Insn(Insn::Move { to, from }))
}

// A call of `print` with one value.
fn emit_print(
    code: &mut Draft,
    scope: &Scope,
    bindings: &Bindings,
    call: &Expr,
) -> Result<(), OutOfMemory>
    requires stands { StandsAt bindings.now scope.now (sight.expr call.now) }
    requires form { IsCall bindings.now (names_of scope.now) call.now }
    requires few { length (names_of scope.now) ≤ most_variables }
    requires room { length code.old.constants.items + expr_words call.now ≤ 2 ^ 15 }
    requires print { NamesPrint code.old }
    ensures { OnOk result (EmitsPrint (names_of scope.now) call.now code.old code.new) }
{
    let ExprKind::Call { args, .. } = &call.kind else {
        unreachable!()
    };
    let base = scope.free_register() as u8;
    let name = Insn::GetGlobal {
        to: base,
        constant: PRINT,
    };
    put(code, Item::Insn(name))?;
    emit_value(code, scope, bindings, base + 1, &args.as_slice()[0])?;
    let call = Insn::Call {
        base,
        arguments: 2,
        results: 1,
    };
    put(code, Item::Insn(call))
}

// The jump that is taken where a comparison of two registers does not hold.
fn unless(op: BinOp, left: u8, right: u8) -> Insn
    requires { IsSome (unless op 0 0) }
    ensures { unless op left right ≡ Some result }
{
    let (by, first, second) = (0, u32::from(left), u32::from(right));
    match op {
        BinOp::Eq => Insn::JumpIfNotEq {
            left,
            by,
            right: second,
        },
        BinOp::Ne => Insn::JumpIfEq {
            left,
            by,
            right: second,
        },
        BinOp::Lt => Insn::JumpIfNotLt {
            left,
            by,
            right: second,
        },
        BinOp::Le => Insn::JumpIfNotLe {
            left,
            by,
            right: second,
        },
        BinOp::Gt => Insn::JumpIfNotLt {
            left: right,
            by,
            right: first,
        },
        BinOp::Ge => Insn::JumpIfNotLe {
            left: right,
            by,
            right: first,
        },
        _ => unreachable!(),
    }
}

// Goes on where a condition holds, and else to the label.
#[tactic(auto, using(crate::proofs::EmittedStatements::emits_of_test))]
fn emit_test(
    code: &mut Draft,
    scope: &Scope,
    bindings: &Bindings,
    label: usize,
    cond: &Expr,
) -> Result<(), OutOfMemory>
    requires stands { StandsAt bindings.now scope.now (sight.expr cond.now) }
    requires form { IsCondition bindings.now (names_of scope.now) cond.now }
    requires few { length (names_of scope.now) ≤ most_variables }
    requires room { length code.old.constants.items + expr_words cond.now ≤ 2 ^ 15 }
    requires label { label < code.old.labels }
    ensures { OnOk result (EmitsTest (names_of scope.now) label cond.now code.old code.new) }
{
    let ExprKind::Binary { op, a, b } = &cond.kind else {
        unreachable!()
    };
    let left = scope.free_register() as u8;
    emit_value(code, scope, bindings, left, a.get())?;
    emit_value(code, scope, bindings, left + 1, b.get())?;
    put(code, Item::Branch(unless(*op, left, left + 1), label))
}

// The code of a statement. A new local gets the first free register.
#[cycle(statements)]
fn emit_statement(
    code: &mut Draft,
    scope: &mut Scope,
    bindings: &Bindings,
    stat: &Stat,
) -> Result<(), OutOfMemory>
    requires stands { StandsAt bindings.now scope.old (sight.stat stat.now) }
    requires form { IsStatement bindings.now (names_of scope.old) stat.now }
    requires few { length (names_of scope.old) ≤ most_variables }
    requires room { length code.old.constants.items + stat_words stat.now ≤ 2 ^ 15 }
    requires labels { code.old.labels + stat_words stat.now ≤ 2 ^ 15 }
    requires print { NamesPrint code.old }
    ensures code { OnOk result (EmitsStatement (names_of scope.old) stat.now code.old code.new) }
    ensures scope { OnOk result (scope.new ≡ scope_after bindings.now scope.old stat.now) }
{
    match &stat.kind {
        StatKind::Local { names, values } => {
            let free = scope.free_register() as u8;
            emit_value(code, scope, bindings, free, &values.as_slice()[0])?;
            let local = first_at(bindings, stat.id);
            scope.declare(Visible {
                name: names.as_slice()[0],
                local,
            })
        }
        StatKind::Assign { targets, values } => {
            let target = &targets.as_slice()[0];
            emit_assignment(code, scope, bindings, target, &values.as_slice()[0])
        }
        StatKind::Call(call) => emit_print(code, scope, bindings, call),
        StatKind::If { arms, other } => match other {
            None => {
                let arm = &arms.as_slice()[0];
                let over = new_label(code);
                emit_test(code, scope, bindings, over, &arm.cond)?;
                emit_block(code, scope, bindings, arm.body.as_slice())?;
                put(code, Item::Label(over))
            }
            Some(others) => {
                let arm = &arms.as_slice()[0];
                let to_other = new_label(code);
                let over = new_label(code);
                emit_test(code, scope, bindings, to_other, &arm.cond)?;
                emit_block(code, scope, bindings, arm.body.as_slice())?;
                put(code, Item::Branch(Insn::Jump { by: 0 }, over))?;
                put(code, Item::Label(to_other))?;
                emit_block(code, scope, bindings, others.as_slice())?;
                put(code, Item::Label(over))
            }
        },
        StatKind::While { cond, body } => {
            let start = new_label(code);
            let over = new_label(code);
            put(code, Item::Label(start))?;
            emit_test(code, scope, bindings, over, cond.get())?;
            emit_block(code, scope, bindings, body.as_slice())?;
            put(code, Item::Branch(Insn::JumpBack { by: 0 }, start))?;
            put(code, Item::Label(over))
        }
        _ => unreachable!(),
    }
}

/// The code of a block, whose locals are forgotten behind it.
#[cycle(statements)]
pub fn emit_block(
    code: &mut Draft,
    scope: &mut Scope,
    bindings: &Bindings,
    block: &[Stat],
) -> Result<(), OutOfMemory>
    requires stand { Stand bindings.now scope.old (map sight.stat block.now) }
    requires form { IsBlock bindings.now (names_of scope.old) block.now }
    requires room { length code.old.constants.items + block_words block.now ≤ 2 ^ 15 }
    requires labels { code.old.labels + block_words block.now ≤ 2 ^ 15 }
    requires print { NamesPrint code.old }
    ensures code { OnOk result (EmitsBlock (names_of scope.old) block.now code.old code.new) }
    ensures scope { OnOk result (scope.new ≡ scope.old) }
{
    let outer = scope.free_register();
    for stat in block {
        emit_statement(code, scope, bindings, stat)?;
    }
    scope.forget(outer);
    Ok(())
}
