//! The code of the nodes.

ghost use Rattle.std.specs.Prelude.{◌≡◌, ◌+◌, ◌≤◌, map, length, IfOk, option_map};
ghost use Rattle.syntax_tree.specs.Need.{need_expr, list_need, need_stat, block_need, declared_in, need_arm, need_expr_arm, need_step};
ghost use Rattle.syntax_tree.specs.Lists.{greatest};
ghost use Rattle.emit_expr.specs.Puts.{Went};
ghost use Rattle.node_code.specs.Code as spec;
ghost use Rattle.node_code.specs.Nodes as node;
ghost use Rattle.node_code.specs.Lists as lists;
ghost use Rattle.node_code.specs.Conditions as conditions;

use byte_text::StrId;
use emit_expr::{
    Emitter, Loop, Mark, arithmetic, arithmetic_constant, bound_at, comparison, first_at,
    from_constant, is_captured, is_comparison, label, truth, unary_insn,
};
use node_code::{
    answer, assign_all, begin_for, begin_function, behind, concat_insn, copy_index, count,
    count_of, declares, emit_nils, end_arm, end_choice, end_for, end_function, end_repeat,
    end_while, has_more, in_turn, is_many, left_number, loop_at, near_number, no_loop, node_of,
    own_local, results_for,
};
use op_words::{Const, Insn};
use resource::OutOfMemory;
use sqlite_items::Boxed;
use std::alloc::Global;
use syntax_tree::{
    Arm, BinOp, Bindings, Bound, Expr, ExprArm, ExprKind, FuncBody, Stat, StatKind, UnOp, need,
};

/// The code of a script with labels: its functions in the order in which their texts end.
pub fn emit_script(alloc: Global, main: &FuncBody, b: &Bindings) -> Result<Emitter, OutOfMemory>
    ensures { IfOk result (λ code. code ≡ spec.script_code b.now main.now) }
{
    let mut code = Emitter::new(alloc);
    emit_function(&mut code, alloc, b, 0, main);
    if code.lost {
        Err(OutOfMemory)
    } else {
        Ok(code)
    }
}

// ---- lists

// All values of a list, from a register on; answers the register behind the last expression's.
#[cycle(nodes)]
fn emit_list(code: &mut Emitter, alloc: Global, b: &Bindings, to: u8, list: &[Expr]) -> u8
    requires { to + list_need (map need_expr list.now) ≤ 250 }
    ensures end { result ≡ to + length list.now }
    ensures small { result ≤ 251 }
    ensures code { Went code.old code.new (lists.list_run (map (spec.expr_code b.now) list.now) to code.old) }
{
    let mut at = to;
    for (i, e) in list.iter().enumerate() {
        let results = results_for(list.len() - i - 1);
        emit_expr(code, alloc, b, at, results, e);
        at += 1;
    }
    at
}

// One value of each expression, from a register on.
#[cycle(nodes)]
fn emit_each(code: &mut Emitter, alloc: Global, b: &Bindings, to: u8, list: &[Expr]) -> u8
    requires { to + list_need (map need_expr list.now) ≤ 250 }
    ensures end { result ≡ to + length list.now }
    ensures code { Went code.old code.new (lists.each_run (map (spec.expr_code b.now) list.now) to code.old) }
{
    let mut at = to;
    for (i, e) in list.iter().enumerate() {
        emit_expr(code, alloc, b, at, 2, e);
        at += 1;
    }
    at
}

// So many values of the last expression of a list.
#[cycle(nodes)]
fn emit_last(code: &mut Emitter, alloc: Global, b: &Bindings, to: u8, count: usize, e: &Expr)
    requires count { to + count ≤ 250 }
    requires need { to + (need_expr e.now).need ≤ 250 }
    ensures { Went code.old code.new (lists.last_run (spec.expr_code b.now e.now) to count code.old) }
{
    if is_many(b, e) {
        emit_expr(code, alloc, b, to, (count + 1) as u8, e)
    } else {
        emit_expr(code, alloc, b, to, 2, e);
        emit_nils(code, to + 1, count.saturating_sub(1))
    }
}

// So many values of a list.
#[cycle(nodes)]
fn emit_exact(code: &mut Emitter, alloc: Global, b: &Bindings, to: u8, count: usize, list: &[Expr])
    requires count { to + count ≤ 250 }
    requires need { to + list_need (map need_expr list.now) ≤ 250 }
    ensures { Went code.old code.new (lists.exact_run (map (spec.expr_code b.now) list.now) to count code.old) }
{
    let mut at = to;
    let mut left = count;
    for (i, e) in list.iter().enumerate() {
        if i + 1 == list.len() {
            emit_last(code, alloc, b, at, left, e);
            return;
        }
        emit_expr(code, alloc, b, at, 2, e);
        at = behind(at, left);
        left = left.saturating_sub(1);
    }
    emit_nils(code, at, left)
}

// ---- operators and conditions

// An operand; answers the register that has its value.
#[cycle(nodes)]
fn emit_operand(code: &mut Emitter, alloc: Global, b: &Bindings, to: u8, e: &Expr) -> u8
    requires { to + (need_expr e.now).need ≤ 250 }
    ensures register { result ≡ node.operand_at (spec.expr_code b.now e.now) to code.old }
    ensures code { Went code.old code.new (node.operand_run (spec.expr_code b.now e.now) to code.old) }
{
    match own_local(b, e) {
        Some(number) => code.register_of(number),
        None => {
            emit_expr(code, alloc, b, to, 2, e);
            to
        }
    }
}

// Arithmetic, where a register has the left operand's value.
#[cycle(nodes)]
fn emit_operate(
    code: &mut Emitter,
    alloc: Global,
    b: &Bindings,
    op: BinOp,
    to: u8,
    left: u8,
    at: u8,
    e: &Expr,
)
    requires { at + (need_expr e.now).need ≤ 250 }
    ensures { Went code.old code.new (conditions.operate_run op to left (spec.expr_code b.now e.now) at code.old) }
{
    match near_number(code, b, e) {
        Some(n) => {
            let constant = code.constant(Const::Num(n)) as u8;
            code.insn(arithmetic_constant(op, to, left, constant))
        }
        None => {
            let right = emit_operand(code, alloc, b, at, e);
            code.insn(arithmetic(op, to, left, right))
        }
    }
}

// A jump to a label where an expression's value is true, or where it is false.
#[cycle(nodes)]
fn emit_jump(
    code: &mut Emitter,
    alloc: Global,
    b: &Bindings,
    so: bool,
    to: u8,
    target: usize,
    e: &Expr,
)
    requires { to + (need_expr e.now).need ≤ 250 }
    ensures { Went code.old code.new ((spec.expr_code b.now e.now).jump so to target code.old) }
{
    match &e.kind {
        ExprKind::Paren(inner) => emit_jump(code, alloc, b, so, to, target, inner.get()),
        ExprKind::Unary {
            op: UnOp::Not,
            e: inner,
        } => emit_jump(code, alloc, b, !so, to, target, inner.get()),
        ExprKind::Binary {
            op: BinOp::And,
            a,
            b: right,
        } => {
            if so {
                emit_jump(code, alloc, b, false, to, label(e.id, 0), a.get());
                emit_jump(code, alloc, b, true, to, target, right.get());
                code.place(e.id, 0)
            } else {
                emit_jump(code, alloc, b, false, to, target, a.get());
                emit_jump(code, alloc, b, false, to, target, right.get())
            }
        }
        ExprKind::Binary {
            op: BinOp::Or,
            a,
            b: right,
        } => {
            if so {
                emit_jump(code, alloc, b, true, to, target, a.get());
                emit_jump(code, alloc, b, true, to, target, right.get())
            } else {
                emit_jump(code, alloc, b, true, to, label(e.id, 0), a.get());
                emit_jump(code, alloc, b, false, to, target, right.get());
                code.place(e.id, 0)
            }
        }
        ExprKind::Binary { op, a, b: right } if is_comparison(*op) => {
            let left = emit_operand(code, alloc, b, to, a.get());
            let right = emit_operand(code, alloc, b, to + 1, right.get());
            code.branch(comparison(*op, so, left, right), target)
        }
        _ => {
            let value = emit_operand(code, alloc, b, to, e);
            code.branch(truth(so, value), target)
        }
    }
}

// The value of the first arm whose condition is true.
#[cycle(nodes)]
fn emit_choices(
    code: &mut Emitter,
    alloc: Global,
    b: &Bindings,
    node: usize,
    to: u8,
    arms: &[ExprArm],
)
    requires { to + greatest (map need_expr_arm arms.now) ≤ 250 }
    ensures { Went code.old code.new (conditions.choices_run (map (spec.choice_code b.now) arms.now) node to code.old) }
{
    for arm in arms {
        emit_choice(code, alloc, b, node, to, arm);
    }
}

#[cycle(nodes)]
fn emit_choice(code: &mut Emitter, alloc: Global, b: &Bindings, node: usize, to: u8, arm: &ExprArm)
    requires { to + need_expr_arm arm.now ≤ 250 }
    ensures { Went code.old code.new (conditions.choice_run (spec.choice_code b.now arm.now) node to code.old) }
{
    let next = node_of(b, &arm.cond);
    emit_jump(code, alloc, b, false, to, label(next, 1), &arm.cond);
    emit_expr(code, alloc, b, to, 2, &arm.value);
    end_choice(code, node, next)
}

// ---- expressions

// Leaves an expression's value in register `to`, or, if it gives many, so many of them from there on.
#[cycle(nodes)]
fn emit_expr(code: &mut Emitter, alloc: Global, b: &Bindings, to: u8, results: u8, e: &Expr)
    requires { to + (need_expr e.now).need ≤ 250 }
    ensures { Went code.old code.new ((spec.expr_code b.now e.now).run to results code.old) }
{
    match &e.kind {
        ExprKind::Nil => code.insn(Insn::LoadNil { to }),
        ExprKind::True => code.insn(Insn::LoadB {
            to,
            value: 1,
            skip: 0,
        }),
        ExprKind::False => code.insn(Insn::LoadB {
            to,
            value: 0,
            skip: 0,
        }),
        ExprKind::Num(n) => code.load_number(*n, to),
        ExprKind::Str(text) => code.load_text(*text, to),
        ExprKind::Vararg => code.insn(Insn::GetVarargs {
            base: to,
            values: results,
        }),
        ExprKind::Name(name) => code.read_name(b, bound_at(b, e.id), *name, to),
        ExprKind::Paren(inner) => emit_expr(code, alloc, b, to, 2, inner.get()),
        ExprKind::Unary { op, e: inner } => {
            let operand = emit_operand(code, alloc, b, to, inner.get());
            code.insn(unary_insn(*op, to, operand))
        }
        ExprKind::Concat(list) => {
            let end = emit_each(code, alloc, b, to, list.as_slice());
            code.insn(concat_insn(b, list.as_slice(), to, end))
        }
        ExprKind::Binary { op, a, b: right } => match op {
            BinOp::And => {
                emit_expr(code, alloc, b, to, 2, a.get());
                code.branch(Insn::JumpIfNot { value: to, by: 0 }, label(e.id, 0));
                emit_expr(code, alloc, b, to, 2, right.get());
                code.place(e.id, 0)
            }
            BinOp::Or => {
                emit_expr(code, alloc, b, to, 2, a.get());
                code.branch(Insn::JumpIf { value: to, by: 0 }, label(e.id, 0));
                emit_expr(code, alloc, b, to, 2, right.get());
                code.place(e.id, 0)
            }
            _ => {
                if is_comparison(*op) {
                    let left = emit_operand(code, alloc, b, to, a.get());
                    let right = emit_operand(code, alloc, b, to + 1, right.get());
                    code.branch(comparison(*op, true, left, right), label(e.id, 0));
                    answer(code, e.id, to)
                } else {
                    match left_number(code, b, *op, a.get()) {
                        Some(n) => {
                            let constant = code.constant(Const::Num(n)) as u8;
                            let right = emit_operand(code, alloc, b, to, right.get());
                            code.insn(from_constant(*op, to, constant, right))
                        }
                        None => {
                            let left = emit_operand(code, alloc, b, to, a.get());
                            emit_operate(code, alloc, b, *op, to, left, to + 1, right.get())
                        }
                    }
                }
            }
        },
        ExprKind::Call { callee, args } => {
            emit_expr(code, alloc, b, to, 2, callee.get());
            let end = emit_list(code, alloc, b, to + 1, args.as_slice());
            let arguments = count_of(b, args.as_slice(), end - (to + 1));
            code.insn(Insn::Call {
                base: to,
                arguments,
                results,
            })
        }
        ExprKind::Function(func) => emit_function(code, alloc, b, to, func),
        ExprKind::If { arms, other } => {
            emit_choices(code, alloc, b, e.id, to, arms.as_slice());
            emit_expr(code, alloc, b, to, 2, other.get());
            code.place(e.id, 0)
        }
        _ => {}
    }
}

// Makes a closure, and the code of its function. A function that needs more registers than there are is lost.
#[cycle(nodes)]
fn emit_function(code: &mut Emitter, alloc: Global, b: &Bindings, to: u8, func: &FuncBody)
    ensures { Went code.old code.new (spec.func_code b.now func.now to code.old) }
{
    if need(func) > 250 {
        code.lost = true;
        return;
    }
    let params = func.params.len();
    let outer = begin_function(code, alloc, b, func.id, params, func.vararg);
    emit_stats(
        code,
        alloc,
        b,
        params as u8,
        no_loop(),
        func.body.as_slice(),
    );
    end_function(code, b, params, func.vararg, to, outer)
}

// ---- blocks

#[cycle(nodes)]
fn emit_stats(
    code: &mut Emitter,
    alloc: Global,
    b: &Bindings,
    free: u8,
    around: Loop,
    block: &[Stat],
)
    requires { free + block_need (map need_stat block.now) ≤ 250 }
    ensures { Went code.old code.new (spec.stats_run (map (spec.stat_code b.now) block.now) free around code.old) }
{
    let mut at = free;
    let mut declared = 0;
    for stat in block {
        emit_stat(code, alloc, b, at, around, stat);
        let count = declares(b, stat);
        at += count;
        declared += count;
    }
}

#[cycle(nodes)]
fn emit_block(
    code: &mut Emitter,
    alloc: Global,
    b: &Bindings,
    free: u8,
    around: Loop,
    block: &[Stat],
)
    requires { free + block_need (map need_stat block.now) ≤ 250 }
    ensures { Went code.old code.new (spec.block_run b.now (map (spec.stat_code b.now) block.now) free around code.old) }
{
    let mark = code.mark(free);
    emit_stats(code, alloc, b, free, around, block);
    code.end_scope(b, mark)
}

// The body of a loop; answers the first register that is free at its end.
#[cycle(nodes)]
fn emit_body(
    code: &mut Emitter,
    alloc: Global,
    b: &Bindings,
    free: u8,
    around: Loop,
    block: &[Stat],
) -> u8
    requires { free + block_need (map need_stat block.now) ≤ 250 }
    ensures declared { result ≡ free + spec.declared (map (spec.stat_code b.now) block.now) }
    ensures held { result ≡ free + declared_in (map need_stat block.now) }
    ensures code { Went code.old code.new (spec.body_run (map (spec.stat_code b.now) block.now) free around code.old) }
{
    let mut at = free;
    let mut declared = 0;
    for stat in block {
        let inside = in_turn(code.mark(at), around);
        emit_stat(code, alloc, b, at, inside, stat);
        let count = declares(b, stat);
        at += count;
        declared += count;
    }
    at
}

// The body of a loop and its end, to which `continue` leads; answers the first register that is free there.
#[cycle(nodes)]
fn emit_pass(
    code: &mut Emitter,
    alloc: Global,
    b: &Bindings,
    mark: Mark,
    free: u8,
    node: usize,
    block: &[Stat],
) -> u8
    requires { free + block_need (map need_stat block.now) ≤ 250 }
    ensures declared { result ≡ free + spec.declared (map (spec.stat_code b.now) block.now) }
    ensures held { result ≡ free + declared_in (map need_stat block.now) }
    ensures code { Went code.old code.new (spec.pass_run mark (map (spec.stat_code b.now) block.now) free node code.old) }
{
    let end = emit_body(code, alloc, b, free, loop_at(node, mark), block);
    code.place(node, 2);
    end
}

#[cycle(nodes)]
fn emit_turn(
    code: &mut Emitter,
    alloc: Global,
    b: &Bindings,
    mark: Mark,
    free: u8,
    node: usize,
    block: &[Stat],
)
    requires { free + block_need (map need_stat block.now) ≤ 250 }
    ensures { Went code.old code.new (spec.turn_run b.now mark (map (spec.stat_code b.now) block.now) free node code.old) }
{
    emit_pass(code, alloc, b, mark, free, node, block);
    code.end_scope(b, mark)
}

#[cycle(nodes)]
fn emit_arms(
    code: &mut Emitter,
    alloc: Global,
    b: &Bindings,
    other: bool,
    node: usize,
    free: u8,
    around: Loop,
    arms: &[Arm],
)
    requires { free + greatest (map need_arm arms.now) ≤ 250 }
    ensures { Went code.old code.new (spec.arms_run b.now other (map (spec.arm_code b.now) arms.now) node free around code.old) }
{
    for (i, arm) in arms.iter().enumerate() {
        let more = has_more(other, arms.len() - i - 1);
        emit_arm(code, alloc, b, more, node, free, around, arm);
    }
}

#[cycle(nodes)]
fn emit_arm(
    code: &mut Emitter,
    alloc: Global,
    b: &Bindings,
    more: bool,
    node: usize,
    free: u8,
    around: Loop,
    arm: &Arm,
)
    requires { free + need_arm arm.now ≤ 250 }
    ensures { Went code.old code.new (spec.arm_run b.now more (spec.arm_code b.now arm.now) node free around code.old) }
{
    let next = node_of(b, &arm.cond);
    emit_jump(code, alloc, b, false, free, label(next, 1), &arm.cond);
    emit_block(code, alloc, b, free, around, arm.body.as_slice());
    end_arm(code, more, node, next)
}

// ---- statements

// A value that is made behind a loop's registers, into one of them.
#[cycle(nodes)]
fn emit_copied(code: &mut Emitter, alloc: Global, b: &Bindings, to: u8, at: u8, e: &Expr)
    requires { at + (need_expr e.now).need ≤ 250 }
    ensures { Went code.old code.new (spec.copied (spec.expr_code b.now e.now) to at code.old) }
{
    let from = emit_operand(code, alloc, b, at, e);
    code.insn(Insn::Move { to, from })
}

#[cycle(nodes)]
fn emit_step(code: &mut Emitter, alloc: Global, b: &Bindings, free: u8, step: &Option<Boxed<Expr>>)
    requires room { free ≤ 246 }
    requires need { free + need_step step.now ≤ 250 }
    ensures { Went code.old code.new (spec.step_run (option_map (spec.expr_code b.now) step.now) free code.old) }
{
    match step {
        Some(e) => emit_copied(code, alloc, b, free + 1, free + 3, e.get()),
        None => code.insn(Insn::LoadN {
            to: free + 1,
            value: 1,
        }),
    }
}

// The turns of a numeric loop, whose index is copied into the variable.
#[cycle(nodes)]
fn emit_turns(code: &mut Emitter, alloc: Global, b: &Bindings, free: u8, stat: &Stat)
    requires { free + (need_stat stat.now).need ≤ 250 }
    ensures { Went code.old code.new ((spec.stat_code b.now stat.now).turns free code.old) }
{
    match &stat.kind {
        StatKind::NumFor {
            name: _,
            start: _,
            limit: _,
            step: _,
            body,
        } => {
            let mark = code.mark(free + 3);
            copy_index(code, b, stat.id, free);
            emit_turn(code, alloc, b, mark, free + 4, stat.id, body.as_slice())
        }
        _ => {}
    }
}

// The operands stand in registers one behind the other.
#[cycle(nodes)]
fn emit_joined(code: &mut Emitter, alloc: Global, b: &Bindings, to: u8, left: u8, e: &Expr)
    requires { left + 1 + (need_expr e.now).need ≤ 250 }
    ensures { Went code.old code.new (spec.joined (spec.expr_code b.now e.now) to left code.old) }
{
    emit_expr(code, alloc, b, left + 1, 2, e);
    code.insn(Insn::Concat {
        to,
        first: left,
        last: left + 1,
    })
}

// The operator of a compound assignment, whose left operand's value is in the first free register.
#[cycle(nodes)]
fn emit_operated(
    code: &mut Emitter,
    alloc: Global,
    b: &Bindings,
    op: BinOp,
    to: u8,
    free: u8,
    e: &Expr,
)
    requires { free + 1 + (need_expr e.now).need ≤ 250 }
    ensures { Went code.old code.new (spec.operated op (spec.expr_code b.now e.now) to free code.old) }
{
    match op {
        BinOp::Concat => emit_joined(code, alloc, b, to, free, e),
        _ => emit_operate(code, alloc, b, op, to, free, free + 1, e),
    }
}

#[cycle(nodes)]
fn emit_update_own(
    code: &mut Emitter,
    alloc: Global,
    b: &Bindings,
    op: BinOp,
    register: u8,
    free: u8,
    e: &Expr,
)
    requires { free + 1 + (need_expr e.now).need ≤ 250 }
    ensures { Went code.old code.new (spec.update_own op (spec.expr_code b.now e.now) register free code.old) }
{
    match op {
        BinOp::Concat => {
            code.insn(Insn::Move {
                to: free,
                from: register,
            });
            emit_joined(code, alloc, b, register, free, e)
        }
        _ => emit_operate(code, alloc, b, op, register, register, free, e),
    }
}

// A compound assignment to a name.
#[cycle(nodes)]
fn emit_update(
    code: &mut Emitter,
    alloc: Global,
    b: &Bindings,
    op: BinOp,
    bound: Bound,
    name: StrId,
    free: u8,
    e: &Expr,
)
    requires { free + 1 + (need_expr e.now).need ≤ 250 }
    ensures { Went code.old code.new (spec.update_run b.now (node.Named bound name) op (spec.expr_code b.now e.now) free code.old) }
{
    match bound {
        Bound::Local(number) => {
            let register = code.register_of(number);
            if is_captured(b, number) {
                code.insn(Insn::Move {
                    to: free,
                    from: register,
                });
                emit_operated(code, alloc, b, op, register, free, e)
            } else {
                emit_update_own(code, alloc, b, op, register, free, e)
            }
        }
        Bound::Up(_) | Bound::Global => {
            code.read_name(b, bound, name, free);
            emit_operated(code, alloc, b, op, free, free, e);
            code.assign_name(b, bound, name, free)
        }
    }
}

#[cycle(nodes)]
fn emit_stat(code: &mut Emitter, alloc: Global, b: &Bindings, free: u8, around: Loop, stat: &Stat)
    requires { free + (need_stat stat.now).need ≤ 250 }
    ensures { Went code.old code.new ((spec.stat_code b.now stat.now).run free around code.old) }
{
    match &stat.kind {
        StatKind::Local { names, values } => {
            emit_exact(code, alloc, b, free, names.len(), values.as_slice());
            code.declare_all(first_at(b, stat.id), free, names.len())
        }
        StatKind::Assign { targets, values } => {
            let count = count(b, targets.as_slice());
            emit_exact(code, alloc, b, free, count, values.as_slice());
            assign_all(code, b, free, targets.as_slice())
        }
        StatKind::Compound { op, target, value } => {
            let target = target.get();
            match &target.kind {
                ExprKind::Name(name) => {
                    emit_update(
                        code,
                        alloc,
                        b,
                        *op,
                        bound_at(b, target.id),
                        *name,
                        free,
                        value.get(),
                    )
                }
                _ => {}
            }
        }
        StatKind::Call(call) => emit_expr(code, alloc, b, free, 1, call),
        StatKind::Do(body) => emit_block(code, alloc, b, free, around, body.as_slice()),
        StatKind::While { cond, body } => {
            let mark = code.mark(free);
            code.place(stat.id, 0);
            emit_jump(code, alloc, b, false, free, label(stat.id, 1), cond.get());
            emit_turn(code, alloc, b, mark, free, stat.id, body.as_slice());
            end_while(code, stat.id)
        }
        StatKind::Repeat { body, cond } => {
            let mark = code.mark(free);
            code.place(stat.id, 0);
            let end = emit_pass(code, alloc, b, mark, free, stat.id, body.as_slice());
            emit_jump(code, alloc, b, true, end, label(stat.id, 3), cond.get());
            end_repeat(code, b, mark, stat.id)
        }
        StatKind::If { arms, other } => match other {
            None => {
                emit_arms(
                    code,
                    alloc,
                    b,
                    false,
                    stat.id,
                    free,
                    around,
                    arms.as_slice(),
                );
                code.place(stat.id, 0)
            }
            Some(body) => {
                emit_arms(code, alloc, b, true, stat.id, free, around, arms.as_slice());
                emit_block(code, alloc, b, free, around, body.as_slice());
                code.place(stat.id, 0)
            }
        },
        StatKind::NumFor {
            name: _,
            start,
            limit,
            step,
            body: _,
        } => {
            emit_expr(code, alloc, b, free + 2, 2, start.get());
            emit_copied(code, alloc, b, free, free + 3, limit.get());
            emit_step(code, alloc, b, free, step);
            begin_for(code, stat.id, free);
            emit_turns(code, alloc, b, free, stat);
            end_for(code, stat.id, free)
        }
        StatKind::LocalFunction { name: _, func } => {
            code.declare(first_at(b, stat.id), free);
            emit_function(code, alloc, b, free, func)
        }
        StatKind::Return(values) => {
            let end = emit_list(code, alloc, b, free, values.as_slice());
            let values = count_of(b, values.as_slice(), end - free);
            code.insn(Insn::Return { base: free, values })
        }
        StatKind::Break => {
            code.close(b, around.start);
            code.branch(Insn::Jump { by: 0 }, label(around.node, 1))
        }
        StatKind::Continue => {
            code.close(b, around.turn);
            code.branch(Insn::Jump { by: 0 }, label(around.node, 2))
        }
        _ => {}
    }
}
