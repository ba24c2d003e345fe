//! What the code of a node asks of the tree and the bindings, and code without parts of the tree.

ghost use Rattle.std.specs.Prelude.{◌≡◌, ◌+◌, ◌-◌, ◌≤◌, map, length};
ghost use Rattle.syntax_tree.specs.Need.{need_stat};
ghost use Rattle.op_words.specs.declared.insn.Insn.TheVariants as insn;
ghost use Rattle.emit_expr.specs.Puts.{Went};
ghost use Rattle.node_code.specs.Code as spec;
ghost use Rattle.node_code.specs.Lists as lists;
ghost use Rattle.node_code.specs.Conditions as conditions;

use emit_expr::{Draft, Emitter, Loop, Mark, bound_at, first_at, label, own_of, takes_left};
use op_words::Insn;
use std::alloc::Global;
use std::mem;
use syntax_tree::{BinOp, Bindings, Expr, ExprKind, Stat, StatKind};
use whole_num::Whole;

/// The results that are wanted of an expression of a list, by how many stand behind it.
pub fn results_for(rest: usize) -> u8
    ensures { result ≡ lists.results_for rest }
{
    if rest == 0 { 0 } else { 2 }
}

/// The register behind a value, if one is wanted.
pub fn behind(at: u8, count: usize) -> u8
    requires { at ≤ 250 }
    ensures { result ≡ lists.behind at count }
{
    if count == 0 { at } else { at + 1 }
}

/// Whether an expression may give any number of values.
pub fn is_many(b: &Bindings, e: &Expr) -> bool
    ensures { result ≡ (spec.expr_code b.now e.now).many }
{
    match &e.kind {
        ExprKind::Vararg | ExprKind::Call { .. } => true,
        _ => false,
    }
}

/// The local whose register has an expression's value, if there is one.
pub fn own_local(b: &Bindings, e: &Expr) -> Option<usize>
    ensures { result ≡ (spec.expr_code b.now e.now).own }
{
    match &e.kind {
        ExprKind::Name(_) => own_of(b, bound_at(b, e.id)),
        ExprKind::Paren(inner) => own_local(b, inner.get()),
        _ => None,
    }
}

/// The number that an expression is written as.
pub fn number_of(b: &Bindings, e: &Expr) -> Option<Whole>
    ensures { result ≡ (spec.expr_code b.now e.now).number }
{
    match &e.kind {
        ExprKind::Num(n) => Some(*n),
        ExprKind::Paren(inner) => number_of(b, inner.get()),
        _ => None,
    }
}

/// A number that an instruction may have as its right operand.
pub fn near_number(code: &Emitter, b: &Bindings, e: &Expr) -> Option<Whole>
    ensures number { result ≡ conditions.near_right (spec.expr_code b.now e.now) code.now }
    ensures near { conditions.IsNear result code.now }
{
    match number_of(b, e) {
        Some(n) => { if code.is_near(n) { Some(n) } else { None } }
        None => None,
    }
}

/// A number that an instruction may have as its left operand.
pub fn left_number(code: &Emitter, b: &Bindings, op: BinOp, e: &Expr) -> Option<Whole>
    ensures number { result ≡ conditions.left_number op (spec.expr_code b.now e.now) code.now }
    ensures near { conditions.IsNear result code.now }
{
    if takes_left(op) {
        near_number(code, b, e)
    } else {
        None
    }
}

/// The node of an expression.
pub fn node_of(b: &Bindings, e: &Expr) -> usize
    ensures { result ≡ (spec.expr_code b.now e.now).id }
{
    e.id
}

/// One more than the number of values of a list, or 0 where the last expression gives all its values.
pub fn count_of(b: &Bindings, list: &[Expr], values: u8) -> u8
    requires values { values ≡ length list.now }
    requires room { values ≤ 251 }
    ensures { result ≡ lists.count_of (map (spec.expr_code b.now) list.now) }
{
    let mut many = false;
    for e in list {
        many = is_many(b, e);
    }
    if many { 0 } else { values + 1 }
}

/// The instruction that joins the values of the registers from one on, up to `end`.
pub fn concat_insn(b: &Bindings, list: &[Expr], to: u8, end: u8) -> Insn
    requires { end ≡ to + length list.now }
    ensures { result ≡ conditions.concat_insn (map (spec.expr_code b.now) list.now) to }
{
    Insn::Concat {
        to,
        first: to,
        last: end.saturating_sub(1),
    }
}

/// How many expressions are in a list.
pub fn count(b: &Bindings, list: &[Expr]) -> usize
    ensures mapped { result ≡ length (map (spec.expr_code b.now) list.now) }
    ensures plain { result ≡ length list.now }
{
    list.len()
}

/// How many locals a statement declares.
pub fn declares(b: &Bindings, stat: &Stat) -> u8
    requires { (need_stat stat.now).need ≤ 250 }
    ensures code { result ≡ (spec.stat_code b.now stat.now).declares }
    ensures need { result ≡ (need_stat stat.now).declares }
    ensures below { result ≤ (need_stat stat.now).need }
{
    match &stat.kind {
        StatKind::Local { names, values: _ } => names.len() as u8,
        StatKind::LocalFunction { name: _, func: _ } => 1,
        _ => 0,
    }
}

/// Whether something of an `if` stands behind an arm.
pub fn has_more(other: bool, rest: usize) -> bool
    ensures { result ≡ spec.has_more other rest }
{
    if rest == 0 { other } else { true }
}

/// No loop is around.
pub fn no_loop() -> Loop
    ensures { result ≡ spec.no_loop }
{
    let mark = Mark {
        variables: 0,
        free: 0,
    };
    Loop {
        node: 0,
        start: mark,
        turn: mark,
    }
}

/// A loop whose body begins here.
pub fn loop_at(node: usize, mark: Mark) -> Loop
    ensures { result ≡ spec.loop_at node mark }
{
    Loop {
        node,
        start: mark,
        turn: mark,
    }
}

/// The same loop for a statement of its body.
pub fn in_turn(mark: Mark, around: Loop) -> Loop
    ensures { result ≡ spec.in_turn mark around }
{
    Loop {
        node: around.node,
        start: around.start,
        turn: mark,
    }
}

/// Nil into so many registers.
pub fn emit_nils(code: &mut Emitter, to: u8, count: usize)
    requires { to + count ≤ 251 }
    ensures { Went code.old code.new (lists.nils to count code.old) }
{
    let mut at = to;
    let mut left = count;
    while left > 0 {
        left -= 1;
        code.insn(Insn::LoadNil { to: at });
        at += 1;
    }
}

/// A register's value is assigned to a target.
fn assign(code: &mut Emitter, b: &Bindings, from: u8, target: &Expr)
    ensures { Went code.old code.new (lists.assign_to b.now (spec.expr_code b.now target.now).target from code.old) }
{
    match &target.kind {
        ExprKind::Name(name) => code.assign_name(b, bound_at(b, target.id), *name, from),
        _ => {}
    }
}

/// Values that stand in registers from one on are assigned to targets from left to right.
pub fn assign_all(code: &mut Emitter, b: &Bindings, from: u8, targets: &[Expr])
    requires { from + length targets.now ≤ 250 }
    ensures { Went code.old code.new (lists.assign_all b.now (map (spec.expr_code b.now) targets.now) from code.old) }
{
    let mut at = from;
    for target in targets {
        assign(code, b, at, target);
        at += 1;
    }
}

/// A function that takes any number of arguments says so first.
fn prepare(code: &mut Emitter, vararg: bool, params: u8)
    ensures { Went code.old code.new (spec.prepared vararg params code.old) }
{
    if vararg {
        code.insn(Insn::PrepVarargs { parameters: params })
    }
}

/// Behind a block that is not the last, a jump behind them all.
fn skip_rest(code: &mut Emitter, more: bool, node: usize)
    ensures { Went code.old code.new (spec.skip_rest more node code.old) }
{
    if more {
        code.branch(Insn::Jump { by: 0 }, label(node, 0))
    }
}

/// The end of an arm of an `if`, where the next begins.
pub fn end_arm(code: &mut Emitter, more: bool, node: usize, next: usize)
    ensures { Went code.old code.new (spec.arm_end more node next code.old) }
{
    skip_rest(code, more, node);
    code.place(next, 1)
}

/// The end of an arm of an `if` expression.
pub fn end_choice(code: &mut Emitter, node: usize, next: usize)
    ensures { Went code.old code.new (conditions.choice_end node next code.old) }
{
    code.branch(Insn::Jump { by: 0 }, label(node, 0));
    code.place(next, 1)
}

/// True where the jump of a comparison was taken, else false.
pub fn answer(code: &mut Emitter, node: usize, to: u8)
    ensures { Went code.old code.new (conditions.answer_run node to code.old) }
{
    code.insn(Insn::LoadB {
        to,
        value: 0,
        skip: 1,
    });
    code.place(node, 0);
    code.insn(Insn::LoadB {
        to,
        value: 1,
        skip: 0,
    })
}

/// The end of a `while`.
pub fn end_while(code: &mut Emitter, node: usize)
    ensures { Went code.old code.new (spec.while_end node code.old) }
{
    code.branch(Insn::JumpBack { by: 0 }, label(node, 0));
    code.place(node, 1)
}

/// The end of a `repeat`, behind its condition.
pub fn end_repeat(code: &mut Emitter, b: &Bindings, mark: Mark, node: usize)
    ensures { Went code.old code.new (spec.repeat_end b.now mark node code.old) }
{
    code.close(b, mark);
    code.branch(Insn::JumpBack { by: 0 }, label(node, 0));
    code.place(node, 3);
    code.end_scope(b, mark);
    code.place(node, 1)
}

/// The beginning of a numeric `for`, behind its bounds.
pub fn begin_for(code: &mut Emitter, node: usize, free: u8)
    ensures { Went code.old code.new (spec.for_begin node free code.old) }
{
    code.branch(Insn::ForNPrep { base: free, by: 0 }, label(node, 1));
    code.place(node, 0)
}

/// The end of a numeric `for`.
pub fn end_for(code: &mut Emitter, node: usize, free: u8)
    ensures { Went code.old code.new (spec.for_end node free code.old) }
{
    code.branch(Insn::ForNLoop { base: free, by: 0 }, label(node, 0));
    code.place(node, 1)
}

/// The index of a numeric `for` is copied into its variable.
pub fn copy_index(code: &mut Emitter, b: &Bindings, node: usize, free: u8)
    requires { free ≤ 246 }
    ensures { Went code.old code.new (spec.index_run b.now node free code.old) }
{
    code.insn(Insn::Move {
        to: free + 3,
        from: free + 2,
    });
    code.declare(first_at(b, node), free + 3)
}

/// Into a function, whose parameters are in scope; answers the function around it.
#[tactic(auto, unfolding(emit_expr::specs::Puts::with_draft))]
pub fn begin_function(
    code: &mut Emitter,
    alloc: Global,
    b: &Bindings,
    node: usize,
    params: usize,
    vararg: bool,
) -> Draft
    requires { params ≤ 250 }
    ensures outer { result ≡ code.old.draft }
    ensures code { Went code.old code.new (spec.func_begin b.now node params vararg code.old) }
{
    let outer = mem::replace(&mut code.draft, Draft::new(alloc, node));
    prepare(code, vararg, params as u8);
    code.declare_all(first_at(b, node), 0, params);
    outer
}

/// Out of a function, which returns nothing where its text ends.
pub fn end_function(
    code: &mut Emitter,
    b: &Bindings,
    params: usize,
    vararg: bool,
    to: u8,
    outer: Draft,
)
    ensures { Went code.old code.new (spec.func_end b.now params vararg to outer code.old) }
{
    code.insn(Insn::Return { base: 0, values: 1 });
    code.close_over(b, params, vararg, to, outer)
}
