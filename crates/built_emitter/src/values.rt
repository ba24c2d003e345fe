//! The code of values.

ghost use Rattle.std.specs.Prelude.{◌≡◌, ◌+◌, ◌-◌, ◌^◌, ◌<◌, ◌≤◌, length, OnOk, Some, IsSome, IfSome, IsTrue};
ghost use Rattle.built_emitter.specs.Names.{register_of};
ghost use Rattle.built_emitter.specs.Operations.{operation};
ghost use Rattle.built_emitter.specs.Form.{IsValue};
ghost use Rattle.syntax_tree.specs.Limits.{most_registers};
ghost use Rattle.built_emitter.specs.Size.{expr_words};
ghost use Rattle.built_emitter.specs.Emitted.{EmitsNumber, EmitsValue};
ghost use Rattle.built_emitter.specs.Unbuilt.{uses_of};
ghost use Rattle.built_emitter.specs.Standing.{names_of, register_bound, StandsAt};
ghost use Rattle.scope_laws.specs.Sight.{expr};
ghost use Rattle.byte_text.specs.declared.fixed.StrId.{StrId};
ghost use Rattle.syntax_tree.specs.declared.tree.ExprKind as ExprKind;

use crate::bound::bound_at;
use crate::draft::{Draft, add_number, put};
use crate::scope::Scope;
use code_link::Item;
use op_words::Insn;
use resource::OutOfMemory;
use syntax_tree::{BinOp, Bindings, Bound, Expr, ExprKind};
use whole_num::Whole;

// The number as one of 16 bits, if it is small enough.
fn small(n: Whole) -> Option<i16>
    ensures { IfSome result (λ value. value ≡ n) }
{
    i16::try_from(n.get()).ok()
}

// Leaves a number in register `to`.
#[tactic(auto, using(crate::proofs::EmittedValues::emits_small, crate::proofs::EmittedValues::emits_large))]
fn emit_number(code: &mut Draft, to: u8, n: Whole) -> Result<(), OutOfMemory>
    requires { length code.old.constants.items < 2 ^ 15 }
    ensures { OnOk result (EmitsNumber to n code.old code.new) }
{
    if let Some(value) = small(n) {
        put(code, Item::Insn(Insn::LoadN { to, value }))
    } else {
        let constant = add_number(code, n)?;
        put(code, Item::Insn(Insn::LoadK { to, constant }))
    }
}

// The register of what a name is bound to.
fn register_bound(scope: &Scope, bound: Option<Bound>) -> Option<usize>
    ensures register { result ≡ register_bound scope.now bound }
    ensures within { IfSome result (λ r. r < length (names_of scope.now)) }
{
    match bound {
        Some(Bound::Local(local)) => scope.register_of(local),
        Some(Bound::Up(_)) | Some(Bound::Global) | None => None,
    }
}

/// The register of the local that an expression names.
pub fn register_of(scope: &Scope, bindings: &Bindings, e: &Expr) -> Option<usize>
    requires { StandsAt bindings.now scope.now (expr e.now) }
    ensures register { (x : StrId) → e.now.kind ≡ ExprKind.Name x → result ≡ register_of (names_of scope.now) x }
    ensures declared { IsTrue (uses_of bindings.now e.now).local → IsSome result }
    ensures within { IfSome result (λ r. r < length (names_of scope.now)) }
{
    register_bound(scope, bound_at(bindings, e.id))
}

/// Leaves the value of an expression in register `to`, and changes only those from there on.
#[tactic(auto, using(crate::proofs::EmittedValues::emits_of_number, crate::proofs::EmittedValues::emits_of_result, crate::proofs::EmittedValues::known_operation))]
pub fn emit_value(
    code: &mut Draft,
    scope: &Scope,
    bindings: &Bindings,
    to: u8,
    e: &Expr,
) -> Result<(), OutOfMemory>
    requires form { IsValue bindings.now (most_registers - to) e.now }
    requires stands { StandsAt bindings.now scope.now (expr e.now) }
    requires above { length (names_of scope.now) ≤ to }
    requires room { length code.old.constants.items + expr_words e.now ≤ 2 ^ 15 }
    ensures { OnOk result (EmitsValue (names_of scope.now) to e.now code.old code.new) }
{
    match &e.kind {
        ExprKind::Num(n) => emit_number(code, to, *n),
        ExprKind::Name(_) => {
            let from = register_of(scope, bindings, e).unwrap() as u8;
            put(code, Item::Insn(Insn::Move { to, from }))
        }
        ExprKind::Binary { op, a, b } => {
            emit_value(code, scope, bindings, to, a.get())?;
            emit_value(code, scope, bindings, to + 1, b.get())?;
            put(code, Item::Insn(operation(*op, to)))
        }
        _ => unreachable!(),
    }
}

// The instruction of an operation on register `to` and the one behind it.
fn operation(op: BinOp, to: u8) -> Insn
    requires of_the_form { IsSome (operation op 0 0 0) }
    requires room { to < 255 }
    ensures { operation op to to (to + 1) ≡ Some result }
{
    let (left, right) = (to, to + 1);
    match op {
        BinOp::Add => Insn::Add { to, left, right },
        BinOp::Sub => Insn::Sub { to, left, right },
        BinOp::Mul => Insn::Mul { to, left, right },
        _ => unreachable!(),
    }
}
