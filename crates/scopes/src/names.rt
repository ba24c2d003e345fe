//! The walk that finds what each name is bound to.

ghost use Rattle.std.specs.Prelude.{◌≡◌, ◌+◌, ◌++◌, [], ◌∷◌, map, take, drop, length, slice_set, IfOk, OnOk, None, true, false};
ghost use Rattle.syntax_tree.specs.Bound.{bindings_of};
ghost use Rattle.syntax_tree.specs.Names as spec;
ghost use Rattle.syntax_tree.specs.declared.tree.FuncBody.{out-FuncBody};

use crate::captured::{captures, from, skips, too_many, variables};
use crate::scope::Scope;
use crate::used::{firsts_of, locals_of, names_of, upvalues_of};
use byte_text::StrId;
use resource::OutOfMemory;
use sqlite_items::{Boxed, Items};
use std::alloc::Global;
use std::marker::Model;
use std::mem;
use syntax_tree::{
    Arm, Bindings, Bound, Expr, ExprArm, ExprKind, Field, FieldKind, FuncBody, Leap, LocalInfo,
    Note, ScopeFault, Stat, StatKind, Visible,
};

/// What is known at a place of the text, seen as what the definition calls so.
#[derive(Drop)]
pub struct Resolver {
    alloc: Global,
    notes: Items<Note>,
    locals: Items<LocalInfo>,
    scope: Scope,
    leaps: Items<Leap>,
    faults: Items<ScopeFault>,
    func: usize,
    first: usize,
}

impl Model for Resolver {
    ghost use Rattle.syntax_tree.specs.Names.{Known};

    ghost Value = { Known };

    ghost view = { λ r. record { notes = r.notes; locals = r.locals; scope = r.scope; leaps = r.leaps; faults = r.faults; func = r.func; first = r.first } };
}

/// What is to be known again after a loop or a function.
#[derive(Drop)]
struct Outer {
    visible: usize,
    leaps: Items<Leap>,
    func: usize,
    first: usize,
}

/// The number after this one. There is no memory for as many locals as there are numbers.
fn after(number: usize) -> Result<usize, OutOfMemory>
    ensures { IfOk result (λ next. next ≡ number + 1) }
{
    match number.checked_add(1) {
        Some(next) => Ok(next),
        None => Err(OutOfMemory),
    }
}

impl Resolver {
    /// Nothing is known before the script.
    pub fn new(alloc: Global) -> Resolver
        ensures { result ≡ spec.start }
    {
        Resolver {
            alloc,
            notes: Items::new(alloc),
            locals: Items::new(alloc),
            scope: Scope::new(alloc),
            leaps: Items::new(alloc),
            faults: Items::new(alloc),
            func: 0,
            first: 0,
        }
    }

    /// A node that is no name and no function.
    fn plain(&mut self, at: usize) -> Result<(), OutOfMemory>
        ensures { OnOk result (self.new ≡ spec.plain at self.old) }
    {
        self.notes.push(Note {
            at,
            bound: None,
            target: false,
            first: self.locals.len(),
            upvalues: Items::new(self.alloc),
        })?;
        Ok(())
    }

    /// What a name is bound to.
    fn bound(&self, name: StrId) -> Bound
        ensures { result ≡ spec.bound_here name self.now }
    {
        match self.scope.look(name) {
            Some(local) => {
                if local < self.first {
                    Bound::Up(local)
                } else {
                    Bound::Local(local)
                }
            }
            None => Bound::Global,
        }
    }

    /// A name.
    fn named(&mut self, at: usize, name: StrId, target: bool) -> Result<(), OutOfMemory>
        ensures { OnOk result (self.new ≡ spec.named at name target self.old) }
    {
        let bound = self.bound(name);
        self.notes.push(Note {
            at,
            bound: Some(bound),
            target,
            first: self.locals.len(),
            upvalues: Items::new(self.alloc),
        })?;
        Ok(())
    }

    /// A local of the function around.
    fn local(&mut self, name: StrId) -> Result<(), OutOfMemory>
        ensures { OnOk result (self.new ≡ spec.local name self.old) }
    {
        self.locals.push(LocalInfo {
            name,
            func: self.func,
            captured: false,
            assigned: false,
        })?;
        Ok(())
    }

    fn locals(&mut self, names: &[StrId]) -> Result<(), OutOfMemory>
        ensures { OnOk result (self.new ≡ spec.locals names.now self.old) }
    {
        for name in names {
            self.local(*name)?;
        }
        Ok(())
    }

    /// The name of a local becomes visible.
    fn visible(&mut self, number: usize, name: StrId) -> Result<(), OutOfMemory>
        ensures { OnOk result (self.new ≡ spec.visible number name self.old) }
    {
        self.scope.push(Visible {
            name,
            local: number,
        })?;
        Ok(())
    }

    fn all_visible(&mut self, number: usize, names: &[StrId]) -> Result<(), OutOfMemory>
        ensures { OnOk result (self.new ≡ spec.all_visible number names.now self.old) }
    {
        let mut next = number;
        for name in names {
            self.visible(next, *name)?;
            next = after(next)?;
        }
        Ok(())
    }

    /// A `continue`.
    fn leap(&mut self, at: usize) -> Result<(), OutOfMemory>
        ensures { OnOk result (self.new ≡ spec.leap at self.old) }
    {
        self.leaps.push(Leap {
            at,
            before: self.locals.len(),
        })?;
        Ok(())
    }

    /// Into a loop or a function: no `continue` of it stands before it.
    fn open(&mut self) -> Outer
        ensures visible { result.visible ≡ length self.old.scope }
        ensures leaps { result.leaps ≡ self.old.leaps }
        ensures func { result.func ≡ self.old.func }
        ensures first { result.first ≡ self.old.first }
        ensures after { self.new ≡ spec.opened self.old }
    {
        Outer {
            visible: self.scope.len(),
            leaps: mem::replace(&mut self.leaps, Items::new(self.alloc)),
            func: self.func,
            first: self.first,
        }
    }

    /// Out of a loop or a function.
    fn close(&mut self, outer: Outer)
        ensures { self.new ≡ spec.outside outer.visible outer.leaps outer.func outer.first self.old }
    {
        self.scope.leave(outer.visible);
        self.leaps = outer.leaps;
        self.func = outer.func;
        self.first = outer.first;
    }

    /// Into a function, whose parameters are its first locals.
    fn enter(&mut self, func: &FuncBody) -> Result<(), OutOfMemory>
        ensures { OnOk result (self.new ≡ spec.enter (out-FuncBody func.now).id (out-FuncBody func.now).at (out-FuncBody func.now).params self.old) }
    {
        self.plain(func.at)?;
        let first = self.locals.len();
        self.func = func.id;
        self.first = first;
        self.locals(func.params.as_slice())?;
        self.all_visible(first, func.params.as_slice())
    }

    /// Notes what a function captures, whose note has this place and whose first local this number.
    fn count(&mut self, at: usize, place: usize, first: usize) -> Result<(), OutOfMemory>
        ensures { OnOk result (self.new ≡ spec.counted at place first self.old) }
    {
        let inside = from(from(self.notes.as_slice(), place), 1);
        let names = captures(self.alloc, inside, first)?;
        let upvalues = variables(self.alloc, names.as_slice())?;
        too_many(&mut self.faults, names.as_slice())?;
        if place < self.notes.len() {
            self.notes.set(
                place,
                Note {
                    at,
                    bound: None,
                    target: false,
                    first,
                    upvalues,
                },
            );
        }
        Ok(())
    }

    /// A function.
    #[cycle(names)]
    pub fn function(&mut self, func: &FuncBody) -> Result<(), OutOfMemory>
        ensures { OnOk result (self.new ≡ spec.names_func func.now self.old) }
    {
        let place = self.notes.len();
        let before = self.locals.len();
        let outer = self.open();
        self.enter(func)?;
        self.block(func.body.as_slice())?;
        self.count(func.at, place, before)?;
        self.close(outer);
        Ok(())
    }

    #[cycle(names)]
    fn block(&mut self, block: &[Stat]) -> Result<(), OutOfMemory>
        ensures { OnOk result (self.new ≡ spec.block (map spec.names_stat block.now) self.old) }
    {
        for stat in block {
            self.stat(stat)?;
        }
        Ok(())
    }

    /// A block, after which nothing is visible that was not visible before it.
    #[cycle(names)]
    fn closed(&mut self, block: &[Stat]) -> Result<(), OutOfMemory>
        ensures { OnOk result (self.new ≡ spec.closed (spec.block (map spec.names_stat block.now)) self.old) }
    {
        let visible = self.scope.len();
        self.block(block)?;
        self.scope.leave(visible);
        Ok(())
    }

    #[cycle(names)]
    fn list(&mut self, list: &[Expr], target: bool) -> Result<(), OutOfMemory>
        ensures { OnOk result (self.new ≡ spec.all target (map spec.names_expr list.now) self.old) }
    {
        for expr in list {
            self.expr(expr, target)?;
        }
        Ok(())
    }

    #[cycle(names)]
    fn arms(&mut self, arms: &[Arm]) -> Result<(), OutOfMemory>
        ensures { OnOk result (self.new ≡ spec.block (map spec.names_arm arms.now) self.old) }
    {
        for arm in arms {
            self.arm(arm)?;
        }
        Ok(())
    }

    #[cycle(names)]
    fn arm(&mut self, arm: &Arm) -> Result<(), OutOfMemory>
        ensures { OnOk result (self.new ≡ spec.names_arm arm.now self.old) }
    {
        self.expr(&arm.cond, false)?;
        self.closed(arm.body.as_slice())
    }

    #[cycle(names)]
    fn expr_arms(&mut self, arms: &[ExprArm]) -> Result<(), OutOfMemory>
        ensures { OnOk result (self.new ≡ spec.block (map spec.names_expr_arm arms.now) self.old) }
    {
        for arm in arms {
            self.expr(&arm.cond, false)?;
            self.expr(&arm.value, false)?;
        }
        Ok(())
    }

    #[cycle(names)]
    fn fields(&mut self, fields: &[Field]) -> Result<(), OutOfMemory>
        ensures { OnOk result (self.new ≡ spec.block (map spec.names_field fields.now) self.old) }
    {
        for field in fields {
            self.field(field)?;
        }
        Ok(())
    }

    #[cycle(names)]
    fn field(&mut self, field: &Field) -> Result<(), OutOfMemory>
        ensures { OnOk result (self.new ≡ spec.names_field field.now self.old) }
    {
        match &field.kind {
            FieldKind::Item(value) => self.expr(value, false),
            FieldKind::Named(_, value) => self.expr(value, false),
            FieldKind::Keyed(key, value) => {
                self.expr(key, false)?;
                self.expr(value, false)
            }
        }
    }

    #[cycle(names)]
    fn step(&mut self, step: &Option<Boxed<Expr>>) -> Result<(), OutOfMemory>
        ensures { OnOk result (self.new ≡ spec.names_step step.now self.old) }
    {
        match step {
            Some(step) => self.expr(step.get(), false),
            None => Ok(()),
        }
    }

    /// The condition of a `repeat`, before which its body stands.
    #[cycle(names)]
    fn until(&mut self, cond: &Expr) -> Result<(), OutOfMemory>
        ensures { OnOk result (self.new ≡ spec.until (spec.names_expr cond.now false) self.old) }
    {
        let place = self.notes.len();
        let below = self.locals.len();
        self.expr(cond, false)?;
        let condition = from(self.notes.as_slice(), place);
        skips(&mut self.faults, below, condition, self.leaps.as_slice())
    }

    #[cycle(names)]
    fn stat(&mut self, stat: &Stat) -> Result<(), OutOfMemory>
        ensures { OnOk result (self.new ≡ spec.names_stat stat.now self.old) }
    {
        self.plain(stat.at)?;
        self.stat_parts(&stat.kind, stat.at)
    }

    /// The parts of a statement.
    #[cycle(names)]
    fn stat_parts(&mut self, kind: &StatKind, at: usize) -> Result<(), OutOfMemory>
        ensures { OnOk result (self.new ≡ spec.names_stat_kind kind.now at self.old) }
    {
        match kind {
            StatKind::Local {
                names,
                values: initial,
            } => {
                let number = self.locals.len();
                self.locals(names.as_slice())?;
                self.list(initial.as_slice(), false)?;
                self.all_visible(number, names.as_slice())
            }
            StatKind::Assign { targets, values } => {
                self.list(targets.as_slice(), true)?;
                self.list(values.as_slice(), false)
            }
            StatKind::Compound {
                op: _,
                target,
                value,
            } => {
                self.expr(target.get(), true)?;
                self.expr(value.get(), false)
            }
            StatKind::Call(call) => self.expr(call, false),
            StatKind::Do(body) => self.closed(body.as_slice()),
            StatKind::LocalFunction { name, func } => {
                let number = self.locals.len();
                self.local(*name)?;
                self.visible(number, *name)?;
                self.function(func)
            }
            StatKind::If { arms, other } => {
                self.arms(arms.as_slice())?;
                match other {
                    Some(body) => self.closed(body.as_slice()),
                    None => Ok(()),
                }
            }
            StatKind::Return(values) => self.list(values.as_slice(), false),
            StatKind::Break => Ok(()),
            StatKind::Continue => self.leap(at),
            StatKind::While { cond, body } => {
                let outer = self.open();
                self.expr(cond.get(), false)?;
                self.block(body.as_slice())?;
                self.close(outer);
                Ok(())
            }
            StatKind::Repeat {
                body: repeated,
                cond,
            } => {
                let outer = self.open();
                self.block(repeated.as_slice())?;
                self.until(cond.get())?;
                self.close(outer);
                Ok(())
            }
            StatKind::NumFor {
                name,
                start,
                limit,
                step,
                body,
            } => {
                let outer = self.open();
                let number = self.locals.len();
                self.local(*name)?;
                self.expr(start.get(), false)?;
                self.expr(limit.get(), false)?;
                self.step(step)?;
                self.visible(number, *name)?;
                self.block(body.as_slice())?;
                self.close(outer);
                Ok(())
            }
            StatKind::GenFor {
                names,
                values,
                body,
            } => {
                let outer = self.open();
                let number = self.locals.len();
                self.locals(names.as_slice())?;
                self.list(values.as_slice(), false)?;
                self.all_visible(number, names.as_slice())?;
                self.block(body.as_slice())?;
                self.close(outer);
                Ok(())
            }
        }
    }

    /// An expression, and whether an assignment sets it.
    #[cycle(names)]
    fn expr(&mut self, expr: &Expr, target: bool) -> Result<(), OutOfMemory>
        ensures { OnOk result (self.new ≡ spec.names_expr expr.now target self.old) }
    {
        if let ExprKind::Name(name) = &expr.kind {
            return self.named(expr.at, *name, target);
        }
        self.plain(expr.at)?;
        self.parts(&expr.kind)
    }

    /// The parts of an expression.
    #[cycle(names)]
    fn parts(&mut self, kind: &ExprKind) -> Result<(), OutOfMemory>
        ensures { OnOk result (self.new ≡ (spec.names_kind kind.now).parts self.old) }
    {
        match kind {
            ExprKind::Nil
            | ExprKind::True
            | ExprKind::False
            | ExprKind::Num(_)
            | ExprKind::Str(_)
            | ExprKind::Vararg
            | ExprKind::Name(_) => Ok(()),
            ExprKind::Paren(e) => self.expr(e.get(), false),
            ExprKind::Unary { op: _, e } => self.expr(e.get(), false),
            ExprKind::Binary { op: _, a, b } => {
                self.expr(a.get(), false)?;
                self.expr(b.get(), false)
            }
            ExprKind::Concat(list) => self.list(list.as_slice(), false),
            ExprKind::Index { table, key } => {
                self.expr(table.get(), false)?;
                self.expr(key.get(), false)
            }
            ExprKind::Member { table, name: _ } => self.expr(table.get(), false),
            ExprKind::Call { callee, args } => {
                self.expr(callee.get(), false)?;
                self.list(args.as_slice(), false)
            }
            ExprKind::Method {
                object,
                name: _,
                args,
            } => {
                self.expr(object.get(), false)?;
                self.list(args.as_slice(), false)
            }
            ExprKind::Table(fields) => self.fields(fields.as_slice()),
            ExprKind::Function(func) => self.function(func),
            ExprKind::If { arms, other } => {
                self.expr_arms(arms.as_slice())?;
                self.expr(other.get(), false)
            }
            ExprKind::Interp { texts: _, values } => self.list(values.as_slice(), false),
        }
    }

    /// The bindings of what was noted, and the faults.
    pub fn finish(self) -> Result<(Bindings, Items<ScopeFault>), OutOfMemory>
        ensures { IfOk result (λ made. (made.0 ≡ bindings_of self) × (made.1 ≡ self.faults)) }
    {
        let Resolver {
            alloc,
            notes,
            locals,
            scope: _,
            leaps: _,
            faults,
            func: _,
            first: _,
        } = self;
        let names = names_of(alloc, notes.as_slice())?;
        let upvalues = upvalues_of(alloc, notes.as_slice())?;
        let firsts = firsts_of(alloc, notes.as_slice())?;
        let locals = locals_of(alloc, locals.as_slice(), notes.as_slice())?;
        let bindings = Bindings {
            names,
            locals,
            upvalues,
            firsts,
        };
        Ok((bindings, faults))
    }
}
