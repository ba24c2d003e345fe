//! The walk that numbers a tree.

ghost use Rattle.std.specs.Prelude.{◌≡◌, ◌+◌, IfOk};
ghost use Rattle.syntax_tree.specs.Numbers.{numbered_func};
ghost use Rattle.node_numbers.specs.Parts as spec;
ghost use Rattle.node_numbers.specs.Parts.{Gives};

use resource::OutOfMemory;
use sqlite_items::{Boxed, Items};
use std::alloc::Global;
use syntax_tree::{Arm, Expr, ExprArm, ExprKind, Field, FieldKind, FuncBody, Stat, StatKind};

/// How many nodes are numbered, and where the numbered parts are put.
#[derive(Drop)]
pub struct Numbers {
    alloc: Global,
    next: usize,
}

impl Numbers {
    /// No node is numbered yet.
    pub fn new(alloc: Global) -> Numbers
        ensures { result.next ≡ 0 }
    {
        Numbers { alloc, next: 0 }
    }

    /// How many nodes are numbered.
    pub fn count(&self) -> usize
        ensures { result ≡ self.now.next }
    {
        self.next
    }

    /// The next free number. There is no memory for as many nodes as there are numbers.
    fn take(&mut self) -> Result<usize, OutOfMemory>
        ensures { IfOk result (λ id. Gives spec.numbered_node self.old.next id self.new.next) }
    {
        let id = self.next;
        match id.checked_add(1) {
            Some(next) => {
                self.next = next;
                Ok(id)
            }
            None => Err(OutOfMemory),
        }
    }

    /// A function's body.
    #[cycle(numbers)]
    pub fn func(&mut self, func: &FuncBody) -> Result<FuncBody, OutOfMemory>
        ensures { IfOk result (λ done. Gives (numbered_func func.now) self.old.next done self.new.next) }
    {
        let id = self.take()?;
        let params = Items::from_slice(self.alloc, func.params.as_slice())?;
        let body = self.block(func.body.as_slice())?;
        Ok(FuncBody {
            id,
            at: func.at,
            line: func.line,
            params,
            vararg: func.vararg,
            body,
        })
    }

    #[cycle(numbers)]
    #[tactic(auto, using(crate::proofs::Turns::turn, crate::proofs::Turns::last))]
    fn block(&mut self, block: &[Stat]) -> Result<Items<Stat>, OutOfMemory>
        ensures { IfOk result (λ done. Gives (spec.numbered_list spec.numbered_stat block.now) self.old.next done self.new.next) }
    {
        let mut done = Items::new(self.alloc);
        for stat in block {
            done.push(self.stat(stat)?)?;
        }
        Ok(done)
    }

    #[cycle(numbers)]
    #[tactic(auto, using(crate::proofs::Turns::turn, crate::proofs::Turns::last))]
    fn list(&mut self, list: &[Expr]) -> Result<Items<Expr>, OutOfMemory>
        ensures { IfOk result (λ done. Gives (spec.numbered_list spec.numbered_expr list.now) self.old.next done self.new.next) }
    {
        let mut done = Items::new(self.alloc);
        for expr in list {
            done.push(self.expr(expr)?)?;
        }
        Ok(done)
    }

    #[cycle(numbers)]
    #[tactic(auto, using(crate::proofs::Turns::turn, crate::proofs::Turns::last))]
    fn arms(&mut self, arms: &[Arm]) -> Result<Items<Arm>, OutOfMemory>
        ensures { IfOk result (λ done. Gives (spec.numbered_list spec.numbered_arm arms.now) self.old.next done self.new.next) }
    {
        let mut done = Items::new(self.alloc);
        for arm in arms {
            done.push(self.arm(arm)?)?;
        }
        Ok(done)
    }

    #[cycle(numbers)]
    fn arm(&mut self, arm: &Arm) -> Result<Arm, OutOfMemory>
        ensures { IfOk result (λ done. Gives (spec.numbered_arm arm.now) self.old.next done self.new.next) }
    {
        Ok(Arm {
            cond: self.expr(&arm.cond)?,
            body: self.block(arm.body.as_slice())?,
        })
    }

    #[cycle(numbers)]
    #[tactic(auto, using(crate::proofs::Turns::turn, crate::proofs::Turns::last))]
    fn expr_arms(&mut self, arms: &[ExprArm]) -> Result<Items<ExprArm>, OutOfMemory>
        ensures { IfOk result (λ done. Gives (spec.numbered_list spec.numbered_expr_arm arms.now) self.old.next done self.new.next) }
    {
        let mut done = Items::new(self.alloc);
        for arm in arms {
            done.push(self.expr_arm(arm)?)?;
        }
        Ok(done)
    }

    #[cycle(numbers)]
    fn expr_arm(&mut self, arm: &ExprArm) -> Result<ExprArm, OutOfMemory>
        ensures { IfOk result (λ done. Gives (spec.numbered_expr_arm arm.now) self.old.next done self.new.next) }
    {
        Ok(ExprArm {
            cond: self.expr(&arm.cond)?,
            value: self.expr(&arm.value)?,
        })
    }

    #[cycle(numbers)]
    #[tactic(auto, using(crate::proofs::Turns::turn, crate::proofs::Turns::last))]
    fn fields(&mut self, fields: &[Field]) -> Result<Items<Field>, OutOfMemory>
        ensures { IfOk result (λ done. Gives (spec.numbered_list spec.numbered_field fields.now) self.old.next done self.new.next) }
    {
        let mut done = Items::new(self.alloc);
        for field in fields {
            done.push(self.field(field)?)?;
        }
        Ok(done)
    }

    #[cycle(numbers)]
    fn field(&mut self, field: &Field) -> Result<Field, OutOfMemory>
        ensures { IfOk result (λ done. Gives (spec.numbered_field field.now) self.old.next done self.new.next) }
    {
        let kind = match &field.kind {
            FieldKind::Item(value) => FieldKind::Item(self.expr(value)?),
            FieldKind::Named(name, value) => FieldKind::Named(*name, self.expr(value)?),
            FieldKind::Keyed(key, value) => {
                let key = self.expr(key)?;
                FieldKind::Keyed(key, self.expr(value)?)
            }
        };
        Ok(Field { at: field.at, kind })
    }

    #[cycle(numbers)]
    fn boxed(&mut self, expr: &Expr) -> Result<Boxed<Expr>, OutOfMemory>
        ensures { IfOk result (λ done. Gives (spec.numbered_expr expr.now) self.old.next done self.new.next) }
    {
        let done = self.expr(expr)?;
        Ok(Boxed::new(self.alloc, done)?)
    }

    /// A loop's step.
    #[cycle(numbers)]
    fn step(&mut self, step: &Option<Boxed<Expr>>) -> Result<Option<Boxed<Expr>>, OutOfMemory>
        ensures { IfOk result (λ done. Gives (spec.numbered_step step.now) self.old.next done self.new.next) }
    {
        match step {
            Some(step) => Ok(Some(self.boxed(step.get())?)),
            None => Ok(None),
        }
    }

    #[cycle(numbers)]
    fn stat(&mut self, stat: &Stat) -> Result<Stat, OutOfMemory>
        ensures { IfOk result (λ done. Gives (spec.numbered_stat stat.now) self.old.next done self.new.next) }
    {
        let id = self.take()?;
        let kind = self.stat_kind(&stat.kind)?;
        Ok(Stat {
            id,
            at: stat.at,
            line: stat.line,
            kind,
        })
    }

    #[cycle(numbers)]
    fn stat_kind(&mut self, kind: &StatKind) -> Result<StatKind, OutOfMemory>
        ensures { IfOk result (λ done. Gives (spec.numbered_stat_kind kind.now) self.old.next done self.new.next) }
    {
        match kind {
            StatKind::Local { names, values } => Ok(StatKind::Local {
                names: Items::from_slice(self.alloc, names.as_slice())?,
                values: self.list(values.as_slice())?,
            }),
            StatKind::Assign { targets, values } => Ok(StatKind::Assign {
                targets: self.list(targets.as_slice())?,
                values: self.list(values.as_slice())?,
            }),
            StatKind::Compound { op, target, value } => Ok(StatKind::Compound {
                op: *op,
                target: self.boxed(target.get())?,
                value: self.boxed(value.get())?,
            }),
            StatKind::Call(call) => Ok(StatKind::Call(self.expr(call)?)),
            StatKind::Do(body) => Ok(StatKind::Do(self.block(body.as_slice())?)),
            StatKind::While { cond, body } => Ok(StatKind::While {
                cond: self.boxed(cond.get())?,
                body: self.block(body.as_slice())?,
            }),
            StatKind::Repeat { body, cond } => Ok(StatKind::Repeat {
                body: self.block(body.as_slice())?,
                cond: self.boxed(cond.get())?,
            }),
            StatKind::If { arms, other } => {
                let arms = self.arms(arms.as_slice())?;
                let other = match other {
                    Some(body) => Some(self.block(body.as_slice())?),
                    None => None,
                };
                Ok(StatKind::If { arms, other })
            }
            StatKind::NumFor {
                name,
                start,
                limit,
                step,
                body,
            } => Ok(StatKind::NumFor {
                name: *name,
                start: self.boxed(start.get())?,
                limit: self.boxed(limit.get())?,
                step: self.step(step)?,
                body: self.block(body.as_slice())?,
            }),
            StatKind::GenFor {
                names,
                values,
                body,
            } => Ok(StatKind::GenFor {
                names: Items::from_slice(self.alloc, names.as_slice())?,
                values: self.list(values.as_slice())?,
                body: self.block(body.as_slice())?,
            }),
            StatKind::LocalFunction { name, func } => Ok(StatKind::LocalFunction {
                name: *name,
                func: self.func(func)?,
            }),
            StatKind::Return(values) => Ok(StatKind::Return(self.list(values.as_slice())?)),
            StatKind::Break => Ok(StatKind::Break),
            StatKind::Continue => Ok(StatKind::Continue),
        }
    }

    #[cycle(numbers)]
    fn expr(&mut self, expr: &Expr) -> Result<Expr, OutOfMemory>
        ensures { IfOk result (λ done. Gives (spec.numbered_expr expr.now) self.old.next done self.new.next) }
    {
        let id = self.take()?;
        let kind = self.expr_kind(&expr.kind)?;
        Ok(Expr {
            id,
            at: expr.at,
            line: expr.line,
            kind,
        })
    }

    #[cycle(numbers)]
    fn expr_kind(&mut self, kind: &ExprKind) -> Result<ExprKind, OutOfMemory>
        ensures { IfOk result (λ done. Gives (spec.numbered_expr_kind kind.now) self.old.next done self.new.next) }
    {
        match kind {
            ExprKind::Nil => Ok(ExprKind::Nil),
            ExprKind::True => Ok(ExprKind::True),
            ExprKind::False => Ok(ExprKind::False),
            ExprKind::Num(n) => Ok(ExprKind::Num(*n)),
            ExprKind::Str(text) => Ok(ExprKind::Str(*text)),
            ExprKind::Vararg => Ok(ExprKind::Vararg),
            ExprKind::Name(name) => Ok(ExprKind::Name(*name)),
            ExprKind::Paren(e) => Ok(ExprKind::Paren(self.boxed(e.get())?)),
            ExprKind::Unary { op, e } => Ok(ExprKind::Unary {
                op: *op,
                e: self.boxed(e.get())?,
            }),
            ExprKind::Binary { op, a, b } => Ok(ExprKind::Binary {
                op: *op,
                a: self.boxed(a.get())?,
                b: self.boxed(b.get())?,
            }),
            ExprKind::Concat(list) => Ok(ExprKind::Concat(self.list(list.as_slice())?)),
            ExprKind::Index { table, key } => Ok(ExprKind::Index {
                table: self.boxed(table.get())?,
                key: self.boxed(key.get())?,
            }),
            ExprKind::Member { table, name } => Ok(ExprKind::Member {
                table: self.boxed(table.get())?,
                name: *name,
            }),
            ExprKind::Call { callee, args } => Ok(ExprKind::Call {
                callee: self.boxed(callee.get())?,
                args: self.list(args.as_slice())?,
            }),
            ExprKind::Method { object, name, args } => Ok(ExprKind::Method {
                object: self.boxed(object.get())?,
                name: *name,
                args: self.list(args.as_slice())?,
            }),
            ExprKind::Table(fields) => Ok(ExprKind::Table(self.fields(fields.as_slice())?)),
            ExprKind::Function(func) => Ok(ExprKind::Function(self.func(func)?)),
            ExprKind::If { arms, other } => Ok(ExprKind::If {
                arms: self.expr_arms(arms.as_slice())?,
                other: self.boxed(other.get())?,
            }),
            ExprKind::Interp { texts, values } => Ok(ExprKind::Interp {
                texts: Items::from_slice(self.alloc, texts.as_slice())?,
                values: self.list(values.as_slice())?,
            }),
        }
    }
}
