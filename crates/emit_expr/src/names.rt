//! The code of names: a local of the function, one of a function around it, or a global.

ghost use Rattle.std.specs.Prelude.{◌≡◌, ◌+◌, ◌≤◌, drop};
ghost use Rattle.emit_expr.specs.Names as spec;
ghost use Rattle.emit_expr.specs.Puts.{Went};

use crate::draft::{Draft, Emitter, Mark, Prototype, Variable, long, narrow, short};
use byte_text::StrId;
use op_words::Insn;
use std::mem;
use syntax_tree::{Bindings, Bound};

/// What a name is bound to.
pub fn bound_at(b: &Bindings, node: usize) -> Bound
    ensures { result ≡ spec.bound_at b.now node }
{
    match b.names.get(node) {
        Some(Some(bound)) => *bound,
        _ => Bound::Global,
    }
}

/// The number of the first local that a node declares.
pub fn first_at(b: &Bindings, node: usize) -> usize
    ensures { result ≡ spec.first_at b.now node }
{
    match b.firsts.get(node) {
        Some(number) => *number,
        None => 0,
    }
}

/// Whether a function further inside captures the local.
pub fn is_captured(b: &Bindings, number: usize) -> bool
    ensures { result ≡ spec.is_captured b.now number }
{
    match b.locals.get(number) {
        Some(local) => local.captured,
        None => true,
    }
}

/// The local of the function that a name stands for, where nothing captures it.
pub fn own_of(b: &Bindings, bound: Bound) -> Option<usize>
    ensures { result ≡ spec.own_of b.now bound }
{
    match bound {
        Bound::Local(number) => {
            if is_captured(b, number) {
                None
            } else {
                Some(number)
            }
        }
        Bound::Up(_) | Bound::Global => None,
    }
}

// The register of a variable in scope.
fn register_in(number: usize, variables: &[Variable]) -> Option<u8>
    ensures { result ≡ spec.register_in number variables.now }
{
    for v in variables {
        if v.number == number {
            return Some(v.register);
        }
    }
    None
}

fn place_in(number: usize, list: &[usize]) -> usize
    ensures { result ≡ spec.place_in number list.now }
{
    for (i, x) in list.iter().enumerate() {
        if *x == number {
            return i;
        }
    }
    list.len()
}

fn upvalue_of(b: &Bindings, func: usize, number: usize) -> u8
    ensures { result ≡ spec.upvalue_in b.now func number }
{
    match b.upvalues.get(func) {
        Some(list) => narrow(place_in(number, list.as_slice())),
        None => 0,
    }
}

fn any_captured(b: &Bindings, variables: &[Variable]) -> bool
    ensures { result ≡ spec.any_captured b.now variables.now }
{
    for v in variables {
        if is_captured(b, v.number) {
            return true;
        }
    }
    false
}

impl Emitter {
    /// The register of a variable in scope; 0 where there is none.
    pub fn register_of(&self, number: usize) -> u8
        ensures { result ≡ spec.register_of number self.now }
    {
        match register_in(number, self.draft.variables.as_slice()) {
            Some(register) => register,
            None => 0,
        }
    }

    /// The value of a name, into a register.
    pub fn read_name(&mut self, b: &Bindings, bound: Bound, name: StrId, to: u8)
        ensures { Went self.old self.new (spec.name_run b.now bound name to self.old) }
    {
        match bound {
            Bound::Local(number) => {
                let from = self.register_of(number);
                self.insn(Insn::Move { to, from })
            }
            Bound::Up(number) => {
                let upvalue = upvalue_of(b, self.draft.func, number);
                self.insn(Insn::GetUpvalue { to, upvalue })
            }
            Bound::Global => {
                let constant = long(self.text(name));
                self.insn(Insn::GetGlobal { to, constant })
            }
        }
    }

    /// A register's value is assigned to a name.
    pub fn assign_name(&mut self, b: &Bindings, bound: Bound, name: StrId, from: u8)
        ensures { Went self.old self.new (spec.assign_run b.now bound name from self.old) }
    {
        match bound {
            Bound::Local(number) => {
                let to = self.register_of(number);
                self.insn(Insn::Move { to, from })
            }
            Bound::Up(number) => {
                let upvalue = upvalue_of(b, self.draft.func, number);
                self.insn(Insn::SetUpvalue { from, upvalue })
            }
            Bound::Global => {
                let constant = long(self.text(name));
                self.insn(Insn::SetGlobal { from, constant })
            }
        }
    }

    /// So many locals come in scope, in registers one behind the other.
    pub fn declare_all(&mut self, number: usize, register: u8, count: usize)
        requires { register + count ≤ 250 }
        ensures { Went self.old self.new (spec.declare_all number register count self.old) }
    {
        let mut number = number;
        let mut at = register;
        let mut left = count;
        while left > 0 {
            left -= 1;
            self.declare(number, at);
            number = number.saturating_add(1);
            at += 1;
        }
    }

    /// The variables that came in scope since are closed, if a function captures one of them.
    pub fn close(&mut self, b: &Bindings, mark: Mark)
        ensures { Went self.old self.new (spec.close_run b.now mark self.old) }
    {
        let all = self.draft.variables.as_slice();
        let since = &all[mark.variables.min(all.len())..];
        if any_captured(b, since) {
            self.insn(Insn::CloseUpvalues { from: mark.free })
        }
    }

    /// The variables that came in scope since are closed and forgotten.
    pub fn end_scope(&mut self, b: &Bindings, mark: Mark)
        ensures { Went self.old self.new (spec.ended b.now mark self.old) }
    {
        self.close(b, mark);
        self.forget(mark.variables)
    }

    fn capture(&mut self, b: &Bindings, number: usize)
        ensures { Went self.old self.new (spec.capture b.now number self.old) }
    {
        match register_in(number, self.draft.variables.as_slice()) {
            Some(from) => self.insn(Insn::Capture { kind: 1, from }),
            None => {
                let from = upvalue_of(b, self.draft.func, number);
                self.insn(Insn::Capture { kind: 2, from })
            }
        }
    }

    fn capture_all(&mut self, b: &Bindings, numbers: &[usize])
        ensures { Went self.old self.new (spec.captures b.now numbers.now self.old) }
    {
        for number in numbers {
            self.capture(b, *number);
        }
    }

    fn capture_for(&mut self, b: &Bindings, func: usize)
        ensures { Went self.old self.new (spec.captures b.now (spec.upvalues_at b.now func) self.old) }
    {
        if let Some(numbers) = b.upvalues.get(func) {
            self.capture_all(b, numbers.as_slice())
        }
    }

    /// The function that was emitted is done, and its closure is made in the one around it.
    #[tactic(auto, unfolding(crate::specs::Puts::with_draft))]
    pub fn close_over(&mut self, b: &Bindings, params: usize, vararg: bool, to: u8, outer: Draft)
        ensures { Went self.old self.new (spec.close_over b.now params vararg to outer self.old) }
    {
        let child = short(outer.children.len());
        let number = self.protos.len();
        let inner = mem::replace(&mut self.draft, outer);
        self.insn(Insn::NewClosure { to, child });
        self.add_child(number);
        self.capture_for(b, inner.func);
        self.add_prototype(Prototype {
            func: inner.func,
            params,
            vararg,
            items: inner.items,
            constants: inner.constants,
            children: inner.children,
        })
    }
}
