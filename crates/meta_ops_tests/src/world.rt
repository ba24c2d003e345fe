//! Tables and texts to operate on.

ghost use Rattle.std.specs.Prelude.{◌≡◌, IfOk};
ghost use Rattle.luau_tables.specs.Own.{AreTexts, HasText};
ghost use Rattle.meta_ops_tests.specs.Ready.{IsNobodys, IsReady, MayStore};
ghost use Rattle.value_arena.specs.Arenas.{ArenaView, HasTable};

use byte_text::{Interner, StrId};
use lib_arguments::text_value;
use luau_tables::{Globals, MetaNames, set_meta, write};
use meta_ops::Outcome;
use resource::OutOfMemory;
use value_arena::Arena;
use value_model::{Builtin, Kind, Owner, RunErr, ShortOwner, TableId, Value};
use whole_num::{Stop, Whole};

/// A value, with a table by its number in a world.
#[derive(Clone, Copy)]
pub enum Operand {
    Nil,
    Boolean(bool),
    Number(i64),
    Text(&'static str),
    Table(u32),
    Function(Builtin),
}

/// What an operation is to give.
#[derive(Clone, Copy)]
pub enum Expected {
    Gives(Operand),
    Calls(Builtin, Operand),
    CallsWithTwo(Builtin, Operand, Operand),
    CallsWithThree(Builtin, Operand, Operand, Operand),
    CannotIndex(Kind, &'static str),
    Errs(RunErr),
    Stops(Stop),
}

/// An arena with an interner, and how many tables were made in it, which are nobody's. Table 0 is the metatable of strings.
#[derive(Drop)]
pub struct World {
    pub arena: Arena,
    pub names: Interner,
    pub globals: Globals,
    pub tables: u32,
}

impl World {
    /// A world with the metatable of strings alone.
    pub fn new(rt: &impl AllocGlobal) -> Result<World, OutOfMemory>
        ensures { IfOk result (λ w. IsReady w) }
    {
        let mut arena = Arena::new(rt.alloc());
        let mut names = Interner::new(rt.alloc());
        let string_meta = arena.new_table(Owner::Frozen)?;
        let meta = meta_names(&mut names);
        let globals = Globals {
            table: string_meta,
            string_meta,
            paths: Vec::new(rt.alloc()),
            hosts: Vec::new(rt.alloc()),
            meta,
        };
        Ok(World {
            arena,
            names,
            globals,
            tables: 1,
        })
    }

    /// One more table, by its number.
    pub fn table(&mut self) -> Result<u32, OutOfMemory>
        requires { IsReady self.old }
        ensures { IsReady self.new }
    {
        let id = self.arena.new_table(Owner::Frozen)?;
        if id.place < u32::MAX {
            self.tables = id.place + 1;
        }
        Ok(id.place)
    }

    /// The table of a number, and table 0 where there is none.
    pub fn id(&self, number: u32) -> TableId
        requires { IsReady self.now }
        ensures there { HasTable self.now.arena result }
        ensures whose { IsNobodys result }
        ensures value { MayStore self.now.arena (Value.Table result) }
    {
        let place = if number < self.tables { number } else { 0 };
        TableId {
            owner: ShortOwner::Frozen,
            place,
        }
    }

    // The number of a text.
    fn noted(&mut self, text: &str) -> StrId
        requires { IsReady self.old }
        ensures ready { IsReady self.new }
        ensures arena { self.new.arena ≡ self.old.arena }
    {
        note(&mut self.names, text.as_bytes())
    }

    /// A value.
    pub fn value(&mut self, operand: &Operand) -> Value
        requires { IsReady self.old }
        ensures ready { IsReady self.new }
        ensures arena { self.new.arena ≡ self.old.arena }
        ensures there { MayStore self.old.arena result }
    {
        match operand {
            Operand::Nil => Value::Nil,
            Operand::Boolean(b) => Value::Bool(*b),
            Operand::Number(n) => match Whole::new(*n) {
                Some(number) => Value::Num(number),
                None => Value::Nil,
            },
            Operand::Text(text) => Value::Str(self.noted(text)),
            Operand::Table(number) => Value::Table(self.id(*number)),
            Operand::Function(builtin) => Value::Native(*builtin),
        }
    }

    /// Two values, whose texts have numbers.
    pub fn pair(&mut self, a: &Operand, b: &Operand) -> (Value, Value)
        requires { IsReady self.old }
        ensures ready { IsReady self.new }
        ensures arena { self.new.arena ≡ self.old.arena }
        ensures first { MayStore self.old.arena result.0 }
        ensures second { MayStore self.old.arena result.1 }
        ensures text { HasText self.new.names result.0 }
        ensures other_text { HasText self.new.names result.1 }
    {
        let first = self.value(a);
        let second = self.value(b);
        (known(&self.names, first), known(&self.names, second))
    }

    /// The outcome.
    pub fn outcome(&mut self, expected: &Expected) -> Outcome
        requires { IsReady self.old }
        ensures ready { IsReady self.new }
        ensures arena { self.new.arena ≡ self.old.arena }
    {
        match expected {
            Expected::Gives(v) => Outcome::Done(self.value(v)),
            Expected::Calls(f, a) => self.call(*f, a, &Operand::Nil, &Operand::Nil, 1),
            Expected::CallsWithTwo(f, a, b) => self.call(*f, a, b, &Operand::Nil, 2),
            Expected::CallsWithThree(f, a, b, c) => self.call(*f, a, b, c, 3),
            Expected::CannotIndex(base, key) => Outcome::RunError(RunErr::IndexWithName {
                base: *base,
                key: self.noted(key),
            }),
            Expected::Errs(error) => Outcome::RunError(*error),
            Expected::Stops(stop) => Outcome::Stop(*stop),
        }
    }

    // A call.
    fn call(&mut self, f: Builtin, a: &Operand, b: &Operand, c: &Operand, count: u8) -> Outcome
        requires { IsReady self.old }
        ensures ready { IsReady self.new }
        ensures arena { self.new.arena ≡ self.old.arena }
    {
        let first = self.value(a);
        let second = self.value(b);
        let third = self.value(c);
        Outcome::CallThis {
            callee: Value::Native(f),
            args: [first, second, third],
            count,
        }
    }

    // Writes a value.
    fn put(&mut self, t: TableId, key: Value, v: Value)
        requires ready { IsReady self.old }
        requires there { HasTable self.old.arena t }
        requires whose { IsNobodys t }
        requires key { MayStore self.old.arena key }
        requires value { MayStore self.old.arena v }
        ensures { IsReady self.new }
    {
        let _ = write(&mut self.arena, t, key, v);
    }

    /// Stores a value in a table.
    pub fn store(&mut self, number: u32, key: &Operand, v: &Operand)
        requires { IsReady self.old }
        ensures { IsReady self.new }
    {
        let t = self.id(number);
        let (key, stored) = self.pair(key, v);
        self.put(t, key, stored);
    }

    /// Stores values: each row is a table, a key and a value.
    pub fn fill(&mut self, rows: &[(u32, Operand, Operand)])
        requires { IsReady self.old }
        ensures { IsReady self.new }
    {
        for row in rows {
            self.store(row.0, &row.1, &row.2);
        }
    }

    /// Gives a table a metatable.
    pub fn give(&mut self, number: u32, meta: u32)
        requires { IsReady self.old }
        ensures { IsReady self.new }
    {
        let t = self.id(number);
        let m = self.id(meta);
        let _ = set_meta(&mut self.arena, t, Some(m));
    }

    /// Freezes a table.
    pub fn freeze(&mut self, number: u32)
        requires { IsReady self.old }
        ensures { IsReady self.new }
    {
        let t = self.id(number);
        self.arena.freeze(t);
    }
}

// The value, or nil where it is a text without a number.
fn known(names: &Interner, v: Value) -> Value
    ensures text { HasText names.now result }
    ensures there { (a : ArenaView) → MayStore a v → MayStore a result }
{
    match v {
        Value::Str(id) => {
            if id.0 < names.count() {
                Value::Str(id)
            } else {
                Value::Nil
            }
        }
        other => other,
    }
}

// The names of metamethods.
fn meta_names(names: &mut Interner) -> MetaNames
    ensures { AreTexts names.old → AreTexts names.new }
{
    MetaNames {
        index: note(names, b"__index"),
        newindex: note(names, b"__newindex"),
        call: note(names, b"__call"),
        eq: note(names, b"__eq"),
        lt: note(names, b"__lt"),
        le: note(names, b"__le"),
        add: note(names, b"__add"),
        sub: note(names, b"__sub"),
        mul: note(names, b"__mul"),
        div: note(names, b"__div"),
        idiv: note(names, b"__idiv"),
        mod_: note(names, b"__mod"),
        pow: note(names, b"__pow"),
        unm: note(names, b"__unm"),
        concat: note(names, b"__concat"),
        len: note(names, b"__len"),
        iter: note(names, b"__iter"),
        tostring: note(names, b"__tostring"),
        metatable: note(names, b"__metatable"),
    }
}

// The number of a text.
fn note(names: &mut Interner, text: &[u8]) -> StrId
    ensures { AreTexts names.old → AreTexts names.new }
{
    match text_value(names, text) {
        Ok(id) => id,
        Err(OutOfMemory) => StrId::PRINT,
    }
}
