//! What is being emitted.

ghost use Rattle.std.specs.Prelude.{◌≡◌, ◌+◌, ◌*◌, ◌^◌, min, length, [], ◌∷◌, ◌++◌, take, OnOk};
ghost use Rattle.emit_expr.specs.Puts as spec;
ghost use Rattle.emit_expr.specs.Puts.{Went};

use byte_text::StrId;
use code_link::Item;
use op_words::{Const, Insn};
use resource::OutOfMemory;
use sqlite_items::Items;
use std::alloc::Global;
use std::marker::Model;

/// A variable in scope: the number of its local, and its register.
#[derive(Clone, Copy)]
pub struct Variable {
    pub number: usize,
    pub register: u8,
}

/// The variables in scope, those that came first at the front.
#[derive(Drop)]
pub struct Variables {
    list: Vec<Variable>,
}

impl Model for Variables {
    ghost use Rattle.std.specs.Prelude.{List};
    ghost use Rattle.emit_expr.specs.declared.draft.Variable.{Variable};

    ghost Value = { List Variable };

    ghost view = { λ v. v.list.items };
}

impl Variables {
    pub fn new(alloc: Global) -> Variables
        ensures { result ≡ [] }
    {
        Variables {
            list: Vec::new(alloc),
        }
    }

    pub fn as_slice(&self) -> &[Variable]
        ensures { result.now ≡ self.now }
    {
        self.list.as_slice()
    }

    /// How many variables are in scope.
    pub fn len(&self) -> usize
        ensures { result ≡ length self.now }
    {
        self.list.len()
    }

    fn push(&mut self, variable: Variable) -> Result<(), OutOfMemory>
        ensures { OnOk result (self.new ≡ self.old ++ variable ∷ []) }
    {
        self.list.push(variable)?;
        Ok(())
    }

    fn forget(&mut self, left: usize)
        ensures { self.new ≡ take left self.old }
    {
        self.list.truncate(left);
    }
}

/// The place of a scope in a function: how many variables were in scope, and the first register that was free.
#[derive(Clone, Copy)]
pub struct Mark {
    pub variables: usize,
    pub free: u8,
}

/// The innermost loop around a statement: its node, and the marks to which `break` and `continue` go back.
#[derive(Clone, Copy)]
pub struct Loop {
    pub node: usize,
    pub start: Mark,
    pub turn: Mark,
}

/// The function that is being emitted: the node of its body, its code with labels, its constants, the variables in scope, and
/// the numbers of the prototypes of the functions in it.
#[derive(Drop)]
pub struct Draft {
    pub func: usize,
    pub items: Items<Item>,
    pub constants: Items<Const>,
    pub variables: Variables,
    pub children: Items<u32>,
}

impl Draft {
    /// A function of which nothing is emitted.
    pub fn new(alloc: Global, func: usize) -> Draft
        ensures { result ≡ spec.blank func }
    {
        Draft {
            func,
            items: Items::new(alloc),
            constants: Items::new(alloc),
            variables: Variables::new(alloc),
            children: Items::new(alloc),
        }
    }
}

/// A function whose code is done but for the distances of its jumps.
#[derive(Drop)]
pub struct Prototype {
    pub func: usize,
    pub params: usize,
    pub vararg: bool,
    pub items: Items<Item>,
    pub constants: Items<Const>,
    pub children: Items<u32>,
}

/// The function that is being emitted, those that are done, and the chunk's strings.
#[derive(Drop)]
pub struct Emitter {
    pub draft: Draft,
    pub protos: Items<Prototype>,
    pub strings: Items<StrId>,
    /// Whether memory ran out at some time: then what was emitted is of no use.
    pub lost: bool,
}

/// A number as one of 8 bits; 255 where it is greater.
pub fn narrow(n: usize) -> u8
    ensures { result ≡ spec.narrow n }
{
    n.min(255) as u8
}

/// A number as one of 15 bits; 32,767 where it is greater.
pub fn short(n: usize) -> i16
    ensures { result ≡ spec.short n }
{
    n.min(32767) as i16
}

/// A number as one of 32 bits; the greatest of them where it is greater.
pub fn long(n: usize) -> u32
    ensures { result ≡ spec.long n }
{
    n.min(4294967295) as u32
}

// Where a constant first stands in a list; the length where it does not.
fn place_of(list: &[Const], constant: &Const) -> usize
    ensures { result ≡ spec.place_of constant.now list.now }
{
    for (i, x) in list.iter().enumerate() {
        if x == constant {
            return i;
        }
    }
    list.len()
}

fn place_of_text(list: &[StrId], text: StrId) -> usize
    ensures { result ≡ spec.place_of_text text list.now }
{
    for (i, x) in list.iter().enumerate() {
        if x.0 == text.0 {
            return i;
        }
    }
    list.len()
}

impl Emitter {
    /// Before a script nothing is emitted.
    pub fn new(alloc: Global) -> Emitter
        ensures { result ≡ spec.start }
    {
        Emitter {
            draft: Draft::new(alloc, 0),
            protos: Items::new(alloc),
            strings: Items::new(alloc),
            lost: false,
        }
    }

    /// The place of a scope that begins here.
    pub fn mark(&self, free: u8) -> Mark
        ensures { result ≡ spec.mark_at free self.now }
    {
        Mark {
            variables: self.draft.variables.len(),
            free,
        }
    }

    // ---- items

    #[tactic(auto, unfolding(crate::specs::Puts::put))]
    fn put(&mut self, item: Item)
        ensures { Went self.old self.new (spec.put item self.old) }
    {
        if let Err(_) = self.draft.items.push(item) {
            self.lost = true;
        }
    }

    /// An instruction.
    pub fn insn(&mut self, insn: Insn)
        ensures { Went self.old self.new (spec.insn insn self.old) }
    {
        self.put(Item::Insn(insn))
    }

    /// A label stands here. It is named by a node and one of four spots at it.
    pub fn place(&mut self, node: usize, spot: usize)
        ensures { Went self.old self.new (spec.place (spec.label node spot) self.old) }
    {
        self.put(Item::Label(label(node, spot)))
    }

    /// A jump to a label, by its number.
    pub fn branch(&mut self, insn: Insn, label: usize)
        ensures { Went self.old self.new (spec.branch insn label self.old) }
    {
        self.put(Item::Branch(insn, label))
    }

    // ---- constants

    /// Where a constant stands, or where it will stand if it is new.
    pub fn constant_place(&self, constant: &Const) -> usize
        ensures { result ≡ spec.constant_place constant.now self.now }
    {
        place_of(self.draft.constants.as_slice(), constant)
    }

    /// The place of a constant, which is added where it is new.
    #[tactic(auto, unfolding(crate::specs::Puts::with_constant))]
    pub fn constant(&mut self, constant: Const) -> usize
        ensures place { result ≡ spec.constant_place constant self.old }
        ensures code { Went self.old self.new (spec.with_constant constant self.old) }
    {
        let place = self.constant_place(&constant);
        if place == self.draft.constants.len() {
            if let Err(_) = self.draft.constants.push(constant) {
                self.lost = true;
            }
        }
        place
    }

    /// The constant of a text, whose string is added to the chunk's where it is new.
    #[tactic(auto, unfolding(crate::specs::Puts::with_string))]
    fn string(&mut self, text: StrId) -> Const
        ensures constant { result ≡ spec.text_constant text self.old }
        ensures draft { self.new.draft ≡ self.old.draft }
        ensures code { Went self.old self.new (spec.with_string text self.old) }
    {
        let place = place_of_text(self.strings.as_slice(), text);
        if place == self.strings.len() {
            if let Err(_) = self.strings.push(text) {
                self.lost = true;
            }
        }
        Const::Str(long(place))
    }

    /// The place of a text's constant.
    pub fn text(&mut self, text: StrId) -> usize
        ensures place { result ≡ spec.text_place text self.old }
        ensures code { Went self.old self.new (spec.with_text text self.old) }
    {
        let constant = self.string(text);
        self.constant(constant)
    }

    // ---- variables

    /// A local comes in scope, in a register.
    #[tactic(auto, unfolding(crate::specs::Puts::declare))]
    pub fn declare(&mut self, number: usize, register: u8)
        ensures { Went self.old self.new (spec.declare number register self.old) }
    {
        if let Err(_) = self.draft.variables.push(Variable { number, register }) {
            self.lost = true;
        }
    }

    /// Only so many variables stay in scope.
    #[tactic(auto, unfolding(crate::specs::Puts::forget))]
    pub fn forget(&mut self, left: usize)
        ensures lost { self.new.lost ≡ self.old.lost }
        ensures code { self.new ≡ spec.forget left self.old }
    {
        self.draft.variables.forget(left);
    }

    // ---- functions

    /// A function is done.
    #[tactic(auto, unfolding(crate::specs::Puts::with_prototype))]
    pub fn add_prototype(&mut self, proto: Prototype)
        ensures { Went self.old self.new (spec.with_prototype proto self.old) }
    {
        if let Err(_) = self.protos.push(proto) {
            self.lost = true;
        }
    }

    /// A prototype is a child of the function.
    #[tactic(auto, unfolding(crate::specs::Puts::with_child))]
    pub fn add_child(&mut self, number: usize)
        ensures { Went self.old self.new (spec.with_child number self.old) }
    {
        if let Err(_) = self.draft.children.push(long(number)) {
            self.lost = true;
        }
    }
}

/// The number of a label.
pub fn label(node: usize, spot: usize) -> usize
    ensures { result ≡ spec.label node spot }
{
    node.saturating_mul(4).saturating_add(spot)
}
