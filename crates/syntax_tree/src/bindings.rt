//! What each name of a tree is bound to.

use byte_text::StrId;
use sqlite_items::Items;

/// What a name stands for. The number is the place of a local in `locals` of the bindings.
#[derive(Clone, Copy, PartialEq, Eq, Hash, Debug)]
pub enum Bound {
    /// A local or a parameter of the function in which the name stands.
    Local(usize),
    /// A local or a parameter of a function around it.
    Up(usize),
    /// No local: a name of the environment.
    Global,
}

/// A declared local or a parameter.
#[derive(Clone, Copy, PartialEq, Eq, Hash, Debug)]
pub struct LocalInfo {
    pub name: StrId,
    /// The number of the function body that declares it.
    pub func: usize,
    /// Whether some name in a function further inside is bound to it.
    pub captured: bool,
    /// Whether some name that is bound to it is the target of an assignment.
    pub assigned: bool,
}

/// What the names of a tree are bound to.
#[derive(Drop)]
pub struct Bindings {
    /// By node number: what a name expression is bound to, and nothing at every other node.
    pub names: Items<Option<Bound>>,
    /// The locals and parameters in the order in which the text declares them.
    pub locals: Items<LocalInfo>,
    /// By node number: the variables that a function body captures, and none at every other node. They are numbers of
    /// locals, each once, in the order in which the closure takes them: that of the first names in the body that stand
    /// for them. The place of a variable in this list is the number of the upvalue.
    pub upvalues: Items<Items<usize>>,
    /// By node number: how many locals the text declares before the node. Where the node declares locals itself, as a
    /// `local`, a loop or a function body with parameters does, this is the number of the first of them.
    pub firsts: Items<usize>,
}
