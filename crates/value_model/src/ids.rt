//! Objects by number: whose an object is, and its place among that owner's objects of its kind.

ghost use Rattle.std.specs.Prelude.{◌≡◌};
ghost use Rattle.value_model.specs.Owners.{IsShort, wide};

/// Whose objects an object stands among.
#[derive(Clone, Copy, PartialEq, Eq, Hash, Debug)]
pub enum Owner {
    /// No script's: all scripts share it, and none changes it.
    Frozen,
    /// Those of the script of this number, from 0 in the order in which scripts were loaded.
    Script(usize),
}

impl Owner {
    /// The owner as an id holds it, for a script's number below 256.
    pub fn short(self) -> ShortOwner
        requires { IsShort self }
        ensures { wide result ≡ self }
    {
        match self {
            Owner::Frozen => ShortOwner::Frozen,
            Owner::Script(number) => ShortOwner::Script(number as u8),
        }
    }
}

/// An owner in two bytes, as ids hold it: a value then takes no more than 16.
#[derive(Clone, Copy, PartialEq, Eq, Hash, Debug)]
pub enum ShortOwner {
    /// No script's.
    Frozen,
    /// Those of the script of this number.
    Script(u8),
}

impl ShortOwner {
    /// The owner.
    pub fn owner(self) -> Owner
        ensures { result ≡ wide self }
    {
        match self {
            ShortOwner::Frozen => Owner::Frozen,
            ShortOwner::Script(number) => Owner::Script(number as usize),
        }
    }
}

/// A table, by its owner and its place among that owner's tables, from 0.
#[derive(Clone, Copy, PartialEq, Eq, Hash, Debug)]
pub struct TableId {
    pub owner: ShortOwner,
    pub place: u32,
}

/// A Luau function, by its owner and its place among that owner's functions, from 0.
#[derive(Clone, Copy, PartialEq, Eq, Hash, Debug)]
pub struct ClosureId {
    pub owner: ShortOwner,
    pub place: u32,
}

/// A captured variable, by its owner and its place among that owner's variables, from 0.
#[derive(Clone, Copy, PartialEq, Eq, Hash, Debug)]
pub struct CellId {
    pub owner: ShortOwner,
    pub place: u32,
}

/// A coroutine, by its owner and its place among that owner's coroutines, from 0.
#[derive(Clone, Copy, PartialEq, Eq, Hash, Debug)]
pub struct ThreadId {
    pub owner: ShortOwner,
    pub place: u32,
}

/// A host function, by the place of its name among those of the host file's functions, from 0.
#[derive(Clone, Copy, PartialEq, Eq, Hash, Debug)]
pub struct HostId(pub usize);
