//! Which functions of the library there are, and where.

ghost use Rattle.std.specs.Prelude.{◌≡◌};
ghost use Rattle.machine_library.specs.Homes as spec;

use value_model::Builtin;

/// Where a function of the library is.
#[derive(Clone, Copy, PartialEq, Eq, Debug)]
pub(crate) enum Home {
    /// The global table.
    Core,
    /// `string`.
    Strings,
    /// `math` and `table`.
    Tables,
    /// The machine runs it: it calls what it is given under protection, moves between coroutines, or knows of environments.
    Machine,
}

/// Whether the library answers a call of a function by itself.
pub fn is_library(builtin: Builtin) -> bool
    ensures { result ≡ spec.is_library builtin }
{
    match home_of(builtin) {
        Home::Machine => false,
        _ => true,
    }
}

// Where a function is.
pub(crate) fn home_of(builtin: Builtin) -> Home
    ensures { result ≡ spec.home_of builtin }
{
    match builtin {
        Builtin::Print => Home::Core,
        Builtin::Type => Home::Core,
        Builtin::Typeof => Home::Core,
        Builtin::Tostring => Home::Core,
        Builtin::Tonumber => Home::Core,
        Builtin::Assert => Home::Core,
        Builtin::Error => Home::Core,
        Builtin::Select => Home::Core,
        Builtin::Next => Home::Core,
        Builtin::Pairs => Home::Core,
        Builtin::Ipairs => Home::Core,
        Builtin::IpairsIterator => Home::Core,
        Builtin::Rawget => Home::Core,
        Builtin::Rawset => Home::Core,
        Builtin::Rawequal => Home::Core,
        Builtin::Rawlen => Home::Core,
        Builtin::Getmetatable => Home::Core,
        Builtin::Setmetatable => Home::Core,
        Builtin::StringByte => Home::Strings,
        Builtin::StringChar => Home::Strings,
        Builtin::StringLen => Home::Strings,
        Builtin::StringSub => Home::Strings,
        Builtin::StringLower => Home::Strings,
        Builtin::StringUpper => Home::Strings,
        Builtin::StringRep => Home::Strings,
        Builtin::StringReverse => Home::Strings,
        Builtin::StringSplit => Home::Strings,
        Builtin::StringFormat => Home::Strings,
        Builtin::MathAbs => Home::Tables,
        Builtin::MathCeil => Home::Tables,
        Builtin::MathFloor => Home::Tables,
        Builtin::MathRound => Home::Tables,
        Builtin::MathSign => Home::Tables,
        Builtin::MathMax => Home::Tables,
        Builtin::MathMin => Home::Tables,
        Builtin::MathClamp => Home::Tables,
        Builtin::TableInsert => Home::Tables,
        Builtin::TableRemove => Home::Tables,
        Builtin::TableConcat => Home::Tables,
        Builtin::TableUnpack => Home::Tables,
        Builtin::TablePack => Home::Tables,
        Builtin::TableCreate => Home::Tables,
        Builtin::TableFind => Home::Tables,
        Builtin::TableClear => Home::Tables,
        Builtin::TableClone => Home::Tables,
        Builtin::TableFreeze => Home::Tables,
        Builtin::TableIsfrozen => Home::Tables,
        Builtin::TableMove => Home::Tables,
        Builtin::TableSort => Home::Tables,
        _ => Home::Machine,
    }
}
