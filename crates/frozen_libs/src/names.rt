//! The names of metamethods.

ghost use Rattle.std.specs.Prelude.{◌≡◌, Some, codes, slice_get, IfOk};
ghost use Rattle.luau_tables.specs.Own.{AreNames, AreTexts};
ghost use Rattle.luau_tables.specs.Worlds.{Extends};
ghost use Rattle.frozen_libs.specs.Numbered.{AreNumbered};

use byte_text::{Interner, StrId};
use lib_arguments::text_value;
use luau_tables::MetaNames;
use resource::OutOfMemory;

/// The names of metamethods, with their numbers.
pub(crate) fn meta_names(names: &mut Interner) -> Result<MetaNames, OutOfMemory>
    requires { AreTexts names.old }
    ensures names { IfOk result (AreNames names.new) }
    ensures extends { Extends names.old names.new }
    ensures texts { AreTexts names.new }
{
    let a = number_four(names, b"__index", b"__newindex", b"__call", b"__eq")?;
    let b = number_four(names, b"__lt", b"__le", b"__add", b"__sub")?;
    let c = number_four(names, b"__mul", b"__div", b"__idiv", b"__mod")?;
    let d = number_four(names, b"__pow", b"__unm", b"__concat", b"__len")?;
    let e = number_four(
        names,
        b"__iter",
        b"__tostring",
        b"__metatable",
        b"__metatable",
    )?;
    Ok(MetaNames {
        index: a.first,
        newindex: a.second,
        call: a.third,
        eq: a.fourth,
        lt: b.first,
        le: b.second,
        add: b.third,
        sub: b.fourth,
        mul: c.first,
        div: c.second,
        idiv: c.third,
        mod_: c.fourth,
        pow: d.first,
        unm: d.second,
        concat: d.third,
        len: d.fourth,
        iter: e.first,
        tostring: e.second,
        metatable: e.third,
    })
}

// The numbers of four texts.
#[derive(Clone, Copy)]
struct Four {
    first: StrId,
    second: StrId,
    third: StrId,
    fourth: StrId,
}

// Numbers four texts.
fn number_four(
    names: &mut Interner,
    first: &[u8],
    second: &[u8],
    third: &[u8],
    fourth: &[u8],
) -> Result<Four, OutOfMemory>
    requires { AreTexts names.old }
    ensures numbers { IfOk result (AreNumbered names.new first.now second.now third.now fourth.now) }
    ensures extends { Extends names.old names.new }
    ensures texts { AreTexts names.new }
{
    let first = text_value(names, first)?;
    let second = text_value(names, second)?;
    let third = text_value(names, third)?;
    let fourth = text_value(names, fourth)?;
    Ok(Four {
        first,
        second,
        third,
        fourth,
    })
}
