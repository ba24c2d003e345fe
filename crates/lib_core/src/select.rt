//! `select`.

ghost use Rattle.std.specs.Prelude.{◌≡◌, drop, map, codes};
ghost use Rattle.std.specs.List.{AllByRecursion};
ghost use Rattle.value_model.specs.CoreRows as core;
ghost use Rattle.value_model.specs.Parts.{meant};
ghost use Rattle.luau_tables.specs.Worlds.{IsWorld, Keeps, MayUseIn, store_in};
ghost use Rattle.lib_arguments.specs.Rows.{Runs};
ghost use Rattle.luau_tables.specs.Own.{HasText};
ghost use Rattle.value_model.specs.Tables.{same};
ghost use Rattle.value_model.specs.Values.{Text};
ghost use Rattle.lib_core.specs.Places.{first_place};

use byte_text::Interner;
use lib_arguments::{Ending, argument_or_nil, give_all, give_count, number_at, out_of_range};
use luau_tables::LibWorld;
use value_model::{Builtin, Value};
use whole_num::Whole;

pub(crate) fn select(
    args: &[Value],
    world: &LibWorld,
    results: &mut Vec<Value>,
) -> Result<(), Ending>
    requires world { IsWorld world.now }
    requires args { AllByRecursion (MayUseIn world.now) args.now }
    ensures { Runs world.now world.now results.old.items results.new.items result (core.select_row (map (meant world.now.names) args.now) (store_in world.now)) }
{
    if is_hash(&world.names, &argument_or_nil(args, 0)) {
        return give_count(results, behind(args, 1).len());
    }
    let place = match number_at(Builtin::Select, 0, &world.names, args) {
        Ok(place) => place,
        Err(e) => return Err(e),
    };
    let values = behind(args, 1);
    match first_place(place, values.len()) {
        Some(first) => give_all(results, behind(values, first)),
        None => Err(out_of_range(Builtin::Select, 0)),
    }
}

// Whether a value is the text `#`.
fn is_hash(names: &Interner, v: &Value) -> bool
    requires { HasText names.now v.now }
    ensures { result ≡ same (meant names.now v.now) (Text (codes "#")) }
{
    match v {
        Value::Str(id) => names.bytes(*id) == b"#".as_slice(),
        _ => false,
    }
}

// The values behind so many.
fn behind(values: &[Value], count: usize) -> &[Value]
    ensures { result.now ≡ drop count values.now }
{
    if count < values.len() {
        &values[count..]
    } else {
        &[]
    }
}

// The place from 0 on of the first value that is given; below 0 the place counts from the end.
fn first_place(place: Whole, count: usize) -> Option<usize>
    ensures { result ≡ first_place place count }
{
    let place = place.get();
    if place > 0 {
        return Some(place as usize - 1);
    }
    if place == 0 {
        return None;
    }
    count.checked_sub((-place) as usize)
}
