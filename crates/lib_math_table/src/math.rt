//! The functions of `math`.

ghost use Rattle.std.specs.Prelude.{◌≡◌, int_lt, map};
ghost use Rattle.std.specs.Int.{int_signum};
ghost use Rattle.std.specs.List.{AllByRecursion};
ghost use Rattle.value_model.specs.MathRows as math;
ghost use Rattle.value_model.specs.Parts.{meant};
ghost use Rattle.value_model.specs.declared.builtin.Builtin.TheVariants as builtin;
ghost use Rattle.luau_tables.specs.Worlds.{IsWorld, MayUseIn, store_in};
ghost use Rattle.lib_arguments.specs.Rows.{Runs};
ghost use Rattle.lib_math_table.specs.Best.{better};

use lib_arguments::{Ending, give, number_at, number_from, out_of_range};
use luau_tables::LibWorld;
use value_model::{Builtin, Value};
use whole_num::Whole;

pub(crate) fn absolute(
    args: &[Value],
    world: &LibWorld,
    results: &mut Vec<Value>,
) -> Result<(), Ending>
    requires world { IsWorld world.now }
    requires args { AllByRecursion (MayUseIn world.now) args.now }
    ensures { Runs world.now world.now results.old.items results.new.items result (math.of_number builtin.MathAbs math.absolute (map (meant world.now.names) args.now) (store_in world.now)) }
{
    let n = match number_at(Builtin::MathAbs, 0, &world.names, args) {
        Ok(n) => n,
        Err(e) => return Err(e),
    };
    give(results, Value::Num(absolute_of(n)))
}

fn absolute_of(n: Whole) -> Whole
    ensures { result ≡ math.absolute n }
{
    if n.get() < 0 { n.neg() } else { n }
}

/// A whole number is its own `ceil`, `floor` and `round`.
pub(crate) fn whole(
    builtin: Builtin,
    args: &[Value],
    world: &LibWorld,
    results: &mut Vec<Value>,
) -> Result<(), Ending>
    requires world { IsWorld world.now }
    requires args { AllByRecursion (MayUseIn world.now) args.now }
    ensures { Runs world.now world.now results.old.items results.new.items result (math.of_number builtin (λ z. z) (map (meant world.now.names) args.now) (store_in world.now)) }
{
    let n = match number_at(builtin, 0, &world.names, args) {
        Ok(n) => n,
        Err(e) => return Err(e),
    };
    give(results, Value::Num(n))
}

pub(crate) fn sign(args: &[Value], world: &LibWorld, results: &mut Vec<Value>) -> Result<(), Ending>
    requires world { IsWorld world.now }
    requires args { AllByRecursion (MayUseIn world.now) args.now }
    ensures { Runs world.now world.now results.old.items results.new.items result (math.of_number builtin.MathSign int_signum (map (meant world.now.names) args.now) (store_in world.now)) }
{
    let n = match number_at(Builtin::MathSign, 0, &world.names, args) {
        Ok(n) => n,
        Err(e) => return Err(e),
    };
    give(results, Value::Num(sign_of(n)))
}

fn sign_of(n: Whole) -> Whole
    ensures { result ≡ int_signum n }
{
    match Whole::new(n.get().signum()) {
        Some(sign) => sign,
        None => unreachable!(),
    }
}

/// The greatest of all arguments, or the least.
pub(crate) fn best(
    builtin: Builtin,
    greatest: bool,
    args: &[Value],
    world: &LibWorld,
    results: &mut Vec<Value>,
) -> Result<(), Ending>
    requires world { IsWorld world.now }
    requires args { AllByRecursion (MayUseIn world.now) args.now }
    ensures { Runs world.now world.now results.old.items results.new.items result (math.best_row builtin (better greatest) (map (meant world.now.names) args.now) (store_in world.now)) }
{
    let mut best = match number_at(builtin, 0, &world.names, args) {
        Ok(n) => n,
        Err(e) => return Err(e),
    };
    for i in 1..args.len() {
        match number_from(builtin, i, &world.names, &args[i]) {
            Ok(n) => best = better(greatest, best, n),
            Err(e) => return Err(e),
        }
    }
    give(results, Value::Num(best))
}

fn is_less(a: Whole, b: Whole) -> bool
    ensures { result ≡ int_lt a b }
{
    a.get() < b.get()
}

// The greater of two numbers, or the lesser.
fn better(greatest: bool, a: Whole, b: Whole) -> Whole
    ensures { result ≡ better greatest a b }
{
    if is_less(b, a) == greatest { a } else { b }
}

pub(crate) fn clamp(
    args: &[Value],
    world: &LibWorld,
    results: &mut Vec<Value>,
) -> Result<(), Ending>
    requires world { IsWorld world.now }
    requires args { AllByRecursion (MayUseIn world.now) args.now }
    ensures { Runs world.now world.now results.old.items results.new.items result (math.clamp_row (map (meant world.now.names) args.now) (store_in world.now)) }
{
    let n = match number_at(Builtin::MathClamp, 0, &world.names, args) {
        Ok(n) => n,
        Err(e) => return Err(e),
    };
    let low = match number_at(Builtin::MathClamp, 1, &world.names, args) {
        Ok(n) => n,
        Err(e) => return Err(e),
    };
    let high = match number_at(Builtin::MathClamp, 2, &world.names, args) {
        Ok(n) => n,
        Err(e) => return Err(e),
    };
    if is_less(high, low) {
        return Err(out_of_range(Builtin::MathClamp, 2));
    }
    give(
        results,
        Value::Num(better(false, better(true, n, low), high)),
    )
}
