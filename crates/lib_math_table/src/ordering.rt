//! `table.sort`.

ghost use Rattle.std.specs.Prelude.{◌≡◌, List, map, IfOk, Some, slice_get};
ghost use Rattle.std.specs.List.{AllByRecursion};
ghost use Rattle.std.specs.List.Sorted.{IsPermutation};
ghost use Rattle.value_model.specs.Answers as model;
ghost use Rattle.value_model.specs.Errors as error;
ghost use Rattle.value_model.specs.Parts.{meant};
ghost use Rattle.value_model.specs.TableRows as table;
ghost use Rattle.value_model.specs.Values.{Bytes, kind_of};
ghost use Rattle.value_model.specs.declared.value.Value.{Value};
ghost use Rattle.value_model.specs.declared.value.Value.TheVariants.{Num, Str};
ghost use Rattle.luau_tables.specs.Own.{HasText};
ghost use Rattle.luau_tables.specs.Worlds.{IsWorld, Keeps, MayUseIn, store_in};
ghost use Rattle.lib_arguments.specs.Checks.{Fails};
ghost use Rattle.lib_arguments.specs.Rows.{Runs};
ghost use Rattle.lib_math_table.specs.Sorted.{AreSorted, BeginsWithNumber, BeginsWithText, OrFails};

use crate::unpacking::one;
use byte_text::{Interner, StrId};
use lib_arguments::{Ending, table_at};
use luau_tables::LibWorld;
use resource::OutOfMemory;
use std::alloc::Global;
use table_lists::{count_between, end_of, items, put_all};
use value_model::{Builtin, RunErr, Value};
use whole_num::Whole;

pub(crate) fn sort(alloc: Global, args: &[Value], world: &mut LibWorld) -> Result<(), Ending>
    requires world { IsWorld world.old }
    requires args { AllByRecursion (MayUseIn world.old) args.now }
    ensures runs { (rs : List Value) → Runs world.old world.new rs rs result (table.sort_row (map (meant world.old.names) args.now) (store_in world.old)) }
    ensures keeps { Keeps world.old world.new }
{
    let t = match table_at(Builtin::TableSort, 0, args) {
        Ok(t) => t,
        Err(e) => return Err(e),
    };
    let table = world.arena.table(t);
    if table.is_frozen() {
        return Err(Ending::RunError(RunErr::ReadonlyTable));
    }
    let count = count_between(one(), end_of(table));
    let values = match items(alloc, table, one(), count) {
        Ok(values) => values,
        Err(OutOfMemory) => return Err(Ending::OutOfMemory),
    };
    let sorted = match sorted(alloc, &world.names, values.as_slice()) {
        Ok(sorted) => sorted,
        Err(e) => return Err(e),
    };
    match put_all(world.arena.table_mut(t), one(), sorted.as_slice()) {
        Ok(()) => Ok(()),
        Err(OutOfMemory) => Err(Ending::OutOfMemory),
    }
}

// Elements in order, where all are numbers or all are texts.
fn sorted(alloc: Global, names: &Interner, values: &[Value]) -> Result<Vec<Value>, Ending>
    requires { AllByRecursion (HasText names.now) values.now }
    ensures sorts { OrFails names.now values.now (λ sorted. AreSorted names.now values.now sorted.items) result }
    ensures moves { IfOk result (λ sorted. IsPermutation values.now sorted.items) }
{
    let Some(first) = values.first() else {
        return Ok(Vec::new(alloc));
    };
    match first {
        Value::Num(_) => sorted_numbers(alloc, values),
        Value::Str(_) => sorted_texts(alloc, names, values),
        _ => Err(unlike(first, first)),
    }
}

// Two elements that cannot be compared.
fn unlike(first: &Value, other: &Value) -> Ending
    ensures { (texts : List Bytes) → Fails texts (model.ErrsWith (error.CompareLess (kind_of (meant texts first.now)) (kind_of (meant texts other.now)))) result }
{
    Ending::RunError(RunErr::CompareLess {
        left: first.kind(),
        right: other.kind(),
    })
}

// Numbers in order. The first is one.
fn sorted_numbers(alloc: Global, values: &[Value]) -> Result<Vec<Value>, Ending>
    requires { BeginsWithNumber values.now }
    ensures sorts { (texts : List Bytes) → OrFails texts values.now (λ sorted. AreSorted texts values.now sorted.items) result }
    ensures moves { IfOk result (λ sorted. IsPermutation values.now sorted.items) }
{
    let mut numbers = match numbers(alloc, values) {
        Ok(numbers) => numbers,
        Err(e) => return Err(e),
    };
    numbers.sort_unstable();
    match number_values(alloc, numbers.as_slice()) {
        Ok(sorted) => Ok(sorted),
        Err(OutOfMemory) => Err(Ending::OutOfMemory),
    }
}

// The numbers that elements are. The first is one.
fn numbers(alloc: Global, values: &[Value]) -> Result<Vec<Whole>, Ending>
    requires { BeginsWithNumber values.now }
    ensures { (texts : List Bytes) → OrFails texts values.now (λ numbers. values.now ≡ map (λ z. Num z) numbers.items) result }
{
    let mut numbers = Vec::new(alloc);
    for v in values {
        match v {
            Value::Num(n) => match numbers.push(*n) {
                Ok(()) => {}
                Err(_) => return Err(Ending::OutOfMemory),
            },
            _ => return Err(unlike(&values[0], v)),
        }
    }
    Ok(numbers)
}

fn number_values(alloc: Global, numbers: &[Whole]) -> Result<Vec<Value>, OutOfMemory>
    ensures { IfOk result (λ values. values.items ≡ map (λ z. Num z) numbers.now) }
{
    let mut values = Vec::new(alloc);
    for n in numbers {
        values.push(Value::Num(*n))?;
    }
    Ok(values)
}

// Texts in order. The first is one.
fn sorted_texts(alloc: Global, names: &Interner, values: &[Value]) -> Result<Vec<Value>, Ending>
    requires texts { AllByRecursion (HasText names.now) values.now }
    requires first { BeginsWithText values.now }
    ensures sorts { OrFails names.now values.now (λ sorted. AreSorted names.now values.now sorted.items) result }
    ensures moves { IfOk result (λ sorted. IsPermutation values.now sorted.items) }
{
    let mut texts = match texts(alloc, names, values) {
        Ok(texts) => texts,
        Err(e) => return Err(e),
    };
    texts.sort_unstable();
    match text_values(alloc, texts.as_slice()) {
        Ok(sorted) => Ok(sorted),
        Err(OutOfMemory) => Err(Ending::OutOfMemory),
    }
}

// The texts that elements are, each with its number. The first is one.
fn texts<'a>(
    alloc: Global,
    names: &'a Interner,
    values: &[Value],
) -> Result<Vec<(&'a [u8], StrId)>, Ending>
    requires texts { AllByRecursion (HasText names.now) values.now }
    requires first { BeginsWithText values.now }
    ensures values { OrFails names.now values.now (λ texts. values.now ≡ map (λ text. Str text.1) texts.items) result }
    ensures bytes { IfOk result (λ texts. AllByRecursion (λ text. slice_get names.now text.1.0 ≡ Some text.0.now) texts.items) }
{
    let mut texts = Vec::new(alloc);
    for v in values {
        match v {
            Value::Str(id) => match texts.push((names.bytes(*id), *id)) {
                Ok(()) => {}
                Err(_) => return Err(Ending::OutOfMemory),
            },
            _ => return Err(unlike(&values[0], v)),
        }
    }
    Ok(texts)
}

fn text_values(alloc: Global, texts: &[(&[u8], StrId)]) -> Result<Vec<Value>, OutOfMemory>
    ensures { IfOk result (λ values. values.items ≡ map (λ text. Str text.1) texts.now) }
{
    let mut values = Vec::new(alloc);
    for text in texts {
        values.push(Value::Str(text.1))?;
    }
    Ok(values)
}
