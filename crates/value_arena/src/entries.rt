//! Entries of tables, in the order in which their keys came.

ghost use Rattle.std.specs.Prelude.{◌≡◌, ◌<◌, ◌≤◌, ℕ, suc, pos, length, slice_get, false, IfSome, MatchOption, Some};
ghost use Rattle.std.specs.List.{IsDistinct};
ghost use Rattle.std.specs.Map.{keys_of};
ghost use Rattle.value_arena.specs.Borders.{IsBorderBut, IsFilled, item_behind};
ghost use Rattle.value_arena.specs.Tables as spec;

use indexmap::IndexMap;
use value_model::Value;
use whole_num::Whole;

/// Whether a value is nil.
#[inline(always)]
pub(crate) fn is_nil(value: &Value) -> bool
    ensures { result ≡ spec.is_nil value.now }
{
    matches!(value, Value::Nil)
}

/// What is not nil is a key: where it is a number it is in range, as all numbers are.
#[inline(always)]
pub(crate) fn key_in_range(key: &Value)
    requires { spec.is_nil key.now ≡ false }
    ensures { spec.IsKey key.now }
{
    if let Value::Num(number) = key {
        number.get();
    }
}

/// The place of a whole number in a list from one on, where it has one.
#[inline(always)]
fn list_place(number: Whole) -> Option<usize>
    ensures place { MatchOption result ((k : ℕ) → pos (suc k) ≡ number → ⊥) (λ place. pos (suc place) ≡ number) }
    ensures within { IfSome result (λ place. place < spec.most_entries) }
{
    let number = number.get();
    if number < 1 {
        None
    } else {
        Some((number - 1) as usize)
    }
}

/// The place of a key and its value, where the key is the whole number of its place in a list from one on. It takes no search.
#[inline(always)]
fn in_order(entries: &IndexMap<Value, Value>, key: &Value) -> Option<(usize, Value)>
    ensures place { IfSome result (λ found. spec.place_of key.now entries.now.entries ≡ Some found.0) }
    ensures value { IfSome result (λ found. slice_get entries.now.entries found.0 ≡ Some (key.now, found.1)) }
    ensures within { IfSome result (λ found. found.0 < length entries.now.entries) }
{
    let Value::Num(number) = key else {
        return None;
    };
    let place = list_place(*number)?;
    let (found, value) = entries.get_index(place)?;
    let Value::Num(stored) = found else {
        return None;
    };
    if stored.get() == number.get() {
        prove!(place < entries.len());
        Some((place, *value))
    } else {
        None
    }
}

/// The place of a key, or none where it was never inserted.
#[inline(always)]
pub(crate) fn place(entries: &IndexMap<Value, Value>, key: &Value) -> Option<usize>
    ensures place { result ≡ spec.place_of key.now entries.now.entries }
    ensures within { IfSome result (λ place. place < length entries.now.entries) }
{
    match in_order(entries, key) {
        Some((place, _)) => Some(place),
        None => entries.get_index_of(key),
    }
}

/// The value under a key, else nil.
#[inline(always)]
pub(crate) fn value(entries: &IndexMap<Value, Value>, key: &Value) -> Value
    ensures { result ≡ spec.value_in entries.now.entries key.now }
{
    match in_order(entries, key) {
        Some((_, value)) => value,
        None => searched(entries, key),
    }
}

/// The same, by a search.
fn searched(entries: &IndexMap<Value, Value>, key: &Value) -> Value
    ensures { result ≡ spec.value_in entries.now.entries key.now }
{
    match entries.get(key) {
        Some(value) => *value,
        None => Value::Nil,
    }
}

/// Writes the value at a place.
pub(crate) fn write(entries: &mut IndexMap<Value, Value>, place: usize, value: Value)
    requires { place < length entries.old.entries }
    ensures written { entries.new.entries ≡ spec.with_value entries.old.entries place value }
    ensures distinct { IsDistinct spec.same (keys_of entries.old.entries) }
{
    if let Some(slot) = entries.get_index_mut(place) {
        *slot = value;
    }
}

/// The value behind so many: that under the next whole number.
fn item_behind(entries: &IndexMap<Value, Value>, count: usize) -> Value
    requires { count < spec.most_entries }
    ensures { result ≡ item_behind entries.now.entries count }
{
    match Whole::new(count as i64 + 1) {
        Some(number) => value(entries, &Value::Num(number)),
        None => unreachable!(),
    }
}

/// The border, where each whole number from one to this one has a value.
fn border_from(entries: &IndexMap<Value, Value>, filled: usize) -> usize
    requires few { length entries.now.entries ≤ spec.most_entries }
    requires filled { IsFilled entries.now.entries filled }
    ensures { result ≡ spec.border_of entries.now.entries }
{
    let mut border = filled;
    while border < entries.len() && !is_nil(&item_behind(entries, border)) {
        border += 1;
    }
    border
}

/// The border after the value was written under the key, from the border before.
#[inline(always)]
pub(crate) fn border_after(
    entries: &IndexMap<Value, Value>,
    border: usize,
    key: &Value,
    value: &Value,
) -> usize
    requires few { length entries.now.entries ≤ spec.most_entries }
    requires before { IsBorderBut entries.now.entries key.now border }
    requires written { spec.value_in entries.now.entries key.now ≡ value.now }
    ensures { result ≡ spec.border_of entries.now.entries }
{
    let Value::Num(number) = key else {
        return border;
    };
    let Some(place) = list_place(*number) else {
        return border;
    };
    if is_nil(value) {
        return if place < border { place } else { border };
    }
    if place == border {
        border_from(entries, border + 1)
    } else {
        border
    }
}
