//! The order of rows by their keys.
ghost use Rattle.std.specs.Prelude.{◌≡◌, ◌<◌, ◌+◌, ◌^◌, OnOk, ℤ, drop, length, map};
ghost use Rattle.std.specs.Ordering.{int_cmp};
ghost use Rattle.mob_slice.specs.Ranks.{compare_ratio};
ghost use Rattle.mob_ratio.specs.Ratio.{whole};
ghost use Rattle.mob_arrange.specs.Keyed.{row_of_values};
ghost use Rattle.mob_value.specs.declared.value.Value.TheVariants.{Number};
ghost use Rattle.mob_arrange.specs.RowValues.{row_value};
ghost use Rattle.mob_arrange.specs.FoundValue.{found_value};
ghost use Rattle.mob_arrange.specs.Order.{type_rank, compare_values, compare_key, first_key, other_keys, compare_keys, IsOrderedByKeys};

use crate::found::FoundValue;
use crate::listed::{Listed, others};
use crate::row_values::RowValue;
use crate::rows::Row;
use mob_frac::Frac;
use mob_slice::Ranked;
use mob_value::Value;
use std::alloc::AllocError;
use std::cmp::Ordering;

fn place(value: &Value) -> u8
    ensures place { result ≡ type_rank value.now }
{
    match value {
        Value::Bool(_) => 0,
        Value::Number(_) => 1,
        Value::Text(_) => 2,
        Value::Moment(_) => 3,
        Value::Point(_) => 4,
        Value::Polygon(_) => 5,
        Value::Span(_) => 6,
        Value::SpanSet(_) => 7,
        Value::Box(_) => 8,
        Value::MovingBool(_) => 9,
        Value::MovingInt(_) => 10,
        Value::MovingFrac(_) => 11,
        Value::MovingText(_) => 12,
        Value::MovingPoint(_) => 13,
        Value::Null => 14,
    }
}

// With a single comparison.
fn compare_numbers(a: &Frac, b: &Frac) -> Ordering
    ensures order { result ≡ compare_ratio a.now b.now }
{
    Frac::compare(a, b)
}

fn compare(a: &Value, b: &Value) -> Ordering
    ensures order { result ≡ compare_values a.now b.now }
{
    match (a, b) {
        (Value::Bool(a), Value::Bool(b)) => a.cmp(b),
        (Value::Number(a), Value::Number(b)) => compare_numbers(a, b),
        (Value::Text(a), Value::Text(b)) => Ranked::compare(a, b),
        (Value::Moment(a), Value::Moment(b)) => compare_numbers(a, b),
        _ => place(a).cmp(&place(b)),
    }
}

// The first value, or this NULL if there is none.
fn first_or<'a>(values: &'a [RowValue<'_>], null: &'a Value) -> &'a Value
    requires null { null.now ≡ Value.Null }
    ensures first { result.now ≡ first_key (map row_value values.now) }
{
    match values.first() {
        None => null,
        Some(value) => value.get(),
    }
}

fn compare_first(falls: bool, a: &[RowValue<'_>], b: &[RowValue<'_>]) -> Ordering
    ensures order { result ≡ compare_key falls (first_key (map row_value a.now)) (first_key (map row_value b.now)) }
{
    let null = Value::Null;
    let a = first_or(a, &null);
    let b = first_or(b, &null);
    if falls { compare(b, a) } else { compare(a, b) }
}

fn compare_ints(a: i64, b: i64) -> Ordering
    ensures order { result ≡ int_cmp a b }
{
    a.cmp(&b)
}

fn compare_whole(falls: bool, a: i64, b: i64) -> Ordering
    ensures order { result ≡ compare_key falls (Value.Number (whole a)) (Value.Number (whole b)) }
{
    if falls {
        compare_ints(b, a)
    } else {
        compare_ints(a, b)
    }
}

// The order of the first keys, by the whole numbers that the rows have outside their lists.
fn compare_rows(falls: bool, a: &Listed<'_>, b: &Listed<'_>) -> Ordering
    ensures order { result ≡ compare_key falls (first_key a.now) (first_key b.now) }
{
    match (a.first(), b.first()) {
        (Some(a), Some(b)) => compare_whole(falls, a, b),
        _ => compare_first(falls, a.values(), b.values()),
    }
}

fn compare_all(falls: &[bool], a: &[RowValue<'_>], b: &[RowValue<'_>]) -> Ordering
    ensures order { result ≡ compare_keys falls.now (map row_value a.now) (map row_value b.now) }
{
    let Some((falls, rest)) = falls.split_first() else {
        return Ordering::Equal;
    };
    match compare_first(*falls, a, b) {
        Ordering::Equal => compare_all(rest, others(a), others(b)),
        order => order,
    }
}

// The order of the second keys, in the same way.
fn compare_seconds(falls: bool, a: &Listed<'_>, b: &Listed<'_>) -> Ordering
    ensures order { result ≡ compare_key falls (first_key (other_keys a.now)) (first_key (other_keys b.now)) }
{
    match (a.second(), b.second()) {
        (Some(a), Some(b)) => compare_whole(falls, a, b),
        _ => compare_first(falls, others(a.values()), others(b.values())),
    }
}

// The order of the keys after the first ones.
fn compare_others(falls: &[bool], a: &Listed<'_>, b: &Listed<'_>) -> Ordering
    ensures order { result ≡ compare_keys falls.now (other_keys a.now) (other_keys b.now) }
{
    let Some((falls, rest)) = falls.split_first() else {
        return Ordering::Equal;
    };
    match compare_seconds(*falls, a, b) {
        Ordering::Equal => compare_all(
            rest,
            others(others(a.values())),
            others(others(b.values())),
        ),
        order => order,
    }
}

// The order of two rows with lists.
fn compare_listed(falls: &[bool], a: &Listed<'_>, b: &Listed<'_>) -> Ordering
    ensures order { result ≡ compare_keys falls.now a.now b.now }
{
    let Some((falls, rest)) = falls.split_first() else {
        return Ordering::Equal;
    };
    match compare_rows(*falls, a, b) {
        Ordering::Equal => compare_others(rest, a, b),
        order => order,
    }
}

fn found_place(found: FoundValue<'_>) -> u8
    ensures place { result ≡ type_rank (found_value found.entry) }
{
    match found {
        FoundValue::Number(_) => 1,
        FoundValue::Value(value) => place(value),
        FoundValue::Nothing => 14,
    }
}

// The order of a number and a value.
fn compare_number(a: &Frac, b: &Value) -> Ordering
    ensures order { result ≡ compare_values (Number a.now) b.now }
{
    match b {
        Value::Number(b) => compare_numbers(a, b),
        _ => 1.cmp(&place(b)),
    }
}

// The order of a value and a number.
fn compare_to_number(a: &Value, b: &Frac) -> Ordering
    ensures order { result ≡ compare_values a.now (Number b.now) }
{
    match a {
        Value::Number(a) => compare_numbers(a, b),
        _ => place(a).cmp(&1),
    }
}

fn compare_found(a: FoundValue<'_>, b: FoundValue<'_>) -> Ordering
    ensures order { result ≡ compare_values (found_value a.entry) (found_value b.entry) }
{
    match (a, b) {
        (FoundValue::Number(a), FoundValue::Number(b)) => compare_numbers(a, b),
        (FoundValue::Number(a), FoundValue::Value(b)) => compare_number(a, b),
        (FoundValue::Value(a), FoundValue::Number(b)) => compare_to_number(a, b),
        (FoundValue::Value(a), FoundValue::Value(b)) => compare(a, b),
        _ => found_place(a).cmp(&found_place(b)),
    }
}

fn compare_at(falls: bool, place: usize, a: &Row<'_>, b: &Row<'_>) -> Ordering
    ensures order { result ≡ compare_key falls (first_key (drop place a.now)) (first_key (drop place b.now)) }
{
    if falls {
        compare_found(b.get(place), a.get(place))
    } else {
        compare_found(a.get(place), b.get(place))
    }
}

// The order of rows by their keys from a place on.
fn compare_from(falls: &[bool], place: usize, a: &Row<'_>, b: &Row<'_>) -> Ordering
    requires few { place + length falls.now < 2 ^ 64 }
    ensures order { result ≡ compare_keys falls.now (drop place a.now) (drop place b.now) }
{
    let Some((falls, rest)) = falls.split_first() else {
        return Ordering::Equal;
    };
    match compare_at(*falls, place, a, b) {
        Ordering::Equal => compare_from(rest, place + 1, a, b),
        order => order,
    }
}

fn compare_by(falls: &[bool], a: &Row<'_>, b: &Row<'_>) -> Ordering
    ensures order { result ≡ compare_keys falls.now a.now b.now }
{
    match (a.listed(), b.listed()) {
        (Some(a), Some(b)) => compare_listed(falls, a, b),
        _ => compare_from(falls, 0, a, b),
    }
}

/// Sorts the rows by their keys. A key is descending if its entry in `falls` is true. NULL comes
/// after every other value of an ascending key and before every other value of a descending one.
/// Rows with equal keys keep their order. The only error is a failed allocation.
pub fn order(falls: &[bool], rows: &mut Vec<Row<'_>>) -> Result<(), AllocError>
    ensures ordered { OnOk result ((day : ℤ) → IsOrderedByKeys falls.now (map (row_of_values day (length falls.now)) rows.old.items) (map (row_of_values day (length falls.now)) rows.new.items)) }
{
    let compare = |a: &Row<'_>, b: &Row<'_>| -> Ordering
        ensures order { result ≡ compare_keys falls.entry.now a.now b.now }
    { compare_by(falls, a, b) };
    match rows.sort_by(compare) {
        Ok(()) => Ok(()),
        Err(error) => Err(error),
    }
}
