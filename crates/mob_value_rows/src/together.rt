//! Unions of temporal values, by calls that no script reaches directly.

use mob_ast::SqlType;
use mob_frac::Frac;
use mob_literal::{read_value, write_field};
use mob_scalar::Epoch;
use mob_slice::{Moving, Steady};
use mob_tagg::{add_in, and_in, ones_of, or_in};
use mob_value::Value;
use std::alloc::Global;

pub fn is_printed(alloc: Global, value: &Value, wanted: &str) -> bool {
    let mut into = String::new(alloc);
    write_field(value, &Epoch::standard(), &mut into).is_ok() && into.as_str() == wanted
}

type Truths = Moving<Steady<bool>>;

type Numbers = Moving<Steady<Frac>>;

fn has_conjunction(alloc: Global, a: &Truths, b: &Truths, wanted: &str) -> bool {
    match and_in(alloc, a, b) {
        Ok(both) => is_printed(alloc, &Value::MovingBool(both), wanted),
        Err(_) => false,
    }
}

fn has_disjunction(alloc: Global, a: &Truths, b: &Truths, wanted: &str) -> bool {
    match or_in(alloc, a, b) {
        Ok(one) => is_printed(alloc, &Value::MovingBool(one), wanted),
        Err(_) => false,
    }
}

fn has_sum(alloc: Global, a: &Numbers, b: &Numbers, wanted: &str) -> bool {
    match add_in(alloc, a, b) {
        Ok(sum) => is_printed(alloc, &Value::MovingInt(sum), wanted),
        Err(_) => false,
    }
}

fn has_ones(alloc: Global, a: &Numbers, wanted: &str) -> bool {
    match ones_of(alloc, a) {
        Ok(ones) => is_printed(alloc, &Value::MovingInt(ones), wanted),
        Err(_) => false,
    }
}

// Two tbools, their conjunction, and their disjunction.
type Logic = (&'static str, &'static str, &'static str, &'static str);

static LOGIC: [Logic; 2] = [
    (
        "[t@2001-01-01, t@2001-01-03]",
        "[f@2001-01-02, f@2001-01-04]",
        "[t@2001-01-01 00:00:00+00, f@2001-01-02 00:00:00+00, f@2001-01-04 00:00:00+00]",
        "{[t@2001-01-01 00:00:00+00, t@2001-01-03 00:00:00+00], (f@2001-01-03 00:00:00+00, f@2001-01-04 00:00:00+00]}",
    ),
    (
        "[t@2001-01-01, t@2001-01-02)",
        "[t@2001-01-02, t@2001-01-03]",
        "[t@2001-01-01 00:00:00+00, t@2001-01-03 00:00:00+00]",
        "[t@2001-01-01 00:00:00+00, t@2001-01-03 00:00:00+00]",
    ),
];

// Two tints, their sum, and the count of the first.
static SUMS: [Logic; 2] = [
    (
        "[1@2001-01-01, 1@2001-01-03]",
        "[2@2001-01-02, 2@2001-01-04]",
        "{[1@2001-01-01 00:00:00+00, 3@2001-01-02 00:00:00+00, 3@2001-01-03 00:00:00+00], (2@2001-01-03 00:00:00+00, 2@2001-01-04 00:00:00+00]}",
        "[1@2001-01-01 00:00:00+00, 1@2001-01-03 00:00:00+00]",
    ),
    (
        "{[4@2001-01-01, 5@2001-01-02], [0@2001-01-05, 0@2001-01-06]}",
        "3@2001-01-03",
        "{[4@2001-01-01 00:00:00+00, 5@2001-01-02 00:00:00+00], [3@2001-01-03 00:00:00+00], [0@2001-01-05 00:00:00+00, 0@2001-01-06 00:00:00+00]}",
        "{[1@2001-01-01 00:00:00+00, 1@2001-01-02 00:00:00+00], [1@2001-01-05 00:00:00+00, 1@2001-01-06 00:00:00+00]}",
    ),
];

fn are_truths(alloc: Global, a: &Truths, b: &Value, row: &Logic) -> bool {
    match b {
        Value::MovingBool(b) => {
            has_conjunction(alloc, a, b, row.2) && has_disjunction(alloc, a, b, row.3)
        }
        _ => false,
    }
}

fn are_numbers(alloc: Global, a: &Numbers, b: &Value, row: &Logic) -> bool {
    match b {
        Value::MovingInt(b) => has_sum(alloc, a, b, row.2) && has_ones(alloc, a, row.3),
        _ => false,
    }
}

fn are_together(alloc: Global, a: &Value, b: &Value, row: &Logic) -> bool {
    match a {
        Value::MovingBool(a) => are_truths(alloc, a, b, row),
        Value::MovingInt(a) => are_numbers(alloc, a, b, row),
        _ => false,
    }
}

fn second_is_so(alloc: Global, ty: SqlType, a: &Value, row: &Logic) -> bool {
    match &read_value(alloc, ty, row.1, &Epoch::standard()) {
        Ok(b) => are_together(alloc, a, b, row),
        Err(_) => false,
    }
}

fn all_are_so(alloc: Global, ty: SqlType, rows: &[Logic]) -> bool {
    for row in rows {
        let is_row = match &read_value(alloc, ty, row.0, &Epoch::standard()) {
            Ok(a) => second_is_so(alloc, ty, a, row),
            Err(_) => false,
        };
        if !is_row {
            return false;
        }
    }
    true
}

#[test]
fn truth_values_are_taken_together(rt: HostRuntime) {
    assert!(rt; all_are_so(rt.alloc(), SqlType::TBool, &LOGIC));
}

#[test]
fn numbers_are_taken_together(rt: HostRuntime) {
    assert!(rt; all_are_so(rt.alloc(), SqlType::TInt, &SUMS));
}
