//! Calls on values over time that no script reaches: the slice at an instant, products with steps
//! and with one number, and the pieces of an iteration. The epoch is 2000-01-01, so the instant 2
//! is its second 2. What scripts do with such values is tested in `checks/rows`.

use crate::together::is_printed;
use mob_arith::{times_const, times_step};
use mob_ast::SqlType;
use mob_frac::Frac;
use mob_lift::walks::{Common, Ones};
use mob_list::fault::Fault;
use mob_literal::read_value;
use mob_scalar::Epoch;
use mob_slice::{Formula, Line, Moving, Steady};
use mob_value::Value;
use std::alloc::Global;

fn is_number(number: &Frac, wanted: Option<i64>) -> bool {
    wanted == Some(number.num()) && number.den() == 1
}

// Whether the slice at an instant starts with this whole number; `None` if there is no slice.
fn starts_with(number: &Moving<Line>, instant: i64, wanted: Option<i64>) -> bool {
    match Frac::new(instant, 1) {
        Ok(t) => match number.slice_at(&t) {
            Some(slice) => is_number(&slice.course.from, wanted),
            None => wanted.is_none(),
        },
        Err(_) => false,
    }
}

static STARTS: [(&'static str, i64, Option<i64>); 5] = [
    ("[0@2000-01-01 00:00:00, 1@2000-01-01 00:00:03]", 1, Some(0)),
    // two lines with the same slope become one, which starts where the first does
    (
        "{[0@2000-01-01 00:00:00, 1@2000-01-01 00:00:01), [1@2000-01-01 00:00:01, 4@2000-01-01 00:00:04]}",
        2,
        Some(0),
    ),
    // at a jump
    (
        "{[0@2000-01-01 00:00:00, 1@2000-01-01 00:00:01), [5@2000-01-01 00:00:01, 6@2000-01-01 00:00:02]}",
        1,
        Some(5),
    ),
    // an end that the value does not include
    ("[0@2000-01-01 00:00:00, 1@2000-01-01 00:00:01)", 1, None),
    // a difference that does not fit
    (
        "[-4611686018427387903@2000-01-01 00:00:00, 1@2000-01-01 00:00:02]",
        1,
        Some(-4611686018427387903),
    ),
];

fn is_start(alloc: Global, row: &(&'static str, i64, Option<i64>)) -> bool {
    match &read_value(alloc, SqlType::TFrac, row.0, &Epoch::standard()) {
        Ok(Value::MovingFrac(number)) => starts_with(number, row.1, row.2),
        _ => false,
    }
}

#[test]
fn slices_start(rt: HostRuntime) {
    for row in &STARTS {
        assert!(rt; is_start(rt.alloc(), row));
    }
}

fn is_line(alloc: Global, line: Moving<Line>, wanted: &str) -> bool {
    is_printed(alloc, &Value::MovingFrac(line), wanted)
}

fn is_answer(
    alloc: Global,
    answer: Result<Option<Moving<Line>>, Fault<Formula>>,
    wanted: &str,
) -> bool {
    match answer {
        Ok(Some(line)) => is_line(alloc, line, wanted),
        Ok(None) => wanted == "NULL",
        Err(_) => false,
    }
}

fn is_multiple(alloc: Global, line: &Moving<Line>, factor: &Frac, wanted: &str) -> bool {
    match times_const(alloc, line, factor) {
        Ok(line) => is_line(alloc, line, wanted),
        Err(_) => false,
    }
}

// Whether the product of a line with one number, or with steps, prints like this.
fn is_product(alloc: Global, factor: &Value, line: &Moving<Line>, wanted: &str) -> bool {
    match factor {
        Value::Number(factor) => is_multiple(alloc, line, factor, wanted),
        Value::MovingInt(steps) => is_answer(alloc, times_step(alloc, steps, line), wanted),
        _ => false,
    }
}

// The type and the text of a factor, the text of a line, and their product.
type Product = (SqlType, &'static str, &'static str, &'static str);

static PRODUCTS: [Product; 6] = [
    // a line between the steps
    (
        SqlType::TInt,
        "[1@2000-01-01 00:00:00+00, -1@2000-01-01 00:00:02+00, -1@2000-01-01 00:00:04+00]",
        "[0@2000-01-01 00:00:00+00, 4@2000-01-01 00:00:04+00]",
        "{[0@2000-01-01 00:00:00+00, 2@2000-01-01 00:00:02+00), [-2@2000-01-01 00:00:02+00, -4@2000-01-01 00:00:04+00]}",
    ),
    (
        SqlType::TInt,
        "{1@2000-01-01 00:00:00+00, 2@2000-01-01 00:00:02+00}",
        "[0@2000-01-01 00:00:00+00, 4@2000-01-01 00:00:04+00]",
        "{0@2000-01-01 00:00:00+00, 4@2000-01-01 00:00:02+00}",
    ),
    (
        SqlType::TInt,
        "[1@2000-01-01 00:00:00+00, 1@2000-01-01 00:00:01+00]",
        "[0@2000-01-01 00:00:02+00, 1@2000-01-01 00:00:03+00]",
        "NULL",
    ),
    (
        SqlType::Numeric,
        "-3",
        "[0@2000-01-01 00:00:00+00, 2@2000-01-01 00:00:02+00]",
        "[0@2000-01-01 00:00:00+00, -6@2000-01-01 00:00:02+00]",
    ),
    (
        SqlType::Numeric,
        "1/2",
        "[1@2000-01-01 00:00:00+00, 2@2000-01-01 00:00:02+00)",
        "[1/2@2000-01-01 00:00:00+00, 1@2000-01-01 00:00:02+00)",
    ),
    // the least positive number
    (
        SqlType::Numeric,
        "2",
        "[1/4611686018427387903@2000-01-01 00:00:00+00, 0@2000-01-01 00:00:03+00]",
        "[2/4611686018427387903@2000-01-01 00:00:00+00, 0@2000-01-01 00:00:03+00]",
    ),
];

fn is_multiplied_by(alloc: Global, factor: &Value, row: &Product) -> bool {
    match &read_value(alloc, SqlType::TFrac, row.2, &Epoch::standard()) {
        Ok(Value::MovingFrac(line)) => is_product(alloc, factor, line, row.3),
        _ => false,
    }
}

fn is_multiplied(alloc: Global, row: &Product) -> bool {
    match &read_value(alloc, row.0, row.1, &Epoch::standard()) {
        Ok(factor) => is_multiplied_by(alloc, factor, row),
        Err(_) => false,
    }
}

#[test]
fn lines_are_multiplied(rt: HostRuntime) {
    for row in &PRODUCTS {
        assert!(rt; is_multiplied(rt.alloc(), row));
    }
}

fn common_pieces(a: &Moving<Steady<Frac>>, b: &Moving<Steady<Frac>>) -> u32 {
    let mut count: u32 = 0;
    for _pair in Common::new(a, b) {
        count = count.saturating_add(1);
    }
    count
}

fn own_pieces(number: &Moving<Steady<Frac>>) -> u32 {
    let mut count: u32 = 0;
    for _piece in Ones::new(number) {
        count = count.saturating_add(1);
    }
    count
}

// Whether a tint has this many pieces, alone and with itself.
fn has_pieces(alloc: Global, text: &str, wanted: u32) -> bool {
    match &read_value(alloc, SqlType::TInt, text, &Epoch::standard()) {
        Ok(Value::MovingInt(number)) => {
            common_pieces(number, number) == wanted && own_pieces(number) == wanted
        }
        _ => false,
    }
}

#[test]
fn steps_have_pieces(rt: HostRuntime) {
    let several = "{[1@2001-01-01, 2@2001-01-02], [0@2001-01-04, 0@2001-01-05)}";
    assert!(rt; has_pieces(rt.alloc(), "[3@2001-01-01, 3@2001-01-02]", 1));
    assert!(rt; has_pieces(rt.alloc(), several, 3));
}
