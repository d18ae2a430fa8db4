//! Two points, one of which moves: whether they are ever within a distance, and the square of their
//! nearest approach, in 62 bits and in numbers of any size.

use crate::printed::{is_answer, is_decided, is_decision, is_given};
use mob_ast::SqlType;
use mob_frac::Frac;
use mob_literal::read_value;
use mob_near::{approach_squared, approach_wide, ever_within, ever_within_wide, least_exact};
use mob_scalar::Epoch;
use mob_slice::{Moving, Operand, PlaneLine};
use mob_value::Value;
use mob_wide::Exact;
use std::alloc::{AllocError, Global};

// How the nearest piece is computed: in fractions of 62 bits, or in numbers of any size.
#[derive(Clone, Copy)]
enum Path {
    Small,
    Large,
}

// In numbers of any size: whether two points are ever within a distance, how their nearest piece is
// computed, and the square of their nearest approach, `given` if it does not fit.
type Wide = (&'static str, Path, &'static str);

// A moving point; the other point with its type; a distance; whether they are ever within it and
// the square of their nearest approach, in 62 bits; the same in numbers of any size.
type Pair = (
    &'static str,
    SqlType,
    &'static str,
    &'static str,
    (&'static str, &'static str),
    Wide,
);

static PAIRS: [Pair; 20] = [
    // it is 3 away only at the end that is not included
    (
        "[POINT(0 0)@2000-01-01 00:00:00, POINT(10 0)@2000-01-01 00:00:10)",
        SqlType::Point,
        "POINT(13 0)",
        "3",
        ("f", "9"),
        ("f", Path::Small, "9"),
    ),
    (
        "[POINT(0 0)@2000-01-01 00:00:00, POINT(10 0)@2000-01-01 00:00:10]",
        SqlType::Point,
        "POINT(13 0)",
        "3",
        ("t", "9"),
        ("t", Path::Small, "9"),
    ),
    // side by side, 3 apart, without both ends
    (
        "(POINT(0 0)@2000-01-01 00:00:00, POINT(5 0)@2000-01-01 00:00:05)",
        SqlType::TPoint,
        "(POINT(0 3)@2000-01-01 00:00:00, POINT(5 3)@2000-01-01 00:00:05)",
        "3",
        ("t", "9"),
        ("t", Path::Small, "9"),
    ),
    // nearest at 5, between the ends
    (
        "(POINT(0 0)@2000-01-01 00:00:00, POINT(10 0)@2000-01-01 00:00:10)",
        SqlType::Point,
        "POINT(5 2)",
        "2",
        ("t", "4"),
        ("t", Path::Small, "4"),
    ),
    (
        "(POINT(0 0)@2000-01-01 00:00:00, POINT(10 0)@2000-01-01 00:00:10)",
        SqlType::Point,
        "POINT(5 2)",
        "1.9",
        ("f", "4"),
        ("f", Path::Small, "4"),
    ),
    // they cross at 4/3
    (
        "[POINT(0 0)@2000-01-01 00:00:00, POINT(3 0)@2000-01-01 00:00:03]",
        SqlType::TPoint,
        "[POINT(4 0)@2000-01-01 00:00:00, POINT(-2 0)@2000-01-01 00:00:03]",
        "0",
        ("t", "0"),
        ("t", Path::Small, "0"),
    ),
    // nearest at 1/2
    (
        "[POINT(0 0)@2000-01-01 00:00:00, POINT(3 3)@2000-01-01 00:00:03]",
        SqlType::Point,
        "POINT(1 0)",
        "0.7",
        ("f", "1/2"),
        ("f", Path::Small, "1/2"),
    ),
    // a negative distance, and no common instant
    (
        "POINT(0 0)@2000-01-01 00:00:00",
        SqlType::Point,
        "POINT(0 0)",
        "-1",
        ("f", "0"),
        ("f", Path::Small, "0"),
    ),
    (
        "POINT(0 0)@2000-01-01 00:00:00",
        SqlType::TPoint,
        "POINT(0 0)@2000-01-01 00:00:01",
        "-1",
        ("NULL", "NULL"),
        ("NULL", Path::Small, "NULL"),
    ),
    // the nearest is in the second of three pieces
    (
        "{[POINT(9 0)@2000-01-01 00:00:00, POINT(8 0)@2000-01-01 00:00:01], (POINT(2 0)@2000-01-01 00:00:02, POINT(3 0)@2000-01-01 00:00:03), [POINT(5 0)@2000-01-01 00:00:04]}",
        SqlType::Point,
        "POINT(0 0)",
        "2",
        ("f", "4"),
        ("f", Path::Small, "4"),
    ),
    // the square of the distance does not fit, which is computed only if there is a common instant
    (
        "POINT(0 0)@2000-01-01 00:00:00",
        SqlType::Point,
        "POINT(1 0)",
        "2147483648",
        ("F6", "1"),
        ("t", Path::Small, "1"),
    ),
    (
        "POINT(0 0)@2000-01-01 00:00:00",
        SqlType::TPoint,
        "POINT(0 0)@2000-01-01 00:00:01",
        "2147483648",
        ("NULL", "NULL"),
        ("NULL", Path::Small, "NULL"),
    ),
    // nor does the square of the length of the course
    (
        "[POINT(-1500000000 0)@2000-01-01 00:00:00, POINT(1500000000 0)@2000-01-01 00:00:01]",
        SqlType::Point,
        "POINT(0 0)",
        "1",
        ("F5", "F5"),
        ("t", Path::Large, "0"),
    ),
    // the squares at an end, and the difference
    (
        "[POINT(0 0)@2000-01-01 00:00:00, POINT(3000000000 0)@2000-01-01 00:00:01]",
        SqlType::Point,
        "POINT(0 0)",
        "1",
        ("F6", "F6"),
        ("t", Path::Large, "0"),
    ),
    (
        "[POINT(0 0)@2000-01-01 00:00:00, POINT(0 0)@2000-01-01 00:00:01, POINT(4611686018427387903 0)@2000-01-01 00:00:02]",
        SqlType::Point,
        "POINT(-1 0)",
        "1",
        ("F2", "F2"),
        ("t", Path::Small, "1"),
    ),
    // a negative distance has no formula
    (
        "[POINT(0 0)@2000-01-01 00:00:00, POINT(4611686018427387903 0)@2000-01-01 00:00:02]",
        SqlType::Point,
        "POINT(-1 0)",
        "-1",
        ("f", "F2"),
        ("f", Path::Large, "1"),
    ),
    // in numbers of any size: the nearest is at the excluded end of a piece that does not fit
    (
        "{[POINT(-2200000000 4)@2000-01-01 00:00:00, POINT(0 4)@2000-01-01 00:00:10), [POINT(5 0)@2000-01-01 00:00:20]}",
        SqlType::Point,
        "POINT(0 0)",
        "4",
        ("F6", "F6"),
        ("f", Path::Large, "16"),
    ),
    // the nearest is in a piece that fits, after one that does not
    (
        "{[POINT(-2200000000 4)@2000-01-01 00:00:00, POINT(0 4)@2000-01-01 00:00:10), [POINT(3 0)@2000-01-01 00:00:20]}",
        SqlType::Point,
        "POINT(0 0)",
        "3",
        ("F6", "F6"),
        ("t", Path::Small, "9"),
    ),
    // it is before one that does not
    (
        "{[POINT(0 3)@2000-01-01 00:00:00], [POINT(0 4)@2000-01-01 00:00:10, POINT(3000000000 4)@2000-01-01 00:00:20]}",
        SqlType::Point,
        "POINT(0 0)",
        "2.9",
        ("F6", "F6"),
        ("f", Path::Small, "9"),
    ),
    // two ships 21 km apart: the square of their nearest approach itself does not fit
    (
        "[POINT(7576.4 -13366.9)@2000-01-01 00:00:21, POINT(7645 -13394.8)@2000-01-01 00:00:33]",
        SqlType::TPoint,
        "[POINT(4982.8 7458)@2000-01-01 00:00:16, POINT(4948.5 7423.1)@2000-01-01 00:00:26]",
        "50",
        ("f", "F5"),
        ("f", Path::Large, "given"),
    ),
];

fn is_within(
    alloc: Global,
    a: &Moving<PlaneLine>,
    b: &Value,
    distance: &Frac,
    wanted: &str,
) -> bool {
    match b {
        Value::MovingPoint(b) => is_decision(
            ever_within(alloc, Operand::Moving(a), Operand::Moving(b), distance),
            wanted,
        ),
        Value::Point(b) => is_decision(
            ever_within(alloc, Operand::Fixed(b), Operand::Moving(a), distance),
            wanted,
        ),
        _ => false,
    }
}

fn is_approach(alloc: Global, a: &Moving<PlaneLine>, b: &Value, wanted: &str) -> bool {
    match b {
        Value::MovingPoint(b) => is_answer(
            alloc,
            approach_squared(alloc, Operand::Moving(a), Operand::Moving(b)),
            wanted,
        ),
        Value::Point(b) => is_answer(
            alloc,
            approach_squared(alloc, Operand::Moving(a), Operand::Fixed(b)),
            wanted,
        ),
        _ => false,
    }
}

fn is_within_wide(
    alloc: Global,
    a: &Moving<PlaneLine>,
    b: &Value,
    distance: &Frac,
    wanted: &str,
) -> bool {
    match b {
        Value::MovingPoint(b) => is_decided(
            ever_within_wide(alloc, Operand::Moving(a), Operand::Moving(b), distance),
            wanted,
        ),
        Value::Point(b) => is_decided(
            ever_within_wide(alloc, Operand::Fixed(b), Operand::Moving(a), distance),
            wanted,
        ),
        _ => false,
    }
}

fn is_approach_wide(alloc: Global, a: &Moving<PlaneLine>, b: &Value, wanted: &str) -> bool {
    match b {
        Value::MovingPoint(b) => is_given(
            alloc,
            approach_wide(alloc, Operand::Moving(a), Operand::Moving(b)),
            wanted,
        ),
        Value::Point(b) => is_given(
            alloc,
            approach_wide(alloc, Operand::Moving(a), Operand::Fixed(b)),
            wanted,
        ),
        _ => false,
    }
}

// Whether the number is a `Frac` already, or a larger one, even if it fits.
fn is_on(path: Path, number: &Exact) -> bool {
    match path {
        Path::Small => number.as_frac().is_some(),
        Path::Large => number.as_frac().is_none(),
    }
}

fn is_least(answer: Result<Option<Exact>, AllocError>, wanted: &Wide) -> bool {
    match &answer {
        Ok(Some(square)) => is_on(wanted.1, square),
        Ok(None) => wanted.2 == "NULL",
        Err(_) => false,
    }
}

fn takes_path(alloc: Global, a: &Moving<PlaneLine>, b: &Value, wanted: &Wide) -> bool {
    match b {
        Value::MovingPoint(b) => is_least(
            least_exact(alloc, Operand::Moving(a), Operand::Moving(b)),
            wanted,
        ),
        Value::Point(b) => is_least(
            least_exact(alloc, Operand::Moving(a), Operand::Fixed(b)),
            wanted,
        ),
        _ => false,
    }
}

fn is_narrow(
    alloc: Global,
    a: &Moving<PlaneLine>,
    b: &Value,
    distance: &Frac,
    wanted: &(&'static str, &'static str),
) -> bool {
    is_within(alloc, a, b, distance, wanted.0) && is_approach(alloc, a, b, wanted.1)
}

fn is_wide(
    alloc: Global,
    a: &Moving<PlaneLine>,
    b: &Value,
    distance: &Frac,
    wanted: &Wide,
) -> bool {
    is_within_wide(alloc, a, b, distance, wanted.0)
        && is_approach_wide(alloc, a, b, wanted.2)
        && takes_path(alloc, a, b, wanted)
}

fn is_by_distance(alloc: Global, a: &Moving<PlaneLine>, b: &Value, row: &Pair) -> bool {
    match &read_value(alloc, SqlType::Numeric, row.3, &Epoch::standard()) {
        Ok(Value::Number(distance)) => {
            is_narrow(alloc, a, b, distance, &row.4) && is_wide(alloc, a, b, distance, &row.5)
        }
        _ => false,
    }
}

fn is_second(alloc: Global, a: &Moving<PlaneLine>, row: &Pair) -> bool {
    match &read_value(alloc, row.1, row.2, &Epoch::standard()) {
        Ok(b) => is_by_distance(alloc, a, b, row),
        Err(_) => false,
    }
}

fn is_pair(alloc: Global, row: &Pair) -> bool {
    match &read_value(alloc, SqlType::TPoint, row.0, &Epoch::standard()) {
        Ok(Value::MovingPoint(a)) => is_second(alloc, a, row),
        _ => false,
    }
}

#[test]
fn points_come_near(rt: HostRuntime) {
    for row in &PAIRS {
        assert!(rt; is_pair(rt.alloc(), row));
    }
}
