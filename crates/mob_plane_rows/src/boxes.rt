//! Boxes, read from their texts, tested by calls of the library, and printed again; and the boxes
//! of moving points. The epoch is 2000-01-01.

use mob_ast::SqlType;
use mob_frac::Frac;
use mob_geotext::{read_stbox, write_stbox};
use mob_literal::read_value;
use mob_scalar::{Epoch, ReadText};
use mob_stbox::StBox;
use mob_value::{Value, box_of};
use std::alloc::Global;

fn is_box(alloc: Global, found: &StBox, wanted: &str) -> bool {
    let mut into = String::new(alloc);
    write_stbox(found, &Epoch::standard(), &mut into).is_ok() && into.as_str() == wanted
}

fn is_read(alloc: Global, text: &str, wanted: &str) -> bool {
    match read_stbox(text, &Epoch::standard()) {
        Ok(found) => is_box(alloc, &found, wanted),
        Err(ReadText::NotText) => wanted == "no text",
        Err(ReadText::TooLarge) => wanted == "too large",
        Err(ReadText::Unsound) => wanted == "unsound",
        Err(_) => false,
    }
}

// A text, and the printed box of it, or why it has none.
static TEXTS: [(&'static str, &'static str); 16] = [
    ("STBOX X((0,1),(2,3))", "STBOX X((0,1),(2,3))"),
    // any two opposite corners, letters in either case, spaces
    (
        " stbox  x( ( 2 , 1/2 ) ,(0,1.5)) ",
        "STBOX X((0,1/2),(2,3/2))",
    ),
    ("STBOX X((2,3),(0,1))", "STBOX X((0,1),(2,3))"),
    // a point and an instant are boxes
    ("STBOX X((1,1),(1,1))", "STBOX X((1,1),(1,1))"),
    (
        "STBOX T([2000-01-01,2000-01-01])",
        "STBOX T([2000-01-01 00:00:00+00, 2000-01-01 00:00:00+00])",
    ),
    (
        "Stbox t ( (2000-01-01, 2000-01-02] )",
        "STBOX T((2000-01-01 00:00:00+00, 2000-01-02 00:00:00+00])",
    ),
    (
        "STBOX XT(((0,1),(2,3)),[2000-01-01,2000-01-02))",
        "STBOX XT(((0,1),(2,3)),[2000-01-01 00:00:00+00, 2000-01-02 00:00:00+00))",
    ),
    ("STBOXX((0,1),(2,3))", "no text"),
    (
        "STBOX X T(((0,1),(2,3)),[2000-01-01,2000-01-02))",
        "no text",
    ),
    ("STBOX X((0,1))", "no text"),
    ("STBOX X(((0,1),(2,3)))", "no text"),
    ("STBOX Z((0,1,2),(2,3,4))", "no text"),
    ("SRID=0;STBOX X((0,1),(2,3))", "no text"),
    ("STBOX X((0,1),(2,4611686018427387904))", "too large"),
    // whether each number fits is tested first
    (
        "STBOX XT(((0,1),(2,4611686018427387904)),[2000-01-02,2000-01-01])",
        "too large",
    ),
    ("STBOX XT(((0,1),(2,3)),[2000-01-02,2000-01-01])", "unsound"),
];

#[test]
fn boxes_are_read(rt: HostRuntime) {
    for row in &TEXTS {
        assert!(rt; is_read(rt.alloc(), row.0, row.1));
    }
}

fn is_expanded(alloc: Global, found: &StBox, by: i64, wanted: &str) -> bool {
    match Frac::new(by, 1) {
        Ok(d) => match found.expand(&d) {
            Ok(Some(wider)) => is_box(alloc, &wider, wanted),
            Ok(None) => wanted == "NULL",
            Err(_) => wanted == "F7",
        },
        Err(_) => false,
    }
}

// A box, a number, and the printed box that is expanded by this number.
static EXPANSIONS: [(&'static str, i64, &'static str); 8] = [
    (
        "STBOX XT(((0,1),(2,3)),[2000-01-01,2000-01-02))",
        1,
        "STBOX XT(((-1,0),(3,4)),[2000-01-01 00:00:00+00, 2000-01-02 00:00:00+00))",
    ),
    ("STBOX X((0,1),(2,3))", 0, "STBOX X((0,1),(2,3))"),
    // inward, down to a point
    ("STBOX X((0,1),(2,4))", -1, "STBOX X((1,2),(1,3))"),
    ("STBOX X((0,1),(2,4))", -2, "NULL"),
    ("STBOX T([2000-01-01,2000-01-02])", 1, "NULL"),
    // a side that does not fit
    ("STBOX X((0,0),(4611686018427387903,0))", 1, "F7"),
    ("STBOX X((0,-4611686018427387903),(0,0))", 1, "F7"),
    // even if no box would be left
    (
        "STBOX X((4611686018427387903,0),(4611686018427387903,0))",
        -1,
        "F7",
    ),
];

fn is_expansion(alloc: Global, row: &(&'static str, i64, &'static str)) -> bool {
    match &read_stbox(row.0, &Epoch::standard()) {
        Ok(found) => is_expanded(alloc, found, row.1, row.2),
        Err(_) => false,
    }
}

#[test]
fn boxes_are_expanded(rt: HostRuntime) {
    for row in &EXPANSIONS {
        assert!(rt; is_expansion(rt.alloc(), row));
    }
}

// Two boxes, whether they overlap, whether the first contains the second, and whether they are
// equal.
type Pair = (&'static str, &'static str, bool, bool, bool);

static PAIRS: [Pair; 10] = [
    (
        "STBOX X((0,0),(2,2))",
        "STBOX X((2,2),(3,3))",
        true,
        false,
        false,
    ),
    (
        "STBOX X((0,0),(2,2))",
        "STBOX X((1,3),(2,4))",
        false,
        false,
        false,
    ),
    (
        "STBOX X((0,0),(2,2))",
        "STBOX X((0,1),(2,2))",
        true,
        true,
        false,
    ),
    (
        "STBOX X((0,0),(2,2))",
        "STBOX X((2,0),(0,2))",
        true,
        true,
        true,
    ),
    (
        "STBOX T([2000-01-01,2000-01-02))",
        "STBOX T([2000-01-02,2000-01-03])",
        false,
        false,
        false,
    ),
    (
        "STBOX T([2000-01-01,2000-01-02])",
        "STBOX T((2000-01-01,2000-01-02))",
        true,
        true,
        false,
    ),
    (
        "STBOX T((2000-01-01,2000-01-02))",
        "STBOX T([2000-01-01,2000-01-02])",
        true,
        false,
        false,
    ),
    // no common dimension, and one common dimension
    (
        "STBOX X((0,0),(2,2))",
        "STBOX T([2000-01-01,2000-01-02])",
        false,
        false,
        false,
    ),
    (
        "STBOX X((0,0),(2,2))",
        "STBOX XT(((1,1),(2,2)),[2000-01-01,2000-01-02])",
        true,
        true,
        false,
    ),
    (
        "STBOX XT(((0,0),(2,2)),[2000-01-01,2000-01-02])",
        "STBOX X((1,1),(2,2))",
        true,
        false,
        false,
    ),
];

fn lie(a: &StBox, b: &StBox, row: &Pair) -> bool {
    a.overlaps(b) == row.2 && a.contains(b) == row.3 && a.same(b) == row.4
}

fn is_pair(row: &Pair) -> bool {
    match &read_stbox(row.0, &Epoch::standard()) {
        Ok(a) => match &read_stbox(row.1, &Epoch::standard()) {
            Ok(b) => lie(a, b, row),
            Err(_) => false,
        },
        Err(_) => false,
    }
}

#[test]
fn boxes_lie(rt: HostRuntime) {
    for row in &PAIRS {
        assert!(rt; is_pair(row));
    }
}

// A trip and its box: that of all of its corners, including those where it turns. The rectangle is
// closed, even if the trip does not include its end.
static TRIPS: [(&'static str, &'static str); 4] = [
    (
        "[POINT(0 3)@2000-01-01, POINT(2 1)@2000-01-02)",
        "STBOX XT(((0,1),(2,3)),[2000-01-01 00:00:00+00, 2000-01-02 00:00:00+00))",
    ),
    (
        "[POINT(0 0)@2000-01-01, POINT(5 -2)@2000-01-02, POINT(1 1)@2000-01-03]",
        "STBOX XT(((0,-2),(5,1)),[2000-01-01 00:00:00+00, 2000-01-03 00:00:00+00])",
    ),
    (
        "POINT(1/2 7)@2000-01-01",
        "STBOX XT(((1/2,7),(1/2,7)),[2000-01-01 00:00:00+00, 2000-01-01 00:00:00+00])",
    ),
    (
        "{(POINT(3 3)@2000-01-01, POINT(4 4)@2000-01-02), [POINT(0 9)@2000-01-05]}",
        "STBOX XT(((0,3),(4,9)),(2000-01-01 00:00:00+00, 2000-01-05 00:00:00+00])",
    ),
];

fn is_trip(alloc: Global, row: &(&'static str, &'static str)) -> bool {
    match &read_value(alloc, SqlType::TPoint, row.0, &Epoch::standard()) {
        Ok(Value::MovingPoint(trip)) => is_box(alloc, &box_of(trip), row.1),
        _ => false,
    }
}

#[test]
fn trips_have_boxes(rt: HostRuntime) {
    for row in &TRIPS {
        assert!(rt; is_trip(rt.alloc(), row));
    }
}
