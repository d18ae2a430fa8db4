//! Polygons, read from their texts, copied and printed; the parts of a moving point inside and
//! outside of one, and whether it is ever inside. The epoch is 2000-01-01.

use crate::printed::{is_left, is_settled};
use mob_ast::SqlType;
use mob_clip::{at_polygon, ever_inside, minus_polygon};
use mob_geotext::{read_polygon, write_polygon};
use mob_literal::read_value;
use mob_plane::Polygon;
use mob_scalar::{Epoch, ReadText};
use mob_slice::{Moving, PlaneLine};
use mob_value::Value;
use std::alloc::Global;

fn is_polygon(alloc: Global, polygon: &Polygon, wanted: &str) -> bool {
    let mut into = String::new(alloc);
    write_polygon(polygon, &mut into).is_ok() && into.as_str() == wanted
}

fn is_copied(alloc: Global, polygon: &Polygon, wanted: &str) -> bool {
    match &polygon.copy(alloc) {
        Ok(copy) => is_polygon(alloc, copy, wanted),
        Err(_) => false,
    }
}

fn is_read(alloc: Global, text: &str, wanted: &str) -> bool {
    match &read_polygon(alloc, text) {
        Ok(polygon) => is_polygon(alloc, polygon, wanted) && is_copied(alloc, polygon, wanted),
        Err(ReadText::NotText) => wanted == "no text",
        Err(ReadText::TooLarge) => wanted == "too large",
        Err(ReadText::Unsound) => wanted == "unsound",
        Err(_) => false,
    }
}

// A text, and the printed polygon of it, or why it has none.
static TEXTS: [(&'static str, &'static str); 10] = [
    (
        "POLYGON((2 0,3 1,2 2,1 1,2 0))",
        "POLYGON((2 0,3 1,2 2,1 1,2 0))",
    ),
    // letters in either case, and spaces
    (
        " srid=0 ; polygon ( ( 0 0 , 1 0 , 0 1 , 0 0 ) ) ",
        "POLYGON((0 0,1 0,0 1,0 0))",
    ),
    // two rings, and numbers that are not whole
    (
        "POLYGON((0 0,9 0,9 9,0 0),(1/2 1,2 1,2 2,0.5 1))",
        "POLYGON((0 0,9 0,9 9,0 0),(1/2 1,2 1,2 2,1/2 1))",
    ),
    ("POLYGON(0 0,1 0,0 1,0 0)", "no text"),
    ("POLYGON()", "no text"),
    ("SRID=4326;POLYGON((0 0,1 0,0 1,0 0))", "no text"),
    ("POLYGON((0 0,1 0,0 4611686018427387904,0 0))", "too large"),
    // whether each number fits is tested before short and open rings
    ("POLYGON((0 0,4611686018427387904 1))", "too large"),
    ("POLYGON((0 0,1 0,0 1,0 0),(1 1,2 1,1 1))", "unsound"),
    ("POLYGON((0 0,1 0,0 1,0 2))", "unsound"),
];

#[test]
fn polygons_are_read(rt: HostRuntime) {
    for row in &TEXTS {
        assert!(rt; is_read(rt.alloc(), row.0, row.1));
    }
}

// A moving point, a polygon, the part inside, the part outside, and whether it is ever inside.
type Clip = (
    &'static str,
    &'static str,
    &'static str,
    &'static str,
    &'static str,
);

static CLIPS: [Clip; 12] = [
    // on a corner only at 2
    (
        "[POINT(0 0)@2000-01-01 00:00:00, POINT(4 0)@2000-01-01 00:00:04]",
        "POLYGON((2 0,3 1,2 2,1 1,2 0))",
        "POINT(2 0)@2000-01-01 00:00:02+00",
        "{[POINT(0 0)@2000-01-01 00:00:00+00, POINT(2 0)@2000-01-01 00:00:02+00), (POINT(2 0)@2000-01-01 00:00:02+00, POINT(4 0)@2000-01-01 00:00:04+00]}",
        "t",
    ),
    // it would reach the corner at the end that is not included
    (
        "[POINT(0 0)@2000-01-01 00:00:00, POINT(2 0)@2000-01-01 00:00:02)",
        "POLYGON((2 0,3 1,2 2,1 1,2 0))",
        "NULL",
        "[POINT(0 0)@2000-01-01 00:00:00+00, POINT(2 0)@2000-01-01 00:00:02+00)",
        "f",
    ),
    // through a hole, whose edge belongs to the polygon
    (
        "[POINT(-1 5)@2000-01-01 00:00:00, POINT(11 5)@2000-01-01 00:00:12]",
        "POLYGON((0 0,10 0,10 10,0 10,0 0),(4 4,6 4,6 6,4 6,4 4))",
        "{[POINT(0 5)@2000-01-01 00:00:01+00, POINT(4 5)@2000-01-01 00:00:05+00], [POINT(6 5)@2000-01-01 00:00:07+00, POINT(10 5)@2000-01-01 00:00:11+00]}",
        "{[POINT(-1 5)@2000-01-01 00:00:00+00, POINT(0 5)@2000-01-01 00:00:01+00), (POINT(4 5)@2000-01-01 00:00:05+00, POINT(6 5)@2000-01-01 00:00:07+00), (POINT(10 5)@2000-01-01 00:00:11+00, POINT(11 5)@2000-01-01 00:00:12+00]}",
        "t",
    ),
    // along an edge and on, level with two corners
    (
        "[POINT(-2 0)@2000-01-01 00:00:00, POINT(6 0)@2000-01-01 00:00:08]",
        "POLYGON((0 0,4 0,4 4,0 4,0 0))",
        "[POINT(0 0)@2000-01-01 00:00:02+00, POINT(4 0)@2000-01-01 00:00:06+00]",
        "{[POINT(-2 0)@2000-01-01 00:00:00+00, POINT(0 0)@2000-01-01 00:00:02+00), (POINT(4 0)@2000-01-01 00:00:06+00, POINT(6 0)@2000-01-01 00:00:08+00]}",
        "t",
    ),
    // along the last edge of the ring, all of it
    (
        "[POINT(0 4)@2000-01-01 00:00:00, POINT(0 0)@2000-01-01 00:00:04]",
        "POLYGON((0 0,4 0,4 4,0 4,0 0))",
        "[POINT(0 4)@2000-01-01 00:00:00+00, POINT(0 0)@2000-01-01 00:00:04+00]",
        "NULL",
        "t",
    ),
    // never inside, at one instant
    (
        "POINT(5 5)@2000-01-01 00:00:00",
        "POLYGON((0 0,4 0,4 4,0 4,0 0))",
        "NULL",
        "POINT(5 5)@2000-01-01 00:00:00+00",
        "f",
    ),
    // the difference to a corner is -2^62
    (
        "POINT(-4611686018427387903 0)@2000-01-01 00:00:00",
        "POLYGON((1 0,3 0,0 3,1 0))",
        "F2",
        "F2",
        "F2",
    ),
    // the first product of the first turn is 9 * 10^18
    (
        "POINT(3000000000 3000000000)@2000-01-01 00:00:00",
        "POLYGON((0 0,3000000000 0,0 3000000000,0 0))",
        "F4",
        "F4",
        "F4",
    ),
    // all differences come before the first turn, at both ends
    (
        "[POINT(3000000000 3000000000)@2000-01-01 00:00:00, POINT(4611686018427387903 0)@2000-01-01 00:00:01]",
        "POLYGON((0 0,3000000000 0,0 3000000000,-1 0,0 0))",
        "F2",
        "F2",
        "F2",
    ),
    // the turn with the first edge goes from 2^62 - 1 to -1, so its root needs a difference of 2^62
    (
        "[POINT(-4611686018427387903 0)@2000-01-01 00:00:00, POINT(1 0)@2000-01-01 00:00:02]",
        "POLYGON((0 0,0 1,-1 0,0 0))",
        "F3",
        "F3",
        "F3",
    ),
    // at x = 0, after a fifth of the time, y is 1/(5 * 10^18), also if the point passes the x of a
    // corner and is never inside
    (
        "[POINT(-1 0)@2000-01-01 00:00:00, POINT(4 1/1000000000000000000)@2000-01-01 00:00:01]",
        "POLYGON((0 1,2 1,2 2,0 2,0 1))",
        "F1",
        "F1",
        "F1",
    ),
    // a first part that is inside decides the answer, but not which formula overflows
    (
        "{[POINT(1 1)@2000-01-01 00:00:00, POINT(2 2)@2000-01-01 00:00:01], [POINT(-4611686018427387903 0)@2000-01-01 00:00:02]}",
        "POLYGON((0 0,4 0,4 4,0 4,0 0))",
        "F2",
        "F2",
        "F2",
    ),
];

fn is_clip(alloc: Global, trip: &Moving<PlaneLine>, by: &Polygon, row: &Clip) -> bool {
    is_left(alloc, at_polygon(alloc, trip, by), row.2)
        && is_left(alloc, minus_polygon(alloc, trip, by), row.3)
        && is_settled(ever_inside(alloc, trip, by), row.4)
}

fn is_by_polygon(alloc: Global, trip: &Moving<PlaneLine>, row: &Clip) -> bool {
    match &read_polygon(alloc, row.1) {
        Ok(by) => is_clip(alloc, trip, by, row),
        Err(_) => false,
    }
}

fn is_clipped(alloc: Global, row: &Clip) -> bool {
    match &read_value(alloc, SqlType::TPoint, row.0, &Epoch::standard()) {
        Ok(Value::MovingPoint(trip)) => is_by_polygon(alloc, trip, row),
        _ => false,
    }
}

#[test]
fn polygons_clip(rt: HostRuntime) {
    for row in &CLIPS {
        assert!(rt; is_clipped(rt.alloc(), row));
    }
}
