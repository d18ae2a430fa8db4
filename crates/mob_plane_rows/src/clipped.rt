//! A moving point and a box: the part inside, and the part outside. The epoch is 2000-01-01.

use crate::printed::is_left;
use mob_ast::SqlType;
use mob_clip::{at_box, minus_box};
use mob_geotext::read_stbox;
use mob_literal::read_value;
use mob_scalar::Epoch;
use mob_slice::{Moving, PlaneLine};
use mob_stbox::StBox;
use mob_value::Value;
use std::alloc::Global;

// A moving point, a box, what is inside, and what is outside.
type Clip = (&'static str, &'static str, &'static str, &'static str);

static CLIPS: [Clip; 10] = [
    // inside from 1 to 3, of which the time includes what is before 2
    (
        "[POINT(0 0)@2000-01-01 00:00:00, POINT(4 0)@2000-01-01 00:00:04]",
        "STBOX XT(((1,0),(3,0)),[2000-01-01 00:00:00, 2000-01-01 00:00:02))",
        "[POINT(1 0)@2000-01-01 00:00:01+00, POINT(2 0)@2000-01-01 00:00:02+00)",
        "{[POINT(0 0)@2000-01-01 00:00:00+00, POINT(1 0)@2000-01-01 00:00:01+00), [POINT(2 0)@2000-01-01 00:00:02+00, POINT(4 0)@2000-01-01 00:00:04+00]}",
    ),
    // on a corner only at 2
    (
        "[POINT(0 0)@2000-01-01 00:00:00, POINT(4 4)@2000-01-01 00:00:04]",
        "STBOX X((2,0),(4,2))",
        "POINT(2 2)@2000-01-01 00:00:02+00",
        "{[POINT(0 0)@2000-01-01 00:00:00+00, POINT(2 2)@2000-01-01 00:00:02+00), (POINT(2 2)@2000-01-01 00:00:02+00, POINT(4 4)@2000-01-01 00:00:04+00]}",
    ),
    // along a side
    (
        "[POINT(0 1)@2000-01-01 00:00:00, POINT(4 1)@2000-01-01 00:00:04]",
        "STBOX X((1,0),(3,1))",
        "[POINT(1 1)@2000-01-01 00:00:01+00, POINT(3 1)@2000-01-01 00:00:03+00]",
        "{[POINT(0 1)@2000-01-01 00:00:00+00, POINT(1 1)@2000-01-01 00:00:01+00), (POINT(3 1)@2000-01-01 00:00:03+00, POINT(4 1)@2000-01-01 00:00:04+00]}",
    ),
    // only a time, which does not include its first instant
    (
        "[POINT(0 0)@2000-01-01 00:00:00, POINT(4 0)@2000-01-01 00:00:04]",
        "STBOX T((2000-01-01 00:00:00, 2000-01-01 00:00:02])",
        "(POINT(0 0)@2000-01-01 00:00:00+00, POINT(2 0)@2000-01-01 00:00:02+00]",
        "{[POINT(0 0)@2000-01-01 00:00:00+00], (POINT(2 0)@2000-01-01 00:00:02+00, POINT(4 0)@2000-01-01 00:00:04+00]}",
    ),
    // it would reach the box at the end that is not included
    (
        "[POINT(0 0)@2000-01-01 00:00:00, POINT(4 4)@2000-01-01 00:00:04)",
        "STBOX X((4,4),(9,9))",
        "NULL",
        "[POINT(0 0)@2000-01-01 00:00:00+00, POINT(4 4)@2000-01-01 00:00:04+00)",
    ),
    // the difference to the west side is -2^62
    (
        "POINT(-4611686018427387903 0)@2000-01-01 00:00:00",
        "STBOX X((1,0),(2,0))",
        "F2",
        "F2",
    ),
    // the difference to a side goes from -(2^62 - 1) to 1, and these two differ by 2^62
    (
        "[POINT(-4611686018427387903 0)@2000-01-01 00:00:00, POINT(1 0)@2000-01-01 00:00:01]",
        "STBOX X((0,0),(0,0))",
        "F3",
        "F3",
    ),
    // the two ends differ by 2^62, which F1 needs where the time of the box begins, before any side
    (
        "[POINT(-4611686018427387903 0)@2000-01-01 00:00:00, POINT(1 0)@2000-01-01 00:00:02]",
        "STBOX XT(((2,0),(3,0)),[2000-01-01 00:00:01, 2000-01-01 00:00:03])",
        "F1",
        "F1",
    ),
    // and not if it begins at the point's own end
    (
        "[POINT(-4611686018427387903 0)@2000-01-01 00:00:00, POINT(1 0)@2000-01-01 00:00:02]",
        "STBOX T([2000-01-01 00:00:00, 2000-01-01 00:00:03])",
        "[POINT(-4611686018427387903 0)@2000-01-01 00:00:00+00, POINT(1 0)@2000-01-01 00:00:02+00]",
        "NULL",
    ),
    // at x = 0, after a fifth of the time, y is 1/(5 * 10^18), though nothing is in the box
    (
        "[POINT(-1 0)@2000-01-01 00:00:00, POINT(4 1/1000000000000000000)@2000-01-01 00:00:01]",
        "STBOX X((0,1),(4,1))",
        "F1",
        "F1",
    ),
];

fn is_clip(alloc: Global, trip: &Moving<PlaneLine>, by: &StBox, row: &Clip) -> bool {
    is_left(alloc, at_box(alloc, trip, by), row.2)
        && is_left(alloc, minus_box(alloc, trip, by), row.3)
}

fn is_by_box(alloc: Global, trip: &Moving<PlaneLine>, row: &Clip) -> bool {
    match &read_stbox(row.1, &Epoch::standard()) {
        Ok(by) => is_clip(alloc, trip, by, row),
        Err(_) => false,
    }
}

fn is_clipped(alloc: Global, row: &Clip) -> bool {
    match &read_value(alloc, SqlType::TPoint, row.0, &Epoch::standard()) {
        Ok(Value::MovingPoint(trip)) => is_by_box(alloc, trip, row),
        _ => false,
    }
}

#[test]
fn boxes_clip(rt: HostRuntime) {
    for row in &CLIPS {
        assert!(rt; is_clipped(rt.alloc(), row));
    }
}
