//! Lines on spans between whole numbers.

use mob_frac::Frac;
use mob_plane::Point;
use mob_slice::{Compared, Course, Gaps, Line, PlaneLine, Rel};
use mob_span::Span;
use std::alloc::Global;

// The ends of a span, whether it includes them, and the limits of a line there.
type Row = (i64, i64, bool, bool, i64, i64);

// A fraction by its parts.
type Parts = (i64, i64);

/// The span with these ends, each with whether it is included.
pub fn span(ends: (i64, i64, bool, bool)) -> Option<Span> {
    match (Frac::new(ends.0, 1), Frac::new(ends.1, 1)) {
        (Ok(lower), Ok(upper)) => Span::new(lower, upper, ends.2, ends.3),
        _ => None,
    }
}

fn line(row: &Row) -> Option<(Span, Line)> {
    let (lower, upper, lower_inc, upper_inc, from, to) = *row;
    match (
        span((lower, upper, lower_inc, upper_inc)),
        Frac::new(from, 1),
        Frac::new(to, 1),
    ) {
        (Some(span), Ok(from), Ok(to)) => Some((span, Line { from, to })),
        _ => None,
    }
}

/// The fraction of these parts; `None` if the second one is 0.
pub fn fraction(parts: (i64, i64)) -> Option<Frac> {
    if parts.1 == 0 {
        return None;
    }
    Frac::new(parts.0, parts.1).ok()
}

fn parts_of(number: &Frac) -> Parts {
    (number.num(), number.den())
}

// The value of a course at an instant of its span; `None` if the span does not include the instant,
// or a part of F1 does not fit.
fn value_in<C: Course>(alloc: Global, course: &C, span: &Span, t: &Frac) -> Option<C::Base>
where
    C::Base: Drop,
{
    if !span.has(t) {
        return None;
    }
    course.at(alloc, span, t).ok()
}

fn number_at(alloc: Global, row: &Row, instant: Parts) -> Option<Parts> {
    match (line(row), fraction(instant)) {
        (Some((span, line)), Some(t)) => match value_in(alloc, &line, &span, &t) {
            Some(value) => Some(parts_of(&value)),
            None => None,
        },
        _ => None,
    }
}

static VALUES: [(Row, Parts, Option<Parts>); 6] = [
    ((0, 3, true, true, 0, 1), (1, 1), Some((1, 3))),
    ((0, 3, true, false, 0, 1), (0, 1), Some((0, 1))),
    ((0, 3, true, true, 0, 1), (3, 1), Some((1, 1))),
    // the span does not include its end
    ((0, 3, true, false, 0, 1), (3, 1), None),
    // a third of that instant does not fit
    ((0, 3, true, true, 0, 1), (1, 4611686018427387902), None),
    // if the line is level, nothing is computed
    (
        (0, 3, true, true, 5, 5),
        (1, 4611686018427387902),
        Some((5, 1)),
    ),
];

#[test]
fn lines_at_instants(rt: HostRuntime) {
    for (row, instant, wanted) in &VALUES {
        assert!(rt; number_at(rt.alloc(), row, *instant) == *wanted);
    }
}

// Whether a line continues as the next one; `None` if the next span does not begin where the first
// ends.
fn goes_on(first: &Row, next: &Row) -> Option<bool> {
    match (line(first), line(next)) {
        (Some((span, line)), Some((next_span, next_line))) => {
            if !span.meets(&next_span) {
                return None;
            }
            Some(line.continues(&span, &next_line, &next_span))
        }
        _ => None,
    }
}

static NEXT: [(Row, Row, Option<bool>); 5] = [
    (
        (0, 1, true, false, 0, 1),
        (1, 3, true, true, 1, 3),
        Some(true),
    ),
    // another slope, a jump, a gap
    (
        (0, 1, true, false, 0, 1),
        (1, 2, true, true, 1, 3),
        Some(false),
    ),
    (
        (0, 1, true, false, 0, 1),
        (1, 2, true, true, 2, 3),
        Some(false),
    ),
    ((0, 1, true, false, 0, 1), (2, 3, true, true, 2, 3), None),
    // the difference from the least number to the greatest does not fit, and is not computed
    (
        (0, 1, true, false, -4611686018427387903, 0),
        (1, 2, true, true, 0, 4611686018427387903),
        Some(true),
    ),
];

#[test]
fn lines_go_on(rt: HostRuntime) {
    for (first, next, wanted) in &NEXT {
        assert!(rt; goes_on(first, next) == *wanted);
    }
}

// The place at 1 of a point that goes from (1/2, 0) at 0 to (1/2, 9) at 3.
fn point_at_one(alloc: Global) -> Option<(Parts, Parts)> {
    match (
        line(&(0, 3, true, true, 0, 9)),
        fraction((1, 2)),
        fraction((1, 1)),
    ) {
        (Some((span, line)), Some(half), Some(one)) => {
            let course = PlaneLine {
                from: Point {
                    x: half,
                    y: line.from,
                },
                to: Point {
                    x: half,
                    y: line.to,
                },
            };
            match value_in(alloc, &course, &span, &one) {
                Some(point) => Some((parts_of(&point.x), parts_of(&point.y))),
                None => None,
            }
        }
        _ => None,
    }
}

// The difference of two numbers, and whether the first is less.
fn compared(first: Parts, next: Parts) -> Option<(Parts, bool)> {
    match (fraction(first), fraction(next)) {
        (Some(a), Some(b)) => match &Line::gaps(&a, &b) {
            Ok(Gaps::One(gap)) => Some((parts_of(gap), Line::relates(Rel::Lt, &a, &b))),
            _ => None,
        },
        _ => None,
    }
}

#[test]
fn points_and_gaps(rt: HostRuntime) {
    assert!(rt; point_at_one(rt.alloc()) == Some(((1, 2), (3, 1))));
    assert!(rt; compared((1, 2), (2, 3)) == Some(((-1, 6), true)));
}
