//! Spans between whole numbers, and sets of them.

use crate::lines::span;
use mob_frac::Frac;
use mob_span::{Span, SpanSet};
use std::alloc::Global;

// The ends of a span, and whether it includes them.
type Ends = (i64, i64, bool, bool);

fn ends_of(span: &Span) -> Ends {
    (
        span.lower().num(),
        span.upper().num(),
        span.lower_inc(),
        span.upper_inc(),
    )
}

// Two spans, and their intersection.
static MEETS: [(Ends, Ends, Option<Ends>); 2] = [
    (
        (1, 3, true, false),
        (2, 5, false, true),
        Some((2, 3, false, false)),
    ),
    ((1, 3, true, false), (3, 4, true, true), None),
];

// Two spans, and whether they overlap, the first meets the second, is separate from it, starts
// before it and ends before it.
static ORDERS: [(Ends, Ends, (bool, bool, bool, bool, bool)); 3] = [
    (
        (1, 3, true, false),
        (2, 5, false, true),
        (true, false, false, true, true),
    ),
    (
        (1, 3, true, false),
        (3, 4, true, true),
        (false, true, true, true, true),
    ),
    (
        (3, 4, true, true),
        (1, 3, true, false),
        (false, false, false, false, false),
    ),
];

fn meet(a: Ends, b: Ends) -> Option<Ends> {
    let both = span(a)?.meet(&span(b)?)?;
    Some(ends_of(&both))
}

fn order(a: &Span, b: &Span) -> (bool, bool, bool, bool, bool) {
    (
        a.overlaps(b),
        a.meets(b),
        a.is_clear(b),
        a.starts_before(b),
        a.ends_before(b),
    )
}

fn order_of(a: Ends, b: Ends) -> Option<(bool, bool, bool, bool, bool)> {
    Some(order(&span(a)?, &span(b)?))
}

// Whether a span includes the instants 2 and 3, and is longer than an instant.
fn has(ends: Ends) -> Option<(bool, bool, bool)> {
    match (span(ends), Frac::new(2, 1), Frac::new(3, 1)) {
        (Some(span), Ok(two), Ok(three)) => Some((
            span.has(&two),
            span.has(&three),
            span.is_long(),
        )),
        _ => None,
    }
}

#[test]
fn spans_between_whole_numbers(rt: HostRuntime) {
    assert!(rt; span((2, 1, true, true)).is_none());
    assert!(rt; span((1, 1, true, false)).is_none());
    assert!(rt; span((1, 2, false, false)).is_some());
    assert!(rt; has((1, 3, true, false)) == Some((true, false, true)));
    assert!(rt; has((2, 5, false, true)) == Some((false, true, true)));
}

#[test]
fn spans_that_meet_share_a_span(rt: HostRuntime) {
    for (a, b, wanted) in &MEETS {
        assert!(rt; meet(*a, *b) == *wanted);
    }
}

#[test]
fn spans_are_in_order(rt: HostRuntime) {
    for (a, b, wanted) in &ORDERS {
        assert!(rt; order_of(*a, *b) == Some(*wanted));
    }
}

// Three spans, the first and the last of the two spans of their set, and whether it includes the
// instants 2, 3 and 4.
type Joined = (Ends, Ends, Ends, Ends, Ends, (bool, bool, bool));

static SETS: [Joined; 2] = [
    // they meet at 3, and the later span is first
    (
        (5, 6, true, true),
        (3, 4, true, false),
        (1, 3, true, false),
        (1, 4, true, false),
        (5, 6, true, true),
        (true, true, false),
    ),
    // neither includes 3, and one is within the other
    (
        (3, 4, false, false),
        (2, 2, true, true),
        (1, 3, true, false),
        (1, 3, true, false),
        (3, 4, false, false),
        (true, false, false),
    ),
];

fn set_of(alloc: Global, spans: [Span; 3]) -> Option<SpanSet> {
    match Vec::from_array(alloc, spans) {
        Ok(spans) => SpanSet::of(alloc, spans).ok(),
        Err(_) => None,
    }
}

fn set(alloc: Global, a: Ends, b: Ends, c: Ends) -> Option<SpanSet> {
    set_of(alloc, [span(a)?, span(b)?, span(c)?])
}

// Whether a set includes the instants 2, 3 and 4.
fn instants(set: &SpanSet) -> Option<(bool, bool, bool)> {
    match (Frac::new(2, 1), Frac::new(3, 1), Frac::new(4, 1)) {
        (Ok(two), Ok(three), Ok(four)) => Some((set.has(&two), set.has(&three), set.has(&four))),
        _ => None,
    }
}

fn are_two(spans: &[Span], first: Ends, last: Ends) -> bool {
    match spans {
        [a, b] => ends_of(a) == first && ends_of(b) == last,
        _ => false,
    }
}

fn is_joined(alloc: Global, row: &Joined) -> bool {
    let (a, b, c, first, last, wanted) = *row;
    match &set(alloc, a, b, c) {
        Some(set) => are_two(set.spans(), first, last) && instants(set) == Some(wanted),
        None => false,
    }
}

fn is_nowhere(set: &SpanSet) -> bool {
    set.spans().is_empty() && instants(set) == Some((false, false, false))
}

fn is_none_of_none(alloc: Global) -> bool {
    match &SpanSet::of(alloc, Vec::new(alloc)) {
        Ok(set) => is_nowhere(set),
        Err(_) => false,
    }
}

#[test]
fn spans_that_touch_are_one(rt: HostRuntime) {
    for row in &SETS {
        assert!(rt; is_joined(rt.alloc(), row));
    }
    assert!(rt; is_none_of_none(rt.alloc()));
}

fn one(alloc: Global, ends: Ends) -> Option<SpanSet> {
    set(alloc, ends, ends, ends)
}

fn is_one(set: &SpanSet, wanted: Ends) -> bool {
    match set.spans() {
        [span] => ends_of(span) == wanted,
        _ => false,
    }
}

fn shares(alloc: Global, a: &SpanSet, b: &SpanSet, wanted: Ends) -> bool {
    match &a.meet(alloc, b) {
        Ok(both) => is_one(both, wanted),
        Err(_) => false,
    }
}

fn leaves(alloc: Global, a: &SpanSet, b: &SpanSet, wanted: Ends) -> bool {
    match &a.minus(alloc, b) {
        Ok(left) => is_one(left, wanted),
        Err(_) => false,
    }
}

fn parts_by(alloc: Global, a: &SpanSet, b: Ends, both: Ends, left: Ends) -> bool {
    match &one(alloc, b) {
        Some(b) => shares(alloc, a, b, both) && leaves(alloc, a, b, left),
        None => false,
    }
}

// Whether the sets of these two spans share the third span, and the fourth is only in the first.
fn parts(alloc: Global, a: Ends, b: Ends, both: Ends, left: Ends) -> bool {
    match &one(alloc, a) {
        Some(a) => parts_by(alloc, a, b, both, left),
        None => false,
    }
}

fn has_copy(alloc: Global, set: &SpanSet, wanted: Ends) -> bool {
    match &set.copy(alloc) {
        Ok(copy) => is_one(copy, wanted),
        Err(_) => false,
    }
}

fn is_copied(alloc: Global, ends: Ends) -> bool {
    match &one(alloc, ends) {
        Some(set) => has_copy(alloc, set, ends),
        None => false,
    }
}

#[test]
fn sets_share_and_leave_instants(rt: HostRuntime) {
    assert!(rt;
        parts(
            rt.alloc(),
            (0, 2, true, false),
            (1, 3, true, true),
            (1, 2, true, false),
            (0, 1, true, false)
        )
    );
    assert!(rt; is_copied(rt.alloc(), (1, 3, false, true)));
}
