//! One dimension of two boxes, each of which has it or lacks it.
ghost use Rattle.std.specs.Prelude.{◌≡◌, ◌&&◌, ◌||◌, true, Option};
ghost use Rattle.mob_span.specs.Neighbours.{is_inside};
ghost use Rattle.mob_stbox.specs.Areas.{areas_meet, area_over, area_cover, same_area};
ghost use Rattle.mob_stbox.specs.Boxes.{both_have, where_both, spans_meet, lies_in, of_both, span_cover, same_span, same_part};

use crate::area::Area;
use mob_span::{Span, same_bool};

// Whether both have space, or both have time.
pub(crate) fn is_shared(
    a: &Option<Area>,
    b: &Option<Area>,
    s: &Option<Span>,
    r: &Option<Span>,
) -> bool
    ensures value { result ≡ (both_have a.now b.now || both_have s.now r.now) }
{
    (a.is_some() && b.is_some()) || (s.is_some() && r.is_some())
}

// Whether two areas share a point, or one is missing.
pub(crate) fn spaces_meet(a: &Option<Area>, b: &Option<Area>) -> bool
    ensures value { result ≡ where_both areas_meet a.now b.now }
{
    match (a, b) {
        (Some(x), Some(y)) => x.meets(y),
        _ => true,
    }
}

// Whether two spans share an instant, or one is missing.
pub(crate) fn times_meet(s: &Option<Span>, r: &Option<Span>) -> bool
    ensures value { result ≡ where_both spans_meet s.now r.now }
{
    match (s, r) {
        (Some(x), Some(y)) => x.overlaps(y),
        _ => true,
    }
}

// Whether the second area exists and lies in the first, or the first is missing.
pub(crate) fn is_space_over(a: &Option<Area>, b: &Option<Area>) -> bool
    ensures value { result ≡ lies_in area_over a.now b.now }
{
    match (a, b) {
        (None, _) => true,
        (Some(x), Some(y)) => x.is_over(y),
        (Some(_), None) => false,
    }
}

// Whether the second span exists and lies in the first, or the first is missing.
pub(crate) fn is_time_over(s: &Option<Span>, r: &Option<Span>) -> bool
    ensures value { result ≡ lies_in is_inside s.now r.now }
{
    match (s, r) {
        (None, _) => true,
        (Some(x), Some(y)) => is_span_over(x, y),
        (Some(_), None) => false,
    }
}

// Whether every instant of the second span is in the first.
fn is_span_over(s: &Span, r: &Span) -> bool
    ensures value { result ≡ is_inside s.now r.now }
{
    (s.lower().is_before(r.lower())
        || (!r.lower().is_before(s.lower()) && (s.lower_inc() || !r.lower_inc())))
        && (r.upper().is_before(s.upper())
            || (!s.upper().is_before(r.upper()) && (s.upper_inc() || !r.upper_inc())))
}

// The smallest area that contains both, if both exist.
pub(crate) fn space_cover(a: &Option<Area>, b: &Option<Area>) -> Option<Area>
    ensures value { result ≡ of_both area_cover a.now b.now }
{
    match (a, b) {
        (Some(x), Some(y)) => Some(x.cover(y)),
        _ => None,
    }
}

// The smallest span that contains both, if both exist.
pub(crate) fn time_cover(s: &Option<Span>, r: &Option<Span>) -> Option<Span>
    ensures value { result ≡ of_both span_cover s.now r.now }
{
    match (s, r) {
        (Some(x), Some(y)) => Some(span_cover(x, y)),
        _ => None,
    }
}

// From the earlier start to the later end.
fn span_cover(s: &Span, r: &Span) -> Span
    ensures value { result ≡ span_cover s.now r.now }
{
    let (lower, lower_inc) = if r.starts_before(s) {
        (*r.lower(), r.lower_inc())
    } else {
        (*s.lower(), s.lower_inc())
    };
    let (upper, upper_inc) = if s.ends_before(r) {
        (*r.upper(), r.upper_inc())
    } else {
        (*s.upper(), s.upper_inc())
    };
    match Span::new(lower, upper, lower_inc, upper_inc) {
        Some(span) => span,
        None => unreachable!(),
    }
}

// Whether both areas are missing, or both exist with the same sides.
pub(crate) fn is_same_space(a: &Option<Area>, b: &Option<Area>) -> bool
    ensures value { result ≡ same_part same_area a.now b.now }
{
    match (a, b) {
        (None, None) => true,
        (Some(x), Some(y)) => x.is_same(y),
        (None, Some(_)) => false,
        (Some(_), None) => false,
    }
}

// Whether both spans are missing, or both exist with the same ends.
pub(crate) fn is_same_time(s: &Option<Span>, r: &Option<Span>) -> bool
    ensures value { result ≡ same_part same_span s.now r.now }
{
    match (s, r) {
        (None, None) => true,
        (Some(x), Some(y)) => is_same_span(x, y),
        (None, Some(_)) => false,
        (Some(_), None) => false,
    }
}

fn is_same_span(s: &Span, r: &Span) -> bool
    ensures value { result ≡ same_span s.now r.now }
{
    s.lower().is_same(r.lower())
        && s.upper().is_same(r.upper())
        && (same_bool(s.lower_inc(), r.lower_inc()) && same_bool(s.upper_inc(), r.upper_inc()))
}
