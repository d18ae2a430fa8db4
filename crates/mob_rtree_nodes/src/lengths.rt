//! Approximate lengths of the sides of boxes, in units of 2^-62. They choose where an entry is
//! inserted. No clause speaks of them: a tree finds the same entries wherever they are. Lengths
//! distinguish boxes without area too, such as those of points.

use mob_frac::Frac;
use mob_span::Span;
use mob_stbox::{Area, StBox};

/// How many of these units make 1.
pub const PARTS: i128 = 4611686018427387904;

/// The fraction, rounded to these units.
pub fn rounded(f: &Frac) -> i128 {
    let parts = (f.num() as i128).saturating_mul(PARTS);
    if f.den() == 1 {
        return parts;
    }
    parts.checked_div(f.den() as i128).unwrap_or(0)
}

/// How far the second number is above the first; 0 if it is not.
fn past(from: &Frac, to: &Frac) -> i128 {
    if from.is_before(to) {
        return rounded(to).saturating_sub(rounded(from));
    }
    0
}

/// How much longer the sides of an area become if it also covers another.
fn area_growth(a: &Area, b: &Area) -> i128 {
    let x = past(&b.xmin, &a.xmin).saturating_add(past(&a.xmax, &b.xmax));
    let y = past(&b.ymin, &a.ymin).saturating_add(past(&a.ymax, &b.ymax));
    x.saturating_add(y)
}

/// How much longer a span becomes if it also covers another.
fn span_growth(s: &Span, r: &Span) -> i128 {
    past(r.lower(), s.lower()).saturating_add(past(s.upper(), r.upper()))
}

/// How much longer the sides of a box become if it also covers another.
pub fn growth(b: &StBox, other: &StBox) -> i128 {
    let space = match (b.space(), other.space()) {
        (Some(x), Some(y)) => area_growth(x, y),
        _ => 0,
    };
    match (b.time(), other.time()) {
        (Some(s), Some(r)) => space.saturating_add(span_growth(s, r)),
        _ => space,
    }
}

/// The axes of a box: two of space, one of time.
#[derive(Clone, Copy)]
pub enum Axis {
    X,
    Y,
    Time,
}

/// The two ends of a box along an axis; 0 if it has none.
pub fn ends_of(b: &StBox, axis: Axis) -> (Frac, Frac) {
    match (axis, b.space(), b.time()) {
        (Axis::X, Some(area), _) => (area.xmin, area.xmax),
        (Axis::Y, Some(area), _) => (area.ymin, area.ymax),
        (Axis::Time, _, Some(span)) => (*span.lower(), *span.upper()),
        _ => (Frac::zero(), Frac::zero()),
    }
}

/// Twice the middle of a box along an axis.
pub fn middle_of(b: &StBox, axis: Axis) -> i128 {
    let (least, greatest) = ends_of(b, axis);
    rounded(&least).saturating_add(rounded(&greatest))
}

/// The length of a box along an axis.
fn length_of(b: &StBox, axis: Axis) -> u128 {
    let (least, greatest) = ends_of(b, axis);
    rounded(&greatest).abs_diff(rounded(&least))
}

/// The axis of its longest side.
pub fn longest(b: &StBox) -> Axis {
    let x = length_of(b, Axis::X);
    let y = length_of(b, Axis::Y);
    let time = length_of(b, Axis::Time);
    if x >= y && x >= time {
        Axis::X
    } else if y >= time {
        Axis::Y
    } else {
        Axis::Time
    }
}
