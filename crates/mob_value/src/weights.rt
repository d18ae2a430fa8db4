//! Estimates how much memory a value takes.

use crate::value::Value;
use mob_frac::Frac;
use mob_list::text::Text;
use mob_plane::Point;
use mob_slice::{Line, PlaneLine, Slice, Steady};
use mob_span::Span;
use std::mem::size_of;

// The size of this many elements, in bytes.
fn bytes(count: usize, each: usize) -> u64 {
    (count as u64).saturating_mul(each as u64)
}

fn points(rings: &[Vec<Point>]) -> u64 {
    let mut sum = 0_u64;
    for ring in rings {
        sum = sum.saturating_add(ring.len() as u64);
    }
    sum.saturating_mul(size_of::<Point>() as u64)
}

// The size of the slices of a ttext with their texts, in bytes.
fn texts(slices: &[Slice<Steady<Text>>]) -> u64 {
    let mut sum = 0_u64;
    for slice in slices {
        sum = sum.saturating_add(bytes(slice.course.value.as_str().len(), 1));
    }
    sum.saturating_add(bytes(slices.len(), size_of::<Slice<Steady<Text>>>()))
}

fn own(value: &Value) -> u64 {
    match value {
        Value::Text(text) => bytes(text.as_str().len(), 1),
        Value::Polygon(polygon) => points(polygon.rings()),
        Value::SpanSet(set) => bytes(set.spans().len(), size_of::<Span>()),
        Value::MovingBool(a) => bytes(a.slices().len(), size_of::<Slice<Steady<bool>>>()),
        Value::MovingInt(a) => bytes(a.slices().len(), size_of::<Slice<Steady<Frac>>>()),
        Value::MovingFrac(a) => bytes(a.slices().len(), size_of::<Slice<Line>>()),
        Value::MovingText(a) => texts(a.slices()),
        Value::MovingPoint(a) => bytes(a.slices().len(), size_of::<Slice<PlaneLine>>()),
        _ => 0,
    }
}

/// The approximate size of a stored value, in bytes: its parts, and 128 for everything else.
pub fn weight(value: &Value) -> u64 {
    own(value).saturating_add(128)
}
