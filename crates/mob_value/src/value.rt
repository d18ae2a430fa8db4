//! The values of SQL.
ghost use Rattle.std.specs.Prelude.{◌≡◌, IfOk, OnErr, true};
ghost use Rattle.mob_value.specs.Memory.{holds_memory};

use crate::boxed::Boxed;
use crate::copies::copy_moving;
use mob_frac::Frac;
use mob_list::text::Text;
use mob_plane::{Point, Polygon};
use mob_slice::{Line, Moving, PlaneLine, Steady};
use mob_span::{Span, SpanSet};
use mob_stbox::StBox;
use std::alloc::{AllocError, Global};

/// A value of SQL, or NULL.
///
/// An int is a number with denominator 1, and so is each value of a tint. A moment is in seconds
/// since midnight UTC of the epoch day.
#[derive(Drop)]
pub enum Value {
    /// NULL, of any type.
    Null,
    /// A bool.
    Bool(bool),
    /// An int or a numeric.
    Number(Frac),
    /// A text.
    Text(Text),
    /// A timestamptz, in seconds since midnight UTC of the epoch day.
    Moment(Frac),
    /// A geometry(Point).
    Point(Point),
    /// A geometry(Polygon).
    Polygon(Polygon),
    /// A tstzspan.
    Span(Boxed<Span>),
    /// A tstzspanset.
    SpanSet(SpanSet),
    /// An stbox.
    Box(Boxed<StBox>),
    /// A tbool.
    MovingBool(Moving<Steady<bool>>),
    /// A tint.
    MovingInt(Moving<Steady<Frac>>),
    /// A tfrac.
    MovingFrac(Moving<Line>),
    /// A ttext.
    MovingText(Moving<Steady<Text>>),
    /// A tgeompoint.
    MovingPoint(Moving<PlaneLine>),
}

// A table has a cell for each row and column, so larger variants are boxed.
const _: () = prove!(size_of::<Value>() <= 40);

impl Value {
    /// A copy. It allocates only for values that hold memory: a text, a polygon, a span, a span
    /// set, a box, or a value over time. An error means that an allocation failed.
    pub fn copy(&self, alloc: Global) -> Result<Value, AllocError>
        ensures same { IfOk result (λ copy. copy ≡ self.now) }
        ensures memory { OnErr result (holds_memory self.now ≡ true) }
    {
        match self {
            Value::Null => Ok(Value::Null),
            Value::Bool(truth) => Ok(Value::Bool(*truth)),
            Value::Number(number) => Ok(Value::Number(*number)),
            Value::Text(text) => Ok(Value::Text(text.copy(alloc)?)),
            Value::Moment(instant) => Ok(Value::Moment(*instant)),
            Value::Point(point) => Ok(Value::Point(*point)),
            Value::Polygon(polygon) => Ok(Value::Polygon(polygon.copy(alloc)?)),
            Value::Span(span) => Ok(Value::Span(Boxed::new(alloc, *span.get())?)),
            Value::SpanSet(set) => Ok(Value::SpanSet(set.copy(alloc)?)),
            Value::Box(area) => Ok(Value::Box(Boxed::new(alloc, *area.get())?)),
            Value::MovingBool(moving) => Ok(Value::MovingBool(copy_moving(alloc, moving)?)),
            Value::MovingInt(moving) => Ok(Value::MovingInt(copy_moving(alloc, moving)?)),
            Value::MovingFrac(moving) => Ok(Value::MovingFrac(copy_moving(alloc, moving)?)),
            Value::MovingText(moving) => Ok(Value::MovingText(copy_moving(alloc, moving)?)),
            Value::MovingPoint(moving) => Ok(Value::MovingPoint(copy_moving(alloc, moving)?)),
        }
    }
}
