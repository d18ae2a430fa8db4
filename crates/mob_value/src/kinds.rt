//! Optional temporal and base values as values of SQL, where `None` is NULL.
ghost use Rattle.std.specs.Prelude.{◌≡◌, MatchOption};
ghost use Rattle.mob_ratio.specs.Order.{same};
ghost use Rattle.mob_span.specs.Flags.{same_bool};
ghost use Rattle.mob_slice.specs.Sameness.{same_bytes};
ghost use Rattle.mob_slice.specs.CourseOf.{steady_course, line_course, plane_course};
ghost use Rattle.mob_value.specs.declared.value.Value.TheVariants.{Number as NumberOf, Text as TextOf, Point as PointOf, MovingBool, MovingInt, MovingFrac, MovingText, MovingPoint};
ghost use Rattle.mob_value.specs.Moving.{or_nothing, AreNormalBy};
ghost use Rattle.mob_value.specs.Truths.{known};

use crate::value::Value;
use mob_frac::Frac;
use mob_list::text::Text;
use mob_plane::Point;
use mob_slice::{Line, Moving, PlaneLine, Steady};

/// A tbool, or NULL for None.
pub fn bool_or_null(value: Option<Moving<Steady<bool>>>) -> Value
    ensures value { result ≡ or_nothing MovingBool value }
    ensures normal { MatchOption value (Unit {0}) (AreNormalBy (steady_course same_bool)) }
{
    match value {
        Some(moving) => {
            // The clause of `slices` says that they are normal.
            let _ = moving.slices();
            Value::MovingBool(moving)
        }
        None => Value::Null,
    }
}

/// A tint, or NULL for None.
pub fn int_or_null(value: Option<Moving<Steady<Frac>>>) -> Value
    ensures value { result ≡ or_nothing MovingInt value }
    ensures normal { MatchOption value (Unit {0}) (AreNormalBy (steady_course same)) }
{
    match value {
        Some(moving) => {
            // The clause of `slices` says that they are normal.
            let _ = moving.slices();
            Value::MovingInt(moving)
        }
        None => Value::Null,
    }
}

/// A tfrac, or NULL for None.
pub fn frac_or_null(value: Option<Moving<Line>>) -> Value
    ensures value { result ≡ or_nothing MovingFrac value }
    ensures normal { MatchOption value (Unit {0}) (AreNormalBy line_course) }
{
    match value {
        Some(moving) => {
            // The clause of `slices` says that they are normal.
            let _ = moving.slices();
            Value::MovingFrac(moving)
        }
        None => Value::Null,
    }
}

/// A ttext, or NULL for None.
pub fn text_or_null(value: Option<Moving<Steady<Text>>>) -> Value
    ensures value { result ≡ or_nothing MovingText value }
    ensures normal { MatchOption value (Unit {0}) (AreNormalBy (steady_course same_bytes)) }
{
    match value {
        Some(moving) => {
            // The clause of `slices` says that they are normal.
            let _ = moving.slices();
            Value::MovingText(moving)
        }
        None => Value::Null,
    }
}

/// A tgeompoint, or NULL for None.
pub fn point_or_null(value: Option<Moving<PlaneLine>>) -> Value
    ensures value { result ≡ or_nothing MovingPoint value }
    ensures normal { MatchOption value (Unit {0}) (AreNormalBy plane_course) }
{
    match value {
        Some(moving) => {
            // The clause of `slices` says that they are normal.
            let _ = moving.slices();
            Value::MovingPoint(moving)
        }
        None => Value::Null,
    }
}

/// A number, or NULL for None.
pub fn plain_number(value: Option<Frac>) -> Value
    ensures value { result ≡ or_nothing NumberOf value }
{
    match value {
        Some(number) => Value::Number(number),
        None => Value::Null,
    }
}

/// A text, or NULL for None.
pub fn plain_text(value: Option<Text>) -> Value
    ensures value { result ≡ or_nothing TextOf value }
{
    match value {
        Some(text) => Value::Text(text),
        None => Value::Null,
    }
}

/// A point, or NULL for None.
pub fn plain_point(value: Option<Point>) -> Value
    ensures value { result ≡ or_nothing PointOf value }
{
    match value {
        Some(point) => Value::Point(point),
        None => Value::Null,
    }
}

/// A truth value, or NULL for None.
pub fn known(truth: Option<bool>) -> Value
    ensures value { result ≡ known truth }
{
    match truth {
        Some(truth) => Value::Bool(truth),
        None => Value::Null,
    }
}
