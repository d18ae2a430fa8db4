//! Stored values, read as values of a type.
ghost use Rattle.std.specs.Prelude.{◌≡◌, option_map};
ghost use Rattle.mob_value.specs.Held.{held};
ghost use Rattle.mob_value.specs.Null.{value_or_null};
ghost use Rattle.mob_value.specs.Types.{is_of_type, read_as};

use mob_ast::SqlType;
use mob_value::Value;
use mob_value::held::Held;

// Whether a value is of a type.
fn is_of_type(ty: SqlType, value: &Value) -> bool
    ensures exact { result ≡ is_of_type ty value.now }
{
    match (ty, value) {
        (_, Value::Null) => true,
        (SqlType::Bool, Value::Bool(_)) => true,
        (SqlType::Int, Value::Number(_)) => true,
        (SqlType::Numeric, Value::Number(_)) => true,
        (SqlType::Text, Value::Text(_)) => true,
        (SqlType::Moment, Value::Moment(_)) => true,
        (SqlType::Point, Value::Point(_)) => true,
        (SqlType::Span, Value::Span(_)) => true,
        (SqlType::SpanSet, Value::SpanSet(_)) => true,
        (SqlType::Polygon, Value::Polygon(_)) => true,
        (SqlType::Box, Value::Box(_)) => true,
        (SqlType::TBool, Value::MovingBool(_)) => true,
        (SqlType::TInt, Value::MovingInt(_)) => true,
        (SqlType::TFrac, Value::MovingFrac(_)) => true,
        (SqlType::TText, Value::MovingText(_)) => true,
        (SqlType::TPoint, Value::MovingPoint(_)) => true,
        _ => false,
    }
}

// A stored value, read as one of a type; a value of another type reads as NULL.
fn read_as<'a>(ty: SqlType, value: &'a Value) -> Held<'a>
    ensures value { held result ≡ read_as ty value.now }
{
    if is_of_type(ty, value) {
        Held::Stored(value)
    } else {
        Held::Made(Value::Null)
    }
}

/// A stored value, read as one of a type; a value of another type, or `None`, reads as NULL.
pub fn read_or_null<'a>(ty: SqlType, value: Option<&'a Value>) -> Held<'a>
    ensures value { held result ≡ read_as ty (value_or_null (option_map (λ v. v.now) value.entry)) }
{
    match value {
        Some(value) => read_as(ty, value),
        None => Held::Made(Value::Null),
    }
}
