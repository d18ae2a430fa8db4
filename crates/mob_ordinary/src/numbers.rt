//! Plain numbers.
ghost use Rattle.std.specs.Prelude.{◌≡◌};
ghost use Rattle.mob_ordinary.specs.Ordinary.{negated, unchanged};

use mob_frac::Frac;
use mob_value::Value;

/// The negative of a number; NULL if the value is not a number.
pub fn negation(value: &Value) -> Value
    ensures value { result ≡ negated value.now }
{
    match value {
        Value::Number(a) => Value::Number(a.negate()),
        _ => Value::Null,
    }
}

/// A number unchanged; NULL if the value is not a number.
pub fn unchanged(value: &Value) -> Value
    ensures value { result ≡ unchanged value.now }
{
    match value {
        Value::Number(a) => Value::Number(*a),
        _ => Value::Null,
    }
}
