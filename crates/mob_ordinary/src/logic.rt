//! Three-valued logic, as in PostgreSQL, and the test of NULL.
ghost use Rattle.std.specs.Prelude.{◌≡◌, not, cond, true, false, None, Some, option_map};
ghost use Rattle.mob_ordinary.specs.Ordinary.{truth_of, conjunction, disjunction, is_null, is_true_value};

use mob_value::Value;

/// The truth value of a value; `None` if it is NULL or not a truth value.
pub fn truth_of(value: &Value) -> Option<bool>
    ensures value { result ≡ truth_of value.now }
{
    match value {
        Value::Bool(truth) => Some(*truth),
        _ => None,
    }
}

/// AND: false if one operand is false, true if both are true.
pub fn conjunction(left: Option<bool>, right: Option<bool>) -> Option<bool>
    ensures value { result ≡ conjunction left right }
{
    match (left, right) {
        (Some(left), Some(right)) => Some(left && right),
        (Some(truth), None) => if_false(truth),
        (None, Some(truth)) => if_false(truth),
        (None, None) => None,
    }
}

/// OR: true if one operand is true, false if both are false.
pub fn disjunction(left: Option<bool>, right: Option<bool>) -> Option<bool>
    ensures value { result ≡ disjunction left right }
{
    match (left, right) {
        (Some(left), Some(right)) => Some(left || right),
        (Some(truth), None) => if_true(truth),
        (None, Some(truth)) => if_true(truth),
        (None, None) => None,
    }
}

fn if_false(truth: bool) -> Option<bool>
    ensures value { result ≡ cond truth None (Some false) }
{
    if truth { None } else { Some(false) }
}

fn if_true(truth: bool) -> Option<bool>
    ensures value { result ≡ cond truth (Some true) None }
{
    if truth { Some(true) } else { None }
}

/// The opposite truth value.
pub fn negation(truth: Option<bool>) -> Option<bool>
    ensures value { result ≡ option_map not truth }
{
    match truth {
        Some(truth) => Some(!truth),
        None => None,
    }
}

/// Whether a value is NULL.
pub fn is_null(value: &Value) -> bool
    ensures value { result ≡ is_null value.now }
{
    matches!(value, Value::Null)
}

/// Whether a value is true.
pub fn is_true_value(value: &Value) -> bool
    ensures value { result ≡ is_true_value value.now }
{
    match value {
        Value::Bool(truth) => *truth,
        _ => false,
    }
}
