//! The instants at which a temporal value is defined.
ghost use Rattle.std.specs.Prelude.{IfOk};
ghost use Rattle.mob_slice.specs.Slices.{value_at};
ghost use Rattle.mob_restrict.specs.Sql.Times.{IsTimeOf, IsDefinedTime};

use crate::defined::get_time;
use mob_slice::{Course, Moving};
use mob_value::Value;
use std::alloc::{AllocError, Global};

fn time_of<C: Course>(alloc: Global, a: &Moving<C>) -> Result<Value, AllocError>
    ensures value { IfOk result (λ v. IsTimeOf (value_at C.value_of a.now) v) }
{
    Ok(Value::SpanSet(get_time(alloc, a)?))
}

/// getTime: the instants at which a value is defined.
pub fn defined_time(alloc: Global, value: &Value) -> Result<Value, AllocError>
    ensures value { IfOk result (λ v. IsDefinedTime value.now v) }
{
    match value {
        Value::MovingBool(a) => time_of(alloc, a),
        Value::MovingInt(a) => time_of(alloc, a),
        Value::MovingFrac(a) => time_of(alloc, a),
        Value::MovingText(a) => time_of(alloc, a),
        Value::MovingPoint(a) => time_of(alloc, a),
        _ => Ok(Value::Null),
    }
}
