//! The coordinates of a moving point.
ghost use Rattle.std.specs.Prelude.{IfOk};
ghost use Rattle.mob_restrict.specs.Sql.Coordinates.{IsEast, IsNorth};

use crate::coordinates::{get_x, get_y};
use mob_value::Value;
use mob_value::kinds::frac_or_null;
use std::alloc::{AllocError, Global};

/// getX: the x coordinate of a moving point at each instant.
pub fn east(alloc: Global, value: &Value) -> Result<Value, AllocError>
    ensures value { IfOk result (λ v. IsEast value.now v) }
{
    match value {
        Value::MovingPoint(a) => Ok(frac_or_null(Some(get_x(alloc, a)?))),
        _ => Ok(Value::Null),
    }
}

/// getY: the y coordinate of a moving point at each instant.
pub fn north(alloc: Global, value: &Value) -> Result<Value, AllocError>
    ensures value { IfOk result (λ v. IsNorth value.now v) }
{
    match value {
        Value::MovingPoint(a) => Ok(frac_or_null(Some(get_y(alloc, a)?))),
        _ => Ok(Value::Null),
    }
}
