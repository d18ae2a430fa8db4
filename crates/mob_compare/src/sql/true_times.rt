//! The instants at which a temporal truth value is true.
ghost use Rattle.std.specs.Prelude.{IfOk};
ghost use Rattle.mob_compare.specs.Sql.TrueTimes.{IsTrueTime};

use crate::times::when_true;
use mob_value::Value;
use std::alloc::{AllocError, Global};

/// whenTrue: the instants at which a truth value is true; NULL if there are none.
pub fn true_time(alloc: Global, value: &Value) -> Result<Value, AllocError>
    ensures value { IfOk result (λ v. IsTrueTime value.now v) }
{
    match value {
        Value::MovingBool(a) => match when_true(alloc, a) {
            Ok(Some(set)) => {
                // The clause of `spans` says that they are a span set.
                let _ = set.spans();
                Ok(Value::SpanSet(set))
            }
            Ok(None) => Ok(Value::Null),
            Err(fault) => Err(fault),
        },
        _ => Ok(Value::Null),
    }
}
