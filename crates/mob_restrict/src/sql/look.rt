//! The value of a temporal value at one instant.
ghost use Rattle.std.specs.Prelude.{◌≡◌};
ghost use Rattle.mob_slice.specs.Entries.{IsFirst};
ghost use Rattle.mob_slice.specs.Instants.{parts_at};
ghost use Rattle.mob_slice.specs.Slices.{value_at};
ghost use Rattle.mob_restrict.specs.Sql.Times.{look_up, value_there};
ghost use Rattle.mob_restrict.specs.Sql.Entries.{look_entry, look_entries, value_parts};
ghost use Rattle.mob_value.specs.Outcomes.{IsOutcome};

use mob_frac::Frac;
use mob_list::fault::Fault;
use mob_slice::{Course, Formula, Moving};
use mob_value::Value;
use mob_value::kinds::{known, plain_number, plain_point, plain_text};
use std::alloc::Global;

// The base value at an instant, or `None` if the value is undefined there.
fn base_at<C: Course>(
    alloc: Global,
    a: &Moving<C>,
    t: &Frac,
) -> Result<Option<C::Base>, Fault<Formula>>
where
    C::Base: Drop,
    ensures outcome { IsOutcome (λ r. r ≡ value_at C.value_of a.now t.now) (IsFirst (look_entry (parts_at C.parts_of a.now t.now))) result }
{
    match a.value_at(alloc, t) {
        Ok(value) => Ok(value),
        Err(fault) => Err(fault),
    }
}

// The value of a temporal value of any type at an instant, as a value of SQL.
fn value_there(alloc: Global, value: &Value, t: &Frac) -> Result<Value, Fault<Formula>>
    ensures outcome { IsOutcome (λ v. v ≡ value_there value.now t.now) (IsFirst (look_entry (value_parts value.now t.now))) result }
{
    match value {
        Value::MovingBool(a) => Ok(known(base_at(alloc, a, t)?)),
        Value::MovingInt(a) => Ok(plain_number(base_at(alloc, a, t)?)),
        Value::MovingFrac(a) => Ok(plain_number(base_at(alloc, a, t)?)),
        Value::MovingText(a) => Ok(plain_text(base_at(alloc, a, t)?)),
        Value::MovingPoint(a) => Ok(plain_point(base_at(alloc, a, t)?)),
        _ => Ok(Value::Null),
    }
}

/// valueAtTimestamp: the base value at a moment; NULL if the value is undefined there.
pub fn look_up(alloc: Global, value: &Value, moment: &Value) -> Result<Value, Fault<Formula>>
    ensures outcome { IsOutcome (λ v. v ≡ look_up value.now moment.now) (IsFirst (look_entries value.now moment.now)) result }
{
    match moment {
        Value::Moment(t) => value_there(alloc, value, t),
        _ => Ok(Value::Null),
    }
}
