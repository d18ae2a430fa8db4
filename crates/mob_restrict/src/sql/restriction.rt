//! Restricts a temporal value to given instants, or to the others.
ghost use Rattle.std.specs.Prelude.{[], ◌∷◌, IfOk};
ghost use Rattle.mob_span.specs.Sets.{in_some};
ghost use Rattle.mob_slice.specs.Entries.{IsFirst, IsJudged};
ghost use Rattle.mob_cells.specs.Restricted.{IsRestricted};
ghost use Rattle.mob_restrict.specs.Sql.Times.{IsRestriction, IsTimeRestriction};
ghost use Rattle.mob_restrict.specs.Sql.Entries.{cut_entries, cuts_of, restriction_entries};
ghost use Rattle.mob_value.specs.Outcomes.{IsOutcome};

use crate::by_time::{at_time, minus_time};
use mob_cells::instant_span;
use mob_list::fault::Fault;
use mob_slice::{Course, Formula, Moving};
use mob_span::{Span, SpanSet};
use mob_value::Value;
use mob_value::kinds::{bool_or_null, frac_or_null, int_or_null, point_or_null, text_or_null};
use mob_value::sets::one_span;
use std::alloc::Global;

// The part at the instants of a set if `want` is true, else the rest.
fn cut<C: Course + Drop>(
    alloc: Global,
    want: bool,
    a: &Moving<C>,
    when: &SpanSet,
) -> Result<Option<Moving<C>>, Fault<Formula>>
where
    C::Base: Drop,
    ensures value { IfOk result (λ r. IsRestricted C.value_of want (λ t x. in_some when.now t) a.now r) }
    ensures first { IsJudged (cut_entries C.parts_of when.now a.now) result }
{
    match want {
        true => at_time(alloc, a, when),
        false => minus_time(alloc, a, when),
    }
}

// The same for a temporal value of any type.
fn restricted(
    alloc: Global,
    want: bool,
    value: &Value,
    when: &SpanSet,
) -> Result<Value, Fault<Formula>>
    ensures outcome { IsOutcome (IsRestriction want when.now value.now) (IsFirst (cuts_of when.now value.now)) result }
{
    match value {
        Value::MovingBool(a) => Ok(bool_or_null(cut(alloc, want, a, when)?)),
        Value::MovingInt(a) => Ok(int_or_null(cut(alloc, want, a, when)?)),
        Value::MovingFrac(a) => Ok(frac_or_null(cut(alloc, want, a, when)?)),
        Value::MovingText(a) => Ok(text_or_null(cut(alloc, want, a, when)?)),
        Value::MovingPoint(a) => Ok(point_or_null(cut(alloc, want, a, when)?)),
        _ => Ok(Value::Null),
    }
}

// The same for the instants of one span.
fn restricted_to_span(
    alloc: Global,
    want: bool,
    value: &Value,
    span: &Span,
) -> Result<Value, Fault<Formula>>
    ensures outcome { IsOutcome (IsRestriction want (span.now ∷ []) value.now) (IsFirst (cuts_of (span.now ∷ []) value.now)) result }
{
    let when = one_span(alloc, span)?;
    restricted(alloc, want, value, &when)
}

/// atTime if `want` is true, minusTime if it is false: the value at the instants of the second
/// operand, or at the others.
pub fn restriction(
    alloc: Global,
    want: bool,
    value: &Value,
    asked: &Value,
) -> Result<Value, Fault<Formula>>
    ensures outcome { IsOutcome (IsTimeRestriction want value.now asked.now) (IsFirst (restriction_entries value.now asked.now)) result }
{
    match asked {
        Value::Moment(t) => restricted_to_span(alloc, want, value, &instant_span(t)),
        Value::Span(span) => restricted_to_span(alloc, want, value, span.get()),
        Value::SpanSet(when) => restricted(alloc, want, value, when),
        _ => Ok(Value::Null),
    }
}
