//! A temporal value at the instants at which it is a given value, or at the others.
ghost use Rattle.std.specs.Prelude.{IfOk};
ghost use Rattle.std.specs.List.{flat_map};
ghost use Rattle.mob_slice.specs.Entries.{IsFirst, IsJudged};
ghost use Rattle.mob_slice.specs.Modes.{by_mode};
ghost use Rattle.mob_slice.specs.declared.comparison.Rel.TheVariants.{Eq};
ghost use Rattle.mob_cells.specs.Restricted.{IsRestricted};
ghost use Rattle.mob_restrict.specs.Values.{entries_of_value};
ghost use Rattle.mob_restrict.specs.Sql.ByValue.{IsValueRestriction};
ghost use Rattle.mob_restrict.specs.Sql.Entries.{value_entries};
ghost use Rattle.mob_restrict.specs.Sql.Wide.{given_values, wide_value_entries};
ghost use Rattle.mob_value.specs.Outcomes.{IsOutcome};

use crate::broadly::{at_value_wide, minus_value_wide};
use crate::by_value::{at_value, minus_value};
use mob_cells::HasCoordinates;
use mob_list::fault::Fault;
use mob_slice::{Formula, Mode, Moving};
use mob_value::Value;
use mob_value::kinds::{bool_or_null, frac_or_null, int_or_null, point_or_null, text_or_null};
use std::alloc::Global;

// The part where the value is x if `want` is true, else the part where it is not.
fn cut<C: HasCoordinates + Drop>(
    alloc: Global,
    mode: Mode,
    want: bool,
    a: &Moving<C>,
    x: &C::Base,
) -> Result<Option<Moving<C>>, Fault<Formula>>
where
    C::Base: Drop,
    ensures value { IfOk result (λ r. IsRestricted C.value_of want (λ t y. C.relation Eq y x.now) a.now r) }
    ensures first { IsJudged (by_mode mode (flat_map (entries_of_value C.value_of C.parts_of C.gaps_of x.now) a.now) (flat_map (given_values C.value_of C.gaps_of (C.relation Eq) x.now) a.now)) result }
{
    match mode {
        Mode::Narrow => match want {
            true => at_value::<C>(alloc, a, x),
            false => minus_value::<C>(alloc, a, x),
        },
        Mode::Wide => match want {
            true => at_value_wide::<C>(alloc, a, x),
            false => minus_value_wide::<C>(alloc, a, x),
        },
    }
}

/// atValues if `want` is true, minusValues if it is false.
#[tactic(auto, using(crate::proofs::Widely::none_by_mode))]
pub fn value_restriction(
    alloc: Global,
    mode: Mode,
    want: bool,
    value: &Value,
    asked: &Value,
) -> Result<Value, Fault<Formula>>
    ensures outcome { IsOutcome (IsValueRestriction want value.now asked.now) (IsFirst (by_mode mode (value_entries value.now asked.now) (wide_value_entries value.now asked.now))) result }
{
    match (value, asked) {
        (Value::MovingBool(a), Value::Bool(x)) => Ok(bool_or_null(cut(alloc, mode, want, a, x)?)),
        (Value::MovingInt(a), Value::Number(x)) => Ok(int_or_null(cut(alloc, mode, want, a, x)?)),
        (Value::MovingFrac(a), Value::Number(x)) => Ok(frac_or_null(cut(alloc, mode, want, a, x)?)),
        (Value::MovingText(a), Value::Text(x)) => Ok(text_or_null(cut(alloc, mode, want, a, x)?)),
        (Value::MovingPoint(a), Value::Point(x)) => Ok(point_or_null(cut(
            alloc, mode, want, a, x,
        )?)),
        _ => Ok(Value::Null),
    }
}
