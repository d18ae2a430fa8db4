//! Operators on boxes of space and time.
ghost use Rattle.std.specs.Prelude.{◌≡◌, true, [], IfOk, MatchOption};
ghost use Rattle.std.specs.List.{flat_map};
ghost use Rattle.mob_slice.specs.Entries.{IsFirst, IsJudged};
ghost use Rattle.mob_slice.specs.Lines.{plane_value_of};
ghost use Rattle.mob_cells.specs.Restricted.{IsRestricted};
ghost use Rattle.mob_stbox.specs.Boxes.{BoxesMeet, in_box};
ghost use Rattle.mob_clip.specs.Boxes.{entries_of_box};
ghost use Rattle.mob_value.specs.declared.value.Value.TheVariants.{Null, Box as BoxValue};
ghost use Rattle.mob_clip.specs.Sql.Boxes.{IsStBox, IsOverlap, IsExpansion, moved_outward, IsBoxRestriction};
ghost use Rattle.mob_clip.specs.Sql.Entries.{OnExpansion, entries_outward, box_entries};
ghost use Rattle.mob_value.specs.Outcomes.{IsOutcome};
ghost use Rattle.mob_value.specs.Moving.{or_nothing};
ghost use Rattle.mob_value.specs.Truths.{IsTruthOf};

use crate::boxes::{at_box, minus_box};
use mob_list::fault::Fault;
use mob_slice::{Formula, Moving, PlaneLine};
use mob_stbox::StBox;
use mob_value::kinds::point_or_null;
use mob_value::{Boxed, Value, box_of, box_of_value};
use std::alloc::{AllocError, Global};

// A box as a value; NULL for `None`.
fn box_or_null(alloc: Global, area: Option<StBox>) -> Result<Value, AllocError>
    ensures value { IfOk result (λ v. v ≡ or_nothing BoxValue area) }
{
    match area {
        Some(area) => Ok(Value::Box(Boxed::new(alloc, area)?)),
        None => Ok(Value::Null),
    }
}

/// stbox: the box of a moving point.
pub fn box_value(alloc: Global, value: &Value) -> Result<Value, AllocError>
    ensures value { IfOk result (λ v. IsStBox value.now v) }
{
    match value {
        Value::MovingPoint(a) => box_or_null(alloc, Some(box_of(a))),
        _ => Ok(Value::Null),
    }
}

/// Whether two boxes meet; NULL if one is missing.
pub fn overlap_of(one: Option<StBox>, other: Option<StBox>) -> Value
    ensures value { MatchOption one (result ≡ Null) (λ a. MatchOption other (result ≡ Null) (λ b. IsTruthOf true (BoxesMeet a b) result)) }
{
    let Some(one) = one else {
        return Value::Null;
    };
    match other {
        Some(other) => Value::Bool(one.overlaps(&other)),
        None => Value::Null,
    }
}

/// `&&`: whether the boxes of two values meet.
pub fn overlap(left: &Value, right: &Value) -> Value
    ensures value { IsOverlap left.now right.now result }
{
    overlap_of(box_of_value(left), box_of_value(right))
}

// A box with each of its sides moved outward; NULL if it is missing.
fn moved(alloc: Global, area: Option<StBox>, distance: &Value) -> Result<Value, Fault<Formula>>
    ensures outcome { IsOutcome (λ v. MatchOption area (v ≡ Null) (λ b. v ≡ moved_outward b distance.now)) (λ first. MatchOption area (IsFirst [] first) (λ b. IsFirst (entries_outward b distance.now) first)) result }
{
    let Some(area) = area else {
        return Ok(Value::Null);
    };
    match distance {
        Value::Number(d) => match area.expand(d) {
            Ok(moved) => Ok(box_or_null(alloc, moved)?),
            Err(_) => Err(Fault::Because(Formula::F7)),
        },
        _ => Ok(Value::Null),
    }
}

/// expandSpace: the box of a value with each of its sides moved outward.
pub fn expansion(alloc: Global, value: &Value, distance: &Value) -> Result<Value, Fault<Formula>>
    ensures outcome { IsOutcome (IsExpansion value.now distance.now) (λ first. OnExpansion value.now distance.now (λ entries. IsFirst entries first)) result }
{
    moved(alloc, box_of_value(value), distance)
}

// The part inside the box if `want` is true, else the part outside.
fn restricted(
    alloc: Global,
    want: bool,
    a: &Moving<PlaneLine>,
    area: &StBox,
) -> Result<Option<Moving<PlaneLine>>, Fault<Formula>>
    ensures value { IfOk result (λ r. IsRestricted plane_value_of want (λ t p. in_box area.now t p) a.now r) }
    ensures first { IsJudged (flat_map (entries_of_box area.now) a.now) result }
{
    match want {
        true => at_box(alloc, a, area),
        false => minus_box(alloc, a, area),
    }
}

/// atStbox if `want` is true, minusStbox if it is false.
pub fn box_restriction(
    alloc: Global,
    want: bool,
    value: &Value,
    asked: &Value,
) -> Result<Value, Fault<Formula>>
    ensures outcome { IsOutcome (IsBoxRestriction want value.now asked.now) (IsFirst (box_entries value.now asked.now)) result }
{
    match (value, asked) {
        (Value::MovingPoint(a), Value::Box(area)) => Ok(point_or_null(restricted(
            alloc,
            want,
            a,
            area.get(),
        )?)),
        _ => Ok(Value::Null),
    }
}
