//! How near two points come, at least one of which moves.
ghost use Rattle.std.specs.Prelude.{◌≡◌, ◌||◌, true, IfOk};
ghost use Rattle.mob_lift.specs.Sometime.{IsEver};
ghost use Rattle.mob_slice.specs.Entries.{IsFirst, IsJudged};
ghost use Rattle.mob_slice.specs.Lines.{plane_value_of};
ghost use Rattle.mob_slice.specs.Sides.{given_at, has_slices, operand_of, pieces};
ghost use Rattle.mob_near.specs.Approaches.{IsApproach};
ghost use Rattle.mob_near.specs.Distances.{are_within};
ghost use Rattle.mob_near.specs.Wide.{approach_entries_in, within_entries_in};
ghost use Rattle.mob_near.specs.Sql.Nearness.{IsEverWithin, IsNearestApproach};
ghost use Rattle.mob_near.specs.Sql.Entries.{within_entries, approach_entries};
ghost use Rattle.mob_value.specs.Outcomes.{IsOutcome};

use crate::nearness::{approach_squared, ever_within};
use crate::wide::{approach_wide, ever_within_wide};
use mob_frac::Frac;
use mob_list::fault::Fault;
use mob_slice::{Formula, Mode, Operand, PlaneLine};
use mob_value::Value;
use mob_value::kinds::{known, plain_number};
use mob_value::pair::plane_pair;
use std::alloc::Global;

// Whether the two points are within the distance of each other at some instant at which both are
// defined.
fn ever_in(
    alloc: Global,
    mode: Mode,
    a: Operand<'_, PlaneLine>,
    b: Operand<'_, PlaneLine>,
    d: &Frac,
) -> Result<Option<bool>, Fault<Formula>>
    requires moving { (has_slices (operand_of a) || has_slices (operand_of b)) ≡ true }
    ensures value { IfOk result (IsEver (are_within d.now) (given_at plane_value_of (operand_of a.entry)) (given_at plane_value_of (operand_of b.entry))) }
    ensures first { IsJudged (within_entries_in mode d.now (pieces (operand_of a.entry) (operand_of b.entry))) result }
{
    match mode {
        Mode::Narrow => match ever_within(alloc, a, b, d) {
            Ok(answer) => Ok(answer),
            Err(formula) => Err(Fault::Because(formula)),
        },
        Mode::Wide => match ever_within_wide(alloc, a, b, d) {
            Ok(answer) => Ok(answer),
            Err(_) => Err(Fault::NoMemory),
        },
    }
}

// The square of the least distance between the two points.
fn approach_in(
    alloc: Global,
    mode: Mode,
    a: Operand<'_, PlaneLine>,
    b: Operand<'_, PlaneLine>,
) -> Result<Option<Frac>, Fault<Formula>>
    requires moving { (has_slices (operand_of a) || has_slices (operand_of b)) ≡ true }
    ensures value { IfOk result (IsApproach (given_at plane_value_of (operand_of a.entry)) (given_at plane_value_of (operand_of b.entry))) }
    ensures first { IsJudged (approach_entries_in mode (pieces (operand_of a.entry) (operand_of b.entry))) result }
{
    match mode {
        Mode::Narrow => match approach_squared(alloc, a, b) {
            Ok(square) => Ok(square),
            Err(formula) => Err(Fault::Because(formula)),
        },
        Mode::Wide => approach_wide(alloc, a, b),
    }
}

/// eDwithin: whether two points are at most a distance apart at some instant at which both are
/// defined.
pub fn within(
    alloc: Global,
    mode: Mode,
    left: &Value,
    right: &Value,
    distance: &Value,
) -> Result<Value, Fault<Formula>>
    ensures outcome { IsOutcome (IsEverWithin left.now right.now distance.now) (IsFirst (within_entries mode left.now right.now distance.now)) result }
{
    let Value::Number(d) = distance else {
        return Ok(Value::Null);
    };
    match plane_pair(left, right) {
        Some((left, right)) => Ok(known(ever_in(alloc, mode, left, right, d)?)),
        None => Ok(Value::Null),
    }
}

/// nearestApproachSquared: the square of the least distance between two points.
pub fn nearest_approach(
    alloc: Global,
    mode: Mode,
    left: &Value,
    right: &Value,
) -> Result<Value, Fault<Formula>>
    ensures outcome { IsOutcome (IsNearestApproach left.now right.now) (IsFirst (approach_entries mode left.now right.now)) result }
{
    match plane_pair(left, right) {
        Some((left, right)) => Ok(plain_number(approach_in(alloc, mode, left, right)?)),
        None => Ok(Value::Null),
    }
}
