//! The approach of one row.
ghost use Rattle.std.specs.Prelude.{IfOk, IfErr, Some, MatchOption};
ghost use Rattle.std.specs.List.{flat_map};
ghost use Rattle.mob_slice.specs.Entries.{IsFirst};
ghost use Rattle.mob_slice.specs.Sides.{Slices, given_at, operand_of, pieces};
ghost use Rattle.mob_slice.specs.Lines.{plane_value_of};
ghost use Rattle.mob_near.specs.Approaches.{IsApproach};
ghost use Rattle.mob_near.specs.Entries.{entries_of_approach};
ghost use Rattle.mob_knn.specs.Nearest.{TripOf, IsTrip, HasApproach};
ghost use Rattle.mob_knn.specs.Steps.{IsOnly, HasUnfitPart};

use crate::asked::again;
use mob_frac::Frac;
use mob_near::approach_squared;
use mob_slice::{Formula, Moving, Operand, PlaneLine};
use std::alloc::Global;

// The square of the nearest approach of a trip.
fn trip_approach(
    alloc: Global,
    trip: &Moving<PlaneLine>,
    asked: &Operand<'_, PlaneLine>,
) -> Result<Option<Frac>, Formula>
    ensures value { IfOk result (λ o. IsApproach (given_at plane_value_of (Slices trip.now)) (given_at plane_value_of (operand_of asked.now)) o) }
    ensures unfit { IfErr result (λ p. IsFirst (flat_map entries_of_approach (pieces (Slices trip.now) (operand_of asked.now))) (Some p)) }
{
    approach_squared(alloc, Operand::Moving(trip), again(asked))
}

// The trip of a row, if it has one.
fn trip_at(trips: &[Option<Moving<PlaneLine>>], row: u32) -> Option<&Moving<PlaneLine>>
    ensures there { MatchOption result ((trip : TripOf) → IsTrip trips.now row trip → ⊥) (λ trip. IsTrip trips.now row trip.now) }
{
    let index = row as usize;
    if index >= trips.len() {
        return None;
    }
    match &trips[index] {
        Some(trip) => Some(trip),
        None => None,
    }
}

/// The square of the nearest approach of the trip of a row, if there is one. The fault is its
/// first formula with a part that does not fit.
pub fn row_approach(
    alloc: Global,
    trips: &[Option<Moving<PlaneLine>>],
    row: u32,
    asked: &Operand<'_, PlaneLine>,
) -> Result<Option<Frac>, Formula>
    ensures value { IfOk result (λ o. IsOnly (HasApproach trips.now (operand_of asked.now) row) o) }
    ensures unfit { IfErr result (λ p. HasUnfitPart trips.now (operand_of asked.now) row p) }
{
    match trip_at(trips, row) {
        Some(trip) => trip_approach(alloc, trip, asked),
        None => Ok(None),
    }
}
