//! The nearest rows in numbers of any size, as with `--wide`: one pass over all rows.
//!
//! Approaches of any size cannot be compared without memory, so no heap holds them. The pass keeps
//! the nearest rows of those seen, and skips a row whose gap is above the last of `k` rows.
ghost use Rattle.std.specs.Prelude.{◌≡◌, ◌≤◌, ◌<◌, true, length, take, IfOk, OnOk, Some};
ghost use Rattle.mob_ratio.specs.Ratio.{Ratio};
ghost use Rattle.mob_slice.specs.Lines.{plane_value_of};
ghost use Rattle.mob_slice.specs.Sides.{Slices, given_at, operand_of};
ghost use Rattle.mob_near.specs.Approaches.{IsApproach};
ghost use Rattle.mob_knn.specs.Nearest.{AreNearest, IsAskedBox, IsRising};
ghost use Rattle.mob_knn.specs.Scans.{AreAllBelow, IsConsidered, IsItsApproach, IsPlaceOf, put_in};

use crate::asked::{again, box_of_asked, let_go};
use crate::gaps::Gap;
use crate::gaps::measure::gap;
use mob_near::least_exact;
use mob_slice::{Moving, Operand, PlaneLine};
use mob_stbox::StBox;
use mob_value::box_of;
use mob_wide::Exact;
use std::alloc::{AllocError, Global};

// The square of the nearest approach of a trip.
fn trip_approach(
    alloc: Global,
    trip: &Moving<PlaneLine>,
    asked: &Operand<'_, PlaneLine>,
) -> Result<Option<Exact>, AllocError>
    ensures value { IfOk result (λ o. IsApproach (given_at plane_value_of (Slices trip.now)) (given_at plane_value_of (operand_of asked.now)) o) }
{
    least_exact(alloc, Operand::Moving(trip), again(asked))
}

// The place of an approach among those of rows: behind all that are at most it.
fn place_of(alloc: Global, rows: &[(u32, Exact)], m: &Exact) -> Result<usize, AllocError>
    ensures inside { IfOk result (λ place. place ≤ length rows.now) }
    ensures place { IfOk result (IsPlaceOf m.now rows.now) }
{
    let mut place = 0;
    for row in rows {
        let below = m.is_below(alloc, &row.1)?;
        if below {
            return Ok(place);
        }
        place += 1;
    }
    Ok(place)
}

// Puts a row among the nearest, of which the first `k` remain.
fn put(
    alloc: Global,
    best: &mut Vec<(u32, Exact)>,
    row: u32,
    m: Exact,
    k: u32,
) -> Result<(), AllocError>
    ensures put { OnOk result (best.new.items ≡ take k (put_in (row, m) best.old.items)) }
{
    let place = place_of(alloc, best.as_slice(), &m)?;
    best.insert(place, (row, m))?;
    best.truncate(k as usize);
    Ok(())
}

// Whether there are `k` rows, all of which have approaches below a bound. They ascend, so the last
// one decides.
fn are_all_below(
    alloc: Global,
    best: &[(u32, Exact)],
    k: u32,
    bound: &Exact,
) -> Result<bool, AllocError>
    requires rising { IsRising best.now }
    requires some { 0 < k }
    ensures below { IfOk result (λ b. b ≡ true → AreAllBelow k bound.now best.now) }
{
    if best.len() != k as usize {
        return Ok(false);
    }
    let Some((last, _rest)) = best.split_last() else {
        return Ok(false);
    };
    last.1.is_below(alloc, bound)
}

// Whether `k` rows are nearer than any approach that the trip may have: its box is further away
// than all of them, or shares no instant with the asked one.
fn is_out(
    alloc: Global,
    trip: &Moving<PlaneLine>,
    asked: &Operand<'_, PlaneLine>,
    area: &StBox,
    best: &[(u32, Exact)],
    k: u32,
) -> Result<bool, AllocError>
    requires asked { IsAskedBox (operand_of asked.now) area.now }
    requires rising { IsRising best.now }
    requires some { 0 < k }
    ensures out { IfOk result (λ b. b ≡ true → (m : Ratio) → IsItsApproach (operand_of asked.now) (Some trip.now) m → AreAllBelow k m best.now) }
{
    match gap(&box_of(trip), area) {
        Gap::Apart => Ok(true),
        Gap::AtLeast(least) => {
            let bound = Exact::of(&least);
            are_all_below(alloc, best, k, &bound)
        }
    }
}

// Considers the trip of one more row.
fn consider_trip(
    alloc: Global,
    trip: &Moving<PlaneLine>,
    asked: &Operand<'_, PlaneLine>,
    area: &StBox,
    best: &mut Vec<(u32, Exact)>,
    row: u32,
    k: u32,
) -> Result<(), AllocError>
    requires asked { IsAskedBox (operand_of asked.now) area.now }
    requires rising { IsRising best.old.items }
    requires some { 0 < k }
    ensures considered { OnOk result (IsConsidered k row (IsItsApproach (operand_of asked.now) (Some trip.now)) best.old.items best.new.items) }
{
    let out = is_out(alloc, trip, asked, area, best.as_slice(), k)?;
    if out {
        return Ok(());
    }
    match trip_approach(alloc, trip, asked)? {
        Some(m) => put(alloc, best, row, m, k),
        None => Ok(()),
    }
}

// Considers one more row.
fn consider(
    alloc: Global,
    trip: &Option<Moving<PlaneLine>>,
    asked: &Operand<'_, PlaneLine>,
    area: &StBox,
    best: &mut Vec<(u32, Exact)>,
    row: u32,
    k: u32,
) -> Result<(), AllocError>
    requires asked { IsAskedBox (operand_of asked.now) area.now }
    requires rising { IsRising best.old.items }
    requires some { 0 < k }
    ensures considered { OnOk result (IsConsidered k row (IsItsApproach (operand_of asked.now) trip.now) best.old.items best.new.items) }
{
    match trip {
        Some(trip) => consider_trip(alloc, trip, asked, area, best, row, k),
        None => Ok(()),
    }
}

// The nearest of all rows, given the box of what is asked for.
fn scanned(
    alloc: Global,
    trips: &[Option<Moving<PlaneLine>>],
    asked: &Operand<'_, PlaneLine>,
    area: &StBox,
    k: u32,
) -> Result<Vec<(u32, Exact)>, AllocError>
    requires asked { IsAskedBox (operand_of asked.now) area.now }
    requires few { length trips.now ≤ 1000000 }
    requires some { 0 < k }
    ensures nearest { IfOk result (λ rs. AreNearest trips.now (operand_of asked.now) k rs.items) }
{
    let mut best = Vec::new(alloc);
    let mut row: u32 = 0;
    for trip in trips {
        consider(alloc, trip, asked, area, &mut best, row, k)?;
        row += 1;
    }
    Ok(best)
}

/// The `k` rows whose trips come nearest to `asked`, as `nearest` has them, with approaches of any
/// size. It visits all rows once. The only error is a failed allocation.
pub fn nearest_exact(
    alloc: Global,
    trips: &[Option<Moving<PlaneLine>>],
    asked: Operand<'_, PlaneLine>,
    k: u32,
) -> Result<Vec<(u32, Exact)>, AllocError>
    requires few { length trips.now ≤ 1000000 }
    ensures nearest { IfOk result (λ rs. AreNearest trips.now (operand_of asked.entry) k rs.items) }
{
    if k == 0 {
        let_go(asked);
        return Ok(Vec::new(alloc));
    }
    let area = box_of_asked(&asked);
    let found = scanned(alloc, trips, &asked, &area, k);
    let_go(asked);
    found
}
