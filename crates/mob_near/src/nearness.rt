//! The nearness of two moving points over all their common instants.
ghost use Rattle.std.specs.Prelude.{◌≡◌, ◌||◌, true, false, cond, Some, None, Ok, Err, IfOk, IsTrue, ◌↔◌};
ghost use Rattle.std.specs.List.{flat_map};
ghost use Rattle.mob_ratio.specs.Order.{up_to};
ghost use Rattle.mob_ratio.specs.Sign.{nil};
ghost use Rattle.mob_slice.specs.Entries.{IsDecided};
ghost use Rattle.mob_slice.specs.Lines.{plane_value_of};
ghost use Rattle.mob_slice.specs.Sides.{given_at, has_slices, operand_of, pieces};
ghost use Rattle.mob_slice.specs.declared.formula.Formula.TheVariants.{F6};
ghost use Rattle.mob_lift.specs.Sometime.{IsEver, HaveCommon};
ghost use Rattle.mob_near.specs.Distances.{are_within, distance_squared};
ghost use Rattle.mob_near.specs.Approaches.{IsApproach};
ghost use Rattle.mob_near.specs.Entries.{entries_of_within, entries_of_reach, entries_of_approach};
ghost use Rattle.mob_legs.specs.Legs.{are_some, nearest_of};

use crate::known::nothing;
use crate::piece::{piece_approach, piece_reaches};
use mob_frac::Frac;
use mob_lift::either;
use mob_lift::walks::Pieces;
use mob_plane::smaller;
use mob_slice::{Formula, Operand, PlaneLine};
use std::alloc::Global;

/// Whether some instant is common.
pub fn share_time(a: Operand<'_, PlaneLine>, b: Operand<'_, PlaneLine>) -> bool
    requires moving { (has_slices (operand_of a) || has_slices (operand_of b)) ≡ true }
    ensures common { IsTrue result ↔ HaveCommon (given_at plane_value_of (operand_of a.entry)) (given_at plane_value_of (operand_of b.entry)) }
    ensures value { result ≡ are_some (pieces (operand_of a.entry) (operand_of b.entry)) }
{
    let mut pieces = Pieces::new(a, b);
    pieces.next().is_some()
}

/// `false`, if some instant is common.
pub fn never(shared: bool) -> Option<bool>
    ensures value { result ≡ cond shared (Some false) None }
{
    if shared {
        return Some(false);
    }
    None
}

// The error that the square of the distance does not fit, if some piece computes it.
fn passed_where(shared: bool) -> Result<Option<bool>, Formula>
    ensures value { result ≡ cond shared (Err F6) (Ok None) }
{
    if shared {
        return Err(Formula::F6);
    }
    Ok(None)
}

// Whether the squared distance is at most `square` at some common instant. Every piece is visited,
// even after one that settles the answer: each has its formulas.
fn ever_reaches(
    alloc: Global,
    a: Operand<'_, PlaneLine>,
    b: Operand<'_, PlaneLine>,
    square: &Frac,
) -> Result<Option<bool>, Formula>
    requires moving { (has_slices (operand_of a) || has_slices (operand_of b)) ≡ true }
    requires square { up_to nil square.now ≡ true }
    ensures value { IfOk result (IsEver (λ x y. up_to (distance_squared x y) square.now) (given_at plane_value_of (operand_of a.entry)) (given_at plane_value_of (operand_of b.entry))) }
    ensures first { IsDecided (flat_map (entries_of_reach square.now) (pieces (operand_of a.entry) (operand_of b.entry))) result }
{
    let mut found = None;
    let mut last = nothing();
    for piece in Pieces::new(a, b) {
        let here = piece_reaches(alloc, &piece, square, &mut last)?;
        found = Some(either(found, here));
    }
    Ok(found)
}

/// Whether the two points are within the distance `d` of each other at some instant at which both
/// are defined (MobilityDB's `eDwithin`). Only actual instants count: an excluded end does not. For
/// a distance below 0 the answer is false. `None` exactly if no such instant exists. It does not
/// allocate.
///
/// The fault names the formula of the first entry that has a part that does not fit: on each piece
/// that the two share F6, `d·d`, then F1, the points at its ends, F2, their difference there by
/// coordinate, F6, the squares of its length, and F5, the nearest point between, even on pieces
/// after one that settles the answer. A distance below 0 has no formula.
pub fn ever_within(
    alloc: Global,
    a: Operand<'_, PlaneLine>,
    b: Operand<'_, PlaneLine>,
    d: &Frac,
) -> Result<Option<bool>, Formula>
    requires moving { (has_slices (operand_of a) || has_slices (operand_of b)) ≡ true }
    ensures value { IfOk result (IsEver (are_within d.now) (given_at plane_value_of (operand_of a.entry)) (given_at plane_value_of (operand_of b.entry))) }
    ensures first { IsDecided (entries_of_within d.now (pieces (operand_of a.entry) (operand_of b.entry))) result }
{
    if d.is_before(&Frac::zero()) {
        return Ok(never(share_time(a, b)));
    }
    match d.mul(d) {
        Ok(square) => ever_reaches(alloc, a, b, &square),
        Err(_) => passed_where(share_time(a, b)),
    }
}

// The smaller of the result so far and that of one more piece.
fn nearest_of(found: Option<Frac>, here: Frac) -> Frac
    ensures value { result ≡ nearest_of found here }
{
    match found {
        Some(before) => smaller(&here, &before),
        None => here,
    }
}

/// The greatest lower bound of the squared distance of the two points over all instants at which
/// both are defined: the squared distance of their nearest approach, even if it is only approached,
/// at an excluded end. `None` exactly if no such instant exists. It does not allocate.
/// (MobilityDB's `nearestApproachDistance` is the distance, which may be irrational.)
///
/// The fault is that of `ever_within`, without the square of a distance.
pub fn approach_squared(
    alloc: Global,
    a: Operand<'_, PlaneLine>,
    b: Operand<'_, PlaneLine>,
) -> Result<Option<Frac>, Formula>
    requires moving { (has_slices (operand_of a) || has_slices (operand_of b)) ≡ true }
    ensures value { IfOk result (IsApproach (given_at plane_value_of (operand_of a.entry)) (given_at plane_value_of (operand_of b.entry))) }
    ensures first { IsDecided (flat_map entries_of_approach (pieces (operand_of a.entry) (operand_of b.entry))) result }
{
    let mut nearest = None;
    let mut last = nothing();
    for piece in Pieces::new(a, b) {
        let here = piece_approach(alloc, &piece, &mut last)?;
        nearest = Some(nearest_of(nearest, here));
    }
    Ok(nearest)
}
