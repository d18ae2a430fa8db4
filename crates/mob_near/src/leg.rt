//! The difference of two moving points on a piece of time.
ghost use Rattle.std.specs.Prelude.{◌≡◌, true, IfOk};
ghost use Rattle.mob_span.specs.Neighbours.{is_inside};
ghost use Rattle.mob_slice.specs.Computed.{IsComputed};
ghost use Rattle.mob_slice.specs.Cut.{slice_value, slice_parts};
ghost use Rattle.mob_slice.specs.Entries.{IsDecided};
ghost use Rattle.mob_slice.specs.LineComparison.{point_gaps};
ghost use Rattle.mob_slice.specs.Lines.{plane_value_of, plane_parts_of};
ghost use Rattle.mob_slice.specs.Sides.{HoldsSide, HoldsPiece, piece_of, side_of, side_parts, at_ends};
ghost use Rattle.mob_slice.specs.Slices.{IsSound};
ghost use Rattle.mob_slice.specs.declared.formula.Formula.TheVariants.{F1, F2, F6};
ghost use Rattle.mob_cells.specs.Gaps.{entries_of_ends};
ghost use Rattle.mob_legs.specs.Legs.{ends_of, leg_between, leg_parts, leg_of, squares_of, squares_parts};

use crate::known::{
    Apart, LastFound, Squared, difference, difference_kept, point_at, square, square_kept,
};
use mob_frac::Frac;
use mob_legs::{Leg, Squares};
use mob_lift::walks::Found;
use mob_slice::{Formula, Piece, PlaneLine, Side, Slice};
use mob_span::Span;
use std::alloc::Global;

// The points of a slice at the two ends of a piece of its span.
fn ends_on(
    alloc: Global,
    slice: &Slice<PlaneLine>,
    span: &Span,
    found: &mut Option<Found<PlaneLine>>,
) -> Result<PlaneLine, Formula>
    requires holds { IsSound (λ c. c.from) (λ c. c.to) slice.now × (is_inside slice.now.span span.now ≡ true) }
    ensures ends { IsComputed F1 (at_ends (slice_parts plane_parts_of slice.now) span.now) (record { from = slice_value plane_value_of slice.now span.now.lower; to = slice_value plane_value_of slice.now span.now.upper }) result }
{
    let from = point_at(alloc, slice, span.lower(), found)?;
    let to = point_at(alloc, slice, span.upper(), found)?;
    Ok(PlaneLine { from, to })
}

// The points of a side at the two ends of a piece.
fn ends_of(
    alloc: Global,
    side: &Side<'_, PlaneLine>,
    span: &Span,
    found: &mut Option<Found<PlaneLine>>,
) -> Result<PlaneLine, Formula>
    requires holds { HoldsSide (λ c. c.from) (λ c. c.to) (side_of side.now) span.now }
    ensures ends { IsComputed F1 (at_ends (side_parts plane_parts_of (side_of side.now)) span.now) (ends_of (side_of side.now) span.now) result }
{
    match *side {
        Side::Moving(slice) => ends_on(alloc, slice, span, found),
        Side::Fixed(point) => Ok(PlaneLine {
            from: *point,
            to: *point,
        }),
    }
}

// The leg of the difference of two linear motions.
fn leg_between(
    left: &PlaneLine,
    right: &PlaneLine,
    apart: &mut Option<Apart>,
) -> Result<Leg, Formula>
    ensures leg { IsComputed F2 (leg_parts left.now right.now) (leg_between left.now right.now) result }
{
    let Ok(lower) = difference(&left.from, &right.from, apart) else {
        return Err(Formula::F2);
    };
    let Ok(upper) = difference_kept(&left.to, &right.to, apart) else {
        return Err(Formula::F2);
    };
    Ok(Leg {
        x0: lower.0,
        y0: lower.1,
        x1: upper.0,
        y1: upper.1,
    })
}

/// The difference of the two points on the piece. Known results at its lower end are reused, and
/// those at its upper end are kept.
///
/// The fault names the formula of the first entry that does not fit: F1 at the ends of the piece,
/// then F2, the differences there.
pub fn leg_on(
    alloc: Global,
    piece: &Piece<'_, PlaneLine, PlaneLine>,
    last: &mut LastFound,
) -> Result<Leg, Formula>
    requires holds { HoldsPiece (λ c. c.from) (λ c. c.to) (λ c. c.from) (λ c. c.to) (piece_of piece.now) }
    ensures leg { IfOk result (λ g. g ≡ leg_of (piece_of piece.now)) }
    ensures first { IsDecided (entries_of_ends plane_value_of plane_parts_of point_gaps (piece_of piece.now)) result }
{
    let left = ends_of(alloc, &piece.left, &piece.span, &mut last.left)?;
    let right = ends_of(alloc, &piece.right, &piece.span, &mut last.right)?;
    leg_between(&left, &right, &mut last.apart)
}

/// The squared distances at both ends. The fault is F6, exactly if a part of one does not fit.
pub fn squares_at_ends(leg: &Leg, squared: &mut Option<Squared>) -> Result<Squares, Formula>
    ensures value { IsComputed F6 (squares_parts leg.now) (squares_of leg.now) result }
{
    let Ok(first) = square(&leg.x0, &leg.y0, squared) else {
        return Err(Formula::F6);
    };
    let Ok(last) = square_kept(&leg.x1, &leg.y1, squared) else {
        return Err(Formula::F6);
    };
    Ok(Squares { first, last })
}
