//! The difference of two moving points on a piece of time, in numbers of any size.
ghost use Rattle.std.specs.Prelude.{◌≡◌, IfOk};
ghost use Rattle.mob_slice.specs.Cut.{slice_value};
ghost use Rattle.mob_slice.specs.Lines.{plane_value_of};
ghost use Rattle.mob_slice.specs.Sides.{side_of, side_at, piece_of};
ghost use Rattle.mob_legs.specs.Broad.{as_point, as_leg, IsGapAt};
ghost use Rattle.mob_legs.specs.Legs.{leg_of};

use mob_frac::Frac;
use mob_plane::Point;
use mob_slice::{Piece, PlaneLine, Side, Slice};
use mob_wide::{Broad, line_at};
use std::alloc::{AllocError, Global};

/// A position, or a vector: east and north.
#[derive(Drop)]
pub struct Spot {
    /// To the east.
    pub x: Broad,
    /// To the north.
    pub y: Broad,
}

/// The difference of two points on a piece of time: a straight segment from (x0, y0) to (x1, y1).
#[derive(Drop)]
pub struct BroadLeg {
    /// The difference to the east at the lower end: the first point minus the second.
    pub x0: Broad,
    /// The difference to the north at the lower end.
    pub y0: Broad,
    /// The difference to the east at the upper end.
    pub x1: Broad,
    /// The difference to the north at the upper end.
    pub y1: Broad,
}

// A point, converted.
fn converted(alloc: Global, point: &Point) -> Result<Spot, AllocError>
    ensures point { IfOk result (λ s. as_point s ≡ point.now) }
{
    let x = Broad::new(alloc, &point.x)?;
    let y = Broad::new(alloc, &point.y)?;
    Ok(Spot { x, y })
}

// The point of a slice at an instant.
fn point_on(alloc: Global, slice: &Slice<PlaneLine>, t: &Frac) -> Result<Spot, AllocError>
    ensures point { IfOk result (λ s. as_point s ≡ slice_value plane_value_of slice.now t.now) }
{
    let from = &slice.course.from;
    let to = &slice.course.to;
    let lower = slice.span.lower();
    let upper = slice.span.upper();
    let x = line_at(alloc, &from.x, &to.x, lower, upper, t)?;
    let y = line_at(alloc, &from.y, &to.y, lower, upper, t)?;
    Ok(Spot { x, y })
}

// The point of a side at an instant.
fn point_at(alloc: Global, side: &Side<'_, PlaneLine>, t: &Frac) -> Result<Spot, AllocError>
    ensures point { IfOk result (λ s. as_point s ≡ side_at plane_value_of (side_of side.now) t.now) }
{
    match *side {
        Side::Moving(slice) => point_on(alloc, slice, t),
        Side::Fixed(point) => converted(alloc, point),
    }
}

// The difference of two points.
fn difference(alloc: Global, left: &Spot, right: &Spot) -> Result<Spot, AllocError>
    ensures gap { IfOk result (IsGapAt (as_point left.now) (as_point right.now)) }
{
    let x = left.x.minus(alloc, &right.x)?;
    let y = left.y.minus(alloc, &right.y)?;
    Ok(Spot { x, y })
}

// The difference of the two points of a piece at an instant.
fn gap_at(
    alloc: Global,
    piece: &Piece<'_, PlaneLine, PlaneLine>,
    t: &Frac,
) -> Result<Spot, AllocError>
    ensures gap { IfOk result (IsGapAt (side_at plane_value_of (side_of piece.now.left) t.now) (side_at plane_value_of (side_of piece.now.right) t.now)) }
{
    let left = point_at(alloc, &piece.left, t)?;
    let right = point_at(alloc, &piece.right, t)?;
    let gap = difference(alloc, &left, &right)?;
    Ok(gap)
}

/// The difference of the two points on the piece.
pub fn leg_on(
    alloc: Global,
    piece: &Piece<'_, PlaneLine, PlaneLine>,
) -> Result<BroadLeg, AllocError>
    ensures leg { IfOk result (λ g. as_leg g ≡ leg_of (piece_of piece.now)) }
{
    let lower = gap_at(alloc, piece, piece.span.lower())?;
    let upper = gap_at(alloc, piece, piece.span.upper())?;
    Ok(BroadLeg {
        x0: lower.x,
        y0: lower.y,
        x1: upper.x,
        y1: upper.y,
    })
}
