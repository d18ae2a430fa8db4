//! The gaps of two courses at an instant, in numbers of any size.
ghost use Rattle.std.specs.Prelude.{◌≡◌, IfOk};
ghost use Rattle.mob_slice.specs.Sides.{side_at, side_of};
ghost use Rattle.mob_cells.specs.Coordinates.{apart_of, as_gaps};

use crate::coordinates::{Coordinates, HasCoordinates};
use mob_frac::Frac;
use mob_slice::{Piece, Side};
use mob_wide::Broad;
use std::alloc::{AllocError, Global};

// The coordinates of a side at an instant.
fn side_coordinates<C: HasCoordinates>(
    alloc: Global,
    side: &Side<'_, C>,
    t: &Frac,
) -> Result<Coordinates, AllocError>
    ensures value { IfOk result (λ c. as_gaps c ≡ C.coordinates_of (side_at C.value_of (side_of side.now) t.now)) }
{
    match *side {
        Side::Moving(slice) => {
            slice
                .course
                .coordinates_at(alloc, slice.span.lower(), slice.span.upper(), t)
        }
        Side::Fixed(base) => C::coordinates(alloc, base),
    }
}

// The difference of two numbers, as the one gap.
fn one_apart(alloc: Global, x: &Broad, y: &Broad) -> Result<Coordinates, AllocError>
    ensures apart { IfOk result (λ c. as_gaps c ≡ apart_of (as_gaps (Coordinates.One x.now)) (as_gaps (Coordinates.One y.now))) }
{
    let gap = x.minus(alloc, y)?;
    Ok(Coordinates::One(gap))
}

// The differences of two points.
fn two_apart(
    alloc: Global,
    x0: &Broad,
    y0: &Broad,
    x1: &Broad,
    y1: &Broad,
) -> Result<Coordinates, AllocError>
    ensures apart { IfOk result (λ c. as_gaps c ≡ apart_of (as_gaps (Coordinates.Two x0.now y0.now)) (as_gaps (Coordinates.Two x1.now y1.now))) }
{
    let x = x0.minus(alloc, x1)?;
    let y = y0.minus(alloc, y1)?;
    Ok(Coordinates::Two(x, y))
}

// The differences of the coordinates of two values.
fn apart(alloc: Global, a: &Coordinates, b: &Coordinates) -> Result<Coordinates, AllocError>
    ensures apart { IfOk result (λ c. as_gaps c ≡ apart_of (as_gaps a.now) (as_gaps b.now)) }
{
    match a {
        Coordinates::Steady => Ok(Coordinates::Steady),
        Coordinates::One(x) => match b {
            Coordinates::Steady => Ok(Coordinates::Steady),
            Coordinates::One(y) => one_apart(alloc, x, y),
            Coordinates::Two(_, _) => Ok(Coordinates::Steady),
        },
        Coordinates::Two(x0, y0) => match b {
            Coordinates::Steady => Ok(Coordinates::Steady),
            Coordinates::One(_) => Ok(Coordinates::Steady),
            Coordinates::Two(x1, y1) => two_apart(alloc, x0, y0, x1, y1),
        },
    }
}

/// The gaps of the two sides of a piece at an instant.
pub fn gaps_at<C: HasCoordinates>(
    alloc: Global,
    piece: &Piece<'_, C, C>,
    t: &Frac,
) -> Result<Coordinates, AllocError>
    ensures gaps { IfOk result (λ g. as_gaps g ≡ C.gaps_of (side_at C.value_of (side_of piece.now.left) t.now) (side_at C.value_of (side_of piece.now.right) t.now)) }
{
    let left = side_coordinates::<C>(alloc, &piece.left, t)?;
    let right = side_coordinates::<C>(alloc, &piece.right, t)?;
    apart(alloc, &left, &right)
}
