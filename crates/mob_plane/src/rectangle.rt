//! The bounding box of points.
ghost use Rattle.std.specs.Prelude.{◌≡◌, fold};
ghost use Rattle.mob_ratio.specs.Order.{smaller, greater};
ghost use Rattle.mob_plane.specs.Corners.{all_points, widened};
ghost use Rattle.mob_plane.specs.Rings.{rings_of};

use crate::Point;
use mob_frac::Frac;

/// A rectangle by two opposite corners.
#[derive(Clone, Copy, Debug, Drop)]
pub struct Corners {
    /// Its smallest coordinates.
    pub least: Point,
    /// Its greatest coordinates.
    pub greatest: Point,
}

/// The smaller of two numbers.
pub fn smaller(x: &Frac, y: &Frac) -> Frac
    ensures value { result ≡ smaller x.now y.now }
{
    if y.is_before(x) { *y } else { *x }
}

/// The greater of two numbers.
pub fn greater(x: &Frac, y: &Frac) -> Frac
    ensures value { result ≡ greater x.now y.now }
{
    if x.is_before(y) { *y } else { *x }
}

/// The rectangle that is one point.
pub fn at_point(p: &Point) -> Corners
    ensures value { result ≡ record { least = p.now; greatest = p.now } }
{
    Corners {
        least: *p,
        greatest: *p,
    }
}

/// The smallest rectangle that contains this one and a point.
fn widened(corners: &Corners, p: &Point) -> Corners
    ensures value { result ≡ widened corners.now p.now }
{
    Corners {
        least: Point {
            x: smaller(&corners.least.x, &p.x),
            y: smaller(&corners.least.y, &p.y),
        },
        greatest: Point {
            x: greater(&corners.greatest.x, &p.x),
            y: greater(&corners.greatest.y, &p.y),
        },
    }
}

/// The smallest rectangle that contains this one and the points of a ring.
fn over_ring(first: &Corners, ring: &[Point]) -> Corners
    ensures value { result ≡ fold widened first.now ring.now }
{
    let mut corners = *first;
    for p in ring {
        corners = widened(&corners, p);
    }
    corners
}

/// The smallest rectangle that contains this one and the points of all rings.
pub fn over_rings(first: &Corners, rings: &[Vec<Point>]) -> Corners
    ensures value { result ≡ fold widened first.now (all_points (rings_of rings.now)) }
{
    let mut corners = *first;
    for ring in rings {
        corners = over_ring(&corners, ring.as_slice());
    }
    corners
}
