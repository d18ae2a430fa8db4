//! Polygons of one or more closed rings.
ghost use Rattle.std.specs.Prelude.{◌≡◌, ◌↔◌, true, false, Ok, Err, is_ok, IfOk, Contains};
ghost use Rattle.std.specs.List.{list_any};
ghost use Rattle.mob_frac.specs.Formula.{IsFormula};
ghost use Rattle.mob_plane.specs.Turns.{turns_parts};
ghost use Rattle.mob_plane.specs.Rings.{rings_of, all_edges, has_short, has_open, is_short_ring, is_open_ring, are_sound};
ghost use Rattle.mob_plane.specs.Membership.{inside};
ghost use Rattle.mob_plane.specs.EdgeWise.{signs_to, counted, none_yet};
ghost use Rattle.mob_plane.specs.Corners.{all_points, AreCorners};

use crate::Point;
use crate::edges::{Tally, count_ring, is_in};
use crate::rectangle::{at_point, over_rings};
use mob_frac::Overflow;
use std::alloc::{AllocError, Global};
use std::marker::Model;

/// The reason why rings bound no polygon.
#[derive(Clone, Copy, Debug, PartialEq, Eq)]
pub enum RingFault {
    /// The list of rings is empty, or one of them has fewer than four points.
    Short = 1,
    /// The first and the last point of a ring differ.
    Open = 2,
}

/// A closed set of the plane, bounded by rings. Contracts see it as its rings, each as the list of
/// its points.
///
/// A ring ends at the point at which it begins, so a triangle has four points. Rings may cross
/// themselves and one another. A point is in the polygon if it lies on an edge, or if the number of
/// edges to the right of it, over all rings, is odd.
#[derive(Drop)]
pub struct Polygon {
    rings: Vec<Vec<Point>>,
}

impl Model for Polygon {
    ghost use Rattle.std.specs.Prelude.{◌≡◌, List, true};
    ghost use Rattle.mob_plane.specs.Rings.{rings_of, are_sound};
    ghost use Rattle.mob_plane.specs.declared.point.Point.{Point};

    ghost Value = { List (List Point) };

    ghost view = { λ p. rings_of p.rings.items };

    ghost invariant = { λ p. are_sound (rings_of p.rings.items) ≡ true };
}

/// Whether the ring has fewer than four points.
fn is_short(ring: &[Point]) -> bool
    ensures value { result ≡ is_short_ring ring.now }
{
    ring.len() < 4
}

/// Whether the ring's first and last points differ.
fn is_open(ring: &[Point]) -> bool
    ensures value { result ≡ is_open_ring ring.now }
{
    match (ring.first(), ring.last()) {
        (Some(first), Some(last)) => !first.is_same(last),
        _ => true,
    }
}

/// Whether some ring is short.
fn some_short(rings: &[Vec<Point>]) -> bool
    ensures value { result ≡ list_any (λ r. is_short_ring r.items) rings.now }
{
    rings.iter().any(|ring| is_short(ring.as_slice()))
}

/// Whether the list of rings is empty, or one of them is short.
fn has_short(rings: &[Vec<Point>]) -> bool
    ensures value { result ≡ has_short (rings_of rings.now) }
{
    rings.is_empty() || some_short(rings)
}

/// Whether some ring is open.
fn some_open(rings: &[Vec<Point>]) -> bool
    ensures value { result ≡ list_any (λ r. is_open_ring r.items) rings.now }
{
    rings.iter().any(|ring| is_open(ring.as_slice()))
}

/// A point of the rings: the first of the first ring.
fn start(rings: &[Vec<Point>]) -> Point
    requires some { has_short (rings_of rings.now) ≡ false }
    ensures listed { Contains (all_points (rings_of rings.now)) result }
{
    rings[0][0]
}

/// The tally after the edges of all rings. It is `Overflow` exactly if a part of the turn of the
/// point from some edge does not fit.
fn count_rings(rings: &[Vec<Point>], p: &Point) -> Result<Tally, Overflow>
    ensures counted { IsFormula (turns_parts p.now (all_edges (rings_of rings.now))) (counted none_yet (signs_to (all_edges (rings_of rings.now)) p.now)) result }
{
    let mut tally = Tally {
        on: false,
        odd: false,
    };
    for ring in rings {
        tally = match count_ring(ring.as_slice(), p, tally) {
            Ok(tally) => tally,
            Err(fault) => return Err(fault),
        };
    }
    Ok(tally)
}

impl Polygon {
    /// The polygon of these rings. It is `Short` exactly if the list is empty or one of the rings
    /// has fewer than four points, and `Open` exactly if none is short and the first and last
    /// points of one differ. It does not allocate.
    pub fn new(rings: Vec<Vec<Point>>) -> Result<Polygon, RingFault>
        ensures made { IfOk result (λ p. p ≡ rings_of rings.items) }
        ensures short { (result ≡ Err RingFault.Short) ↔ (has_short (rings_of rings.items) ≡ true) }
        ensures sound { is_ok result ≡ are_sound (rings_of rings.items) }
        ensures open_ends { (result ≡ Err RingFault.Open) ↔ ((has_short (rings_of rings.items) ≡ false) × (has_open (rings_of rings.items) ≡ true)) }
    {
        if has_short(rings.as_slice()) {
            return Err(RingFault::Short);
        }
        if some_open(rings.as_slice()) {
            return Err(RingFault::Open);
        }
        Ok(Polygon { rings })
    }

    /// The rings, each ending with the point at which it begins.
    pub fn rings(&self) -> &[Vec<Point>]
        ensures same { rings_of result.now ≡ self.now }
        ensures sound { are_sound self.now ≡ true }
    {
        self.rings.as_slice()
    }

    /// The corners of the polygon's bounding box: the smallest and the greatest coordinates of its
    /// points. It does not allocate.
    pub fn corners(&self) -> (Point, Point)
        ensures corners { AreCorners (all_points self.now) result.0 result.1 }
    {
        let first = at_point(&start(self.rings.as_slice()));
        let corners = over_rings(&first, self.rings.as_slice());
        (corners.least, corners.greatest)
    }

    /// Whether the point is in the polygon: it lies on an edge, or the number of edges that cross
    /// its height to the right of it is odd, where one end is above the point and the other is not.
    /// It is `Overflow` exactly if a part of the turn of the point from some edge does not fit. It
    /// does not allocate.
    pub fn has(&self, p: &Point) -> Result<bool, Overflow>
        ensures value { IsFormula (turns_parts p.now (all_edges self.now)) (inside self.now p.now) result }
    {
        let tally = count_rings(self.rings.as_slice(), p)?;
        Ok(is_in(&tally))
    }

    /// Copies the polygon. The only error is a failed allocation.
    pub fn copy(&self, alloc: Global) -> Result<Polygon, AllocError>
        ensures same { IfOk result (λ copy. copy ≡ self.now) }
    {
        let mut copies = Vec::with_capacity(alloc, self.rings.len())?;
        for ring in self.rings.as_slice() {
            let copy = Vec::from_slice(alloc, ring.as_slice())?;
            copies.push(copy)?;
        }
        Ok(Polygon { rings: copies })
    }
}
