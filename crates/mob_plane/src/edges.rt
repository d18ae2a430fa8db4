//! The position of a point relative to edges, by signs.
ghost use Rattle.std.specs.Prelude.{◌≡◌, ◌||◌};
ghost use Rattle.mob_ratio.specs.Ratio.{◌-ℚ◌};
ghost use Rattle.mob_ratio.specs.Sign.{sign_of};
ghost use Rattle.mob_frac.specs.Formula.{IsFormula};
ghost use Rattle.mob_plane.specs.Turns.{turn, turn_parts, turns_parts};
ghost use Rattle.mob_plane.specs.Rings.{edges};
ghost use Rattle.mob_plane.specs.EdgeWise.{signs_at, signs_to, is_between, is_on, crosses, with_edge, counted};

use crate::Point;
use mob_frac::{Frac, Overflow};
use std::cmp::Ordering;

/// The position of a point relative to an edge, by signs.
#[derive(Clone, Copy, Debug, Drop)]
pub struct EdgeSigns {
    /// `Greater` to the left of the edge's direction, `Less` to the right of it.
    pub turn: Ordering,
    /// `Greater` to the right of the edge's first end, in x.
    pub x_a: Ordering,
    /// `Greater` to the right of its second end.
    pub x_b: Ordering,
    /// `Greater` above its first end, in y.
    pub y_a: Ordering,
    /// `Greater` above its second end.
    pub y_b: Ordering,
}

/// The tally of a point after some edges.
#[derive(Clone, Copy, Debug, Drop)]
pub struct Tally {
    /// Whether it lies on one of them.
    pub on: bool,
    /// Whether the number of edges that cross its height to the right of it is odd.
    pub odd: bool,
}

/// The position of `p` relative to the direction from `a` to `b`: above 0 to the left of it, below
/// 0 to the right, and 0 on the line through both. This is the cross product of the vector from `a`
/// to `b` and the one from `a` to `p`, formula F4. It is `Overflow` exactly if a part of the
/// formula does not fit. It does not allocate.
pub fn turn(a: &Point, b: &Point, p: &Point) -> Result<Frac, Overflow>
    ensures value { IsFormula (turn_parts a.now b.now p.now) (turn a.now b.now p.now) result }
{
    let along = b.x.sub(&a.x)?;
    let up = p.y.sub(&a.y)?;
    let left = along.mul(&up)?;
    let rise = b.y.sub(&a.y)?;
    let across = p.x.sub(&a.x)?;
    let right = rise.mul(&across)?;
    left.sub(&right)
}

/// The sign of `x - y`, without computing the difference.
fn side(x: &Frac, y: &Frac) -> Ordering
    ensures sign { result ≡ sign_of (x.now -ℚ y.now) }
{
    if x.is_before(y) {
        return Ordering::Less;
    }
    if y.is_before(x) {
        return Ordering::Greater;
    }
    Ordering::Equal
}

fn sign(x: &Frac) -> Ordering
    ensures sign { result ≡ sign_of x.now }
{
    x.compare(&Frac::zero())
}

/// The position of the point `p` relative to the edge from `a` to `b`. It is `Overflow` exactly if
/// a part of the turn does not fit.
fn signs(a: &Point, b: &Point, p: &Point) -> Result<EdgeSigns, Overflow>
    ensures signs { IsFormula (turn_parts a.now b.now p.now) (signs_at p.now a.now b.now) result }
{
    let turn = turn(a, b, p)?;
    Ok(EdgeSigns {
        turn: sign(&turn),
        x_a: side(&p.x, &a.x),
        x_b: side(&p.x, &b.x),
        y_a: side(&p.y, &a.y),
        y_b: side(&p.y, &b.y),
    })
}

fn is_between(o: Ordering, q: Ordering) -> bool
    ensures value { result ≡ is_between o q }
{
    !(o.is_lt() && q.is_lt()) && !(o.is_gt() && q.is_gt())
}

// Whether the point lies on the edge: on its line, and between its ends.
fn is_on(signs: &EdgeSigns) -> bool
    ensures value { result ≡ is_on signs.now }
{
    signs.turn.is_eq() && (is_between(signs.x_a, signs.x_b) && is_between(signs.y_a, signs.y_b))
}

// Whether the edge crosses the height of the point to the right of it: one end is above the point
// and the other is not, and the point lies to the right of an edge that goes down, or to the left
// of one that goes up.
fn crosses(signs: &EdgeSigns) -> bool
    ensures value { result ≡ crosses signs.now }
{
    (signs.y_a.is_lt() && (!signs.y_b.is_lt() && signs.turn.is_lt()))
        || (signs.y_b.is_lt() && (!signs.y_a.is_lt() && signs.turn.is_gt()))
}

/// The tally after one more edge.
pub fn with_edge(tally: Tally, signs: &EdgeSigns) -> Tally
    ensures value { result ≡ with_edge tally signs.now }
{
    let on = tally.on || is_on(signs);
    if crosses(signs) {
        return Tally {
            on,
            odd: !tally.odd,
        };
    }
    Tally { on, odd: tally.odd }
}

/// Whether the point is in the polygon, after all of its edges.
pub fn is_in(tally: &Tally) -> bool
    ensures value { result ≡ (tally.now.on || tally.now.odd) }
{
    tally.on || tally.odd
}

/// The tally after the edges of a ring. It is `Overflow` exactly if a part of the turn of the point
/// from some edge does not fit.
pub fn count_ring(ring: &[Point], p: &Point, first: Tally) -> Result<Tally, Overflow>
    ensures counted { IsFormula (turns_parts p.now (edges ring.now)) (counted first (signs_to (edges ring.now) p.now)) result }
{
    let mut tally = first;
    let mut i = 1;
    while i < ring.len() {
        let signs = signs(&ring[i - 1], &ring[i], p)?;
        tally = with_edge(tally, &signs);
        i = i + 1;
    }
    Ok(tally)
}
