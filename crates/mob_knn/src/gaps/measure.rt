//! The function `gap`.
ghost use Rattle.std.specs.Prelude.{◌≡◌, true, is_some};
ghost use Rattle.mob_frac.specs.Formula.{IsFormula, square_parts};
ghost use Rattle.mob_legs.specs.Legs.{length_squared};
ghost use Rattle.mob_knn.specs.Gaps.{range_gap, range_gap_parts, area_gap, area_gap_parts, are_apart, exact_or_nil, gap_of, IsGap};

use crate::gaps::kind::Gap;
use mob_frac::{Frac, Overflow};
use mob_plane::{greater, smaller};
use mob_stbox::{Area, StBox};

// The distance between the ranges from `a` to `b` and from `c` to `d`: 0 if they overlap.
fn range_gap(a: &Frac, b: &Frac, c: &Frac, d: &Frac) -> Result<Frac, Overflow>
    ensures value { IsFormula (range_gap_parts a.now b.now c.now d.now) (range_gap a.now b.now c.now d.now) result }
{
    let low = greater(a, c);
    let high = smaller(b, d);
    if !high.is_before(&low) {
        return Ok(Frac::zero());
    }
    low.sub(&high)
}

// The square of the length of a vector.
fn square(x: &Frac, y: &Frac) -> Result<Frac, Overflow>
    ensures value { IsFormula (square_parts x.now y.now) (length_squared x.now y.now) result }
{
    let p = x.mul(x)?;
    let q = y.mul(y)?;
    p.add(&q)
}

// The least squared distance of two areas.
fn area_gap(a: &Area, b: &Area) -> Result<Frac, Overflow>
    ensures value { IsFormula (area_gap_parts a.now b.now) (area_gap a.now b.now) result }
{
    let x = range_gap(&a.xmin, &a.xmax, &b.xmin, &b.xmax)?;
    let y = range_gap(&a.ymin, &a.ymax, &b.ymin, &b.ymax)?;
    square(&x, &y)
}

// The least squared distance of two areas, or 0 if a part of its formulas does not fit.
fn area_gap_or_zero(a: &Area, b: &Area) -> Frac
    ensures value { result ≡ exact_or_nil (area_gap_parts a.now b.now) (area_gap a.now b.now) }
{
    match area_gap(a, b) {
        Ok(square) => square,
        Err(_) => Frac::zero(),
    }
}

// Whether both boxes have times that share no instant.
fn are_apart(b: &StBox, q: &StBox) -> bool
    ensures value { result ≡ are_apart b.now.time q.now.time }
{
    match (b.time(), q.time()) {
        (Some(s), Some(r)) => !s.overlaps(r),
        _ => false,
    }
}

/// The gap of two boxes. It allocates nothing.
///
/// It is `Apart` exactly if both boxes have times that share no instant. Else it is the least
/// squared distance of their areas, or 0 if a part of its formulas does not fit. These are F2, in
/// each coordinate in which the ranges do not overlap, the greater of the two lower ends minus the
/// smaller of the two upper ends; and F6, the squares of these two differences and their sum. A box
/// without space is `Apart` or has the gap 0.
pub fn gap(b: &StBox, q: &StBox) -> Gap
    ensures means { is_some b.now.space ≡ true → is_some q.now.space ≡ true → IsGap b.now q.now result }
    ensures value { result ≡ gap_of b.now q.now }
{
    if are_apart(b, q) {
        return Gap::Apart;
    }
    match (b.space(), q.space()) {
        (Some(a), Some(c)) => Gap::AtLeast(area_gap_or_zero(a, c)),
        (None, _) => Gap::AtLeast(Frac::zero()),
        (Some(_), None) => Gap::AtLeast(Frac::zero()),
    }
}
