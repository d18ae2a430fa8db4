//! Results at the end of a piece, kept for the piece that begins there: two neighbours share an
//! instant, and usually the points at it.

ghost use Rattle.std.specs.Prelude.{◌≡◌, true, false, MatchOption};
ghost use Rattle.mob_ratio.specs.Ratio.{◌-ℚ◌};
ghost use Rattle.mob_ratio.specs.Order.{up_to};
ghost use Rattle.mob_frac.specs.Formula.{AllFit, IsFormula, square_parts};
ghost use Rattle.mob_slice.specs.Comparison.{gap_parts};
ghost use Rattle.mob_slice.specs.Computed.{IsComputed};
ghost use Rattle.mob_slice.specs.Cut.{slice_value, slice_parts};
ghost use Rattle.mob_slice.specs.LineComparison.{point_gaps};
ghost use Rattle.mob_slice.specs.Lines.{plane_value_of, plane_parts_of};
ghost use Rattle.mob_slice.specs.Look.{IsLooked};
ghost use Rattle.mob_slice.specs.declared.formula.Formula.TheVariants.{F1};
ghost use Rattle.mob_legs.specs.Legs.{length_squared};

use mob_frac::{Frac, Overflow};
use mob_lift::walks::{Found, limit_found};
use mob_list::fault::Fault;
use mob_plane::Point;
use mob_slice::{Formula, PlaneLine, Slice, limit};
use std::alloc::Global;
use std::marker::Model;

/// The difference of two points.
#[derive(Drop)]
pub struct Apart {
    left: Point,
    right: Point,
    x: Frac,
    y: Frac,
}

impl Model for Apart {
    ghost use Rattle.mob_near.specs.Known.{ApartOf, IsDifference};

    ghost Value = { ApartOf };

    ghost view = { λ a. record { left = a.left; right = a.right; x = a.x; y = a.y } };

    ghost invariant = { λ a. IsDifference (record { left = a.left; right = a.right; x = a.x; y = a.y }) };
}

/// The squared length of a vector.
#[derive(Drop)]
pub struct Squared {
    x: Frac,
    y: Frac,
    square: Frac,
}

impl Model for Squared {
    ghost use Rattle.mob_near.specs.Known.{SquaredOf, IsSquareOf};

    ghost Value = { SquaredOf };

    ghost view = { λ s. record { x = s.x; y = s.y; square = s.square } };

    ghost invariant = { λ s. IsSquareOf (record { x = s.x; y = s.y; square = s.square }) };
}

/// The last results: the point of either side, their difference, and its squared length.
#[derive(Drop)]
pub struct LastFound {
    /// The point of the first side.
    pub left: Option<Found<PlaneLine>>,
    /// The point of the second side.
    pub right: Option<Found<PlaneLine>>,
    /// Their difference.
    pub apart: Option<Apart>,
    /// Its squared length.
    pub squared: Option<Squared>,
}

/// No results yet.
pub fn nothing() -> LastFound {
    LastFound {
        left: None,
        right: None,
        apart: None,
        squared: None,
    }
}

// The value of a slice at an instant, as `limit` returns it.
fn limit_again(
    alloc: Global,
    slice: &Slice<PlaneLine>,
    t: &Frac,
    found: &Option<Found<PlaneLine>>,
) -> Result<Point, Fault<Formula>>
    requires after { up_to slice.now.span.lower t.now ≡ true }
    requires until { up_to t.now slice.now.span.upper ≡ true }
    ensures value { IsLooked false (slice_parts plane_parts_of slice.now t.now) (slice_value plane_value_of slice.now t.now) result }
{
    match found {
        Some(last) => limit_found(alloc, slice, t, last),
        None => limit(alloc, slice, t),
    }
}

// The point of a slice at an instant strictly inside, which is kept.
fn point_within(
    alloc: Global,
    slice: &Slice<PlaneLine>,
    t: &Frac,
    found: &mut Option<Found<PlaneLine>>,
) -> Result<Point, Formula>
    requires after { up_to slice.now.span.lower t.now ≡ true }
    requires until { up_to t.now slice.now.span.upper ≡ true }
    ensures value { IsComputed F1 (slice_parts plane_parts_of slice.now t.now) (slice_value plane_value_of slice.now t.now) result }
{
    let point = match limit_again(alloc, slice, t, found) {
        Ok(point) => point,
        Err(Fault::Because(formula)) => return Err(formula),
        Err(Fault::NoMemory) => unreachable!(),
    };
    let copy = Slice {
        span: slice.span,
        course: slice.course,
    };
    let (from, to) = (point, point);
    *found = Some(Found::new(copy, *t, PlaneLine { from, to }));
    Ok(point)
}

/// The point of a slice at an instant of its span, or its limit at an end that the span excludes.
/// The fault is F1, exactly if a part of it does not fit.
pub fn point_at(
    alloc: Global,
    slice: &Slice<PlaneLine>,
    t: &Frac,
    found: &mut Option<Found<PlaneLine>>,
) -> Result<Point, Formula>
    requires after { up_to slice.now.span.lower t.now ≡ true }
    requires until { up_to t.now slice.now.span.upper ≡ true }
    ensures value { IsComputed F1 (slice_parts plane_parts_of slice.now t.now) (slice_value plane_value_of slice.now t.now) result }
{
    if t.is_same(slice.span.lower()) {
        return Ok(slice.course.from);
    }
    if t.is_same(slice.span.upper()) {
        return Ok(slice.course.to);
    }
    point_within(alloc, slice, t, found)
}

// Whether these are the points whose difference is known.
fn is_apart(apart: &Apart, left: &Point, right: &Point) -> bool
    ensures value { result ≡ true → (apart.now.left ≡ left.now) × (apart.now.right ≡ right.now) }
{
    if !apart.left.is_same(left) {
        return false;
    }
    apart.right.is_same(right)
}

// The difference of two points, if it is the last one computed.
fn apart_again(apart: &Option<Apart>, left: &Point, right: &Point) -> Option<(Frac, Frac)>
    ensures value { MatchOption result (Unit {0}) (λ d. (d ≡ (left.now.x -ℚ right.now.x, left.now.y -ℚ right.now.y)) × AllFit (gap_parts (point_gaps left.now right.now))) }
{
    match apart {
        Some(last) => {
            // Reading a field gives the proof the invariant of `last`.
            let _x = &last.x;
            if is_apart(last, left, right) {
                return Some((last.x, last.y));
            }
            None
        }
        None => None,
    }
}

// The difference of two points.
fn difference_of(left: &Point, right: &Point) -> Result<(Frac, Frac), Overflow>
    ensures value { IsFormula (gap_parts (point_gaps left.now right.now)) (left.now.x -ℚ right.now.x, left.now.y -ℚ right.now.y) result }
{
    let x = left.x.sub(&right.x)?;
    let y = left.y.sub(&right.y)?;
    Ok((x, y))
}

/// The difference `left - right` to the east and to the north. Usually it is the one kept from the
/// end of the piece before. It is `Overflow` exactly if a part of it does not fit.
pub fn difference(
    left: &Point,
    right: &Point,
    apart: &Option<Apart>,
) -> Result<(Frac, Frac), Overflow>
    ensures value { IsFormula (gap_parts (point_gaps left.now right.now)) (left.now.x -ℚ right.now.x, left.now.y -ℚ right.now.y) result }
{
    if let Some(known) = apart_again(apart, left, right) {
        return Ok(known);
    }
    difference_of(left, right)
}

/// The difference `left - right` to the east and to the north at the end of a piece, which is kept.
/// It is `Overflow` exactly if a part of it does not fit.
pub fn difference_kept(
    left: &Point,
    right: &Point,
    apart: &mut Option<Apart>,
) -> Result<(Frac, Frac), Overflow>
    ensures value { IsFormula (gap_parts (point_gaps left.now right.now)) (left.now.x -ℚ right.now.x, left.now.y -ℚ right.now.y) result }
{
    let x = left.x.sub(&right.x)?;
    let y = left.y.sub(&right.y)?;
    *apart = Some(Apart {
        left: *left,
        right: *right,
        x,
        y,
    });
    Ok((x, y))
}

// Whether this is the vector whose squared length is known.
fn is_squared(squared: &Squared, x: &Frac, y: &Frac) -> bool
    ensures value { result ≡ true → (squared.now.x ≡ x.now) × (squared.now.y ≡ y.now) }
{
    if !squared.x.is_same(x) {
        return false;
    }
    squared.y.is_same(y)
}

// The squared length of a vector, if it is the last one computed.
fn squared_again(squared: &Option<Squared>, x: &Frac, y: &Frac) -> Option<Frac>
    ensures value { MatchOption result (Unit {0}) (λ s. (s ≡ length_squared x.now y.now) × AllFit (square_parts x.now y.now)) }
{
    match squared {
        Some(last) => {
            // Reading a field gives the proof the invariant of `last`.
            let _square = &last.square;
            if is_squared(last, x, y) {
                return Some(last.square);
            }
            None
        }
        None => None,
    }
}

/// The squared length of a vector. It is `Overflow` exactly if a part of F6 does not fit.
pub fn square_of(x: &Frac, y: &Frac) -> Result<Frac, Overflow>
    ensures value { IsFormula (square_parts x.now y.now) (length_squared x.now y.now) result }
{
    let east = x.mul(x)?;
    let north = y.mul(y)?;
    east.add(&north)
}

/// The squared length of a vector. Usually it is the one kept from the end of the piece before. It
/// is `Overflow` exactly if a part of F6 does not fit.
pub fn square(x: &Frac, y: &Frac, squared: &Option<Squared>) -> Result<Frac, Overflow>
    ensures value { IsFormula (square_parts x.now y.now) (length_squared x.now y.now) result }
{
    if let Some(known) = squared_again(squared, x, y) {
        return Ok(known);
    }
    square_of(x, y)
}

/// The squared length of a vector at the end of a piece, which is kept. It is `Overflow` exactly if
/// a part of F6 does not fit.
pub fn square_kept(x: &Frac, y: &Frac, squared: &mut Option<Squared>) -> Result<Frac, Overflow>
    ensures value { IsFormula (square_parts x.now y.now) (length_squared x.now y.now) result }
{
    let square = square_of(x, y)?;
    *squared = Some(Squared {
        x: *x,
        y: *y,
        square,
    });
    Ok(square)
}
