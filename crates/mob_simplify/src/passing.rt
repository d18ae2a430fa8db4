//! Whether a straight course may replace a run from one break to another.

ghost use Rattle.std.specs.Prelude.{◌≡◌, ◌++◌, [], ◌∷◌, true, IfOk};
ghost use Rattle.std.specs.List.{AllByRecursion};
ghost use Rattle.mob_ratio.specs.Ratio.{◌*ℚ◌, ◌-ℚ◌};
ghost use Rattle.mob_ratio.specs.Order.{before, up_to};
ghost use Rattle.mob_frac.specs.Fits.{IsExact};
ghost use Rattle.mob_frac.specs.Formula.{IsFormula, square_parts, distance_parts};
ghost use Rattle.mob_slice.specs.Computed.{IsComputed};
ghost use Rattle.mob_slice.specs.Entries.{IsDecided};
ghost use Rattle.mob_slice.specs.Lines.{plane_parts_of};
ghost use Rattle.mob_slice.specs.declared.formula.Formula.TheVariants.{F1, F2, F6};
ghost use Rattle.mob_legs.specs.Legs.{length_squared};
ghost use Rattle.mob_simplify.specs.Breaks.{straight, straight_at, off_course, passes_within};
ghost use Rattle.mob_simplify.specs.Reaches.{IsBreakReach, IsSquared, moved_at, moved_parts, part_gone, parts_gone};
ghost use Rattle.mob_simplify.specs.Tests.{entries_of_test, tests_within};

use crate::breaks::Break;
use mob_frac::{Frac, Overflow};
use mob_plane::Point;
use mob_slice::Formula;

/// A distance and its square. A square that overflows is reported by the first test that needs it.
#[derive(Clone, Copy, Drop)]
pub struct Limit {
    /// The distance.
    pub distance: Frac,
    /// Its square.
    pub square: Result<Frac, Overflow>,
}

/// A distance, with its square.
pub fn with_square(d: &Frac) -> Limit
    ensures distance { result.distance ≡ d.now }
    ensures square { IsSquared result }
{
    Limit {
        distance: *d,
        square: d.mul(d),
    }
}

/// The duration of a straight course, and its extent in x and y. One that overflows is reported by
/// the first test that needs it.
#[derive(Clone, Copy, Drop)]
pub struct CourseExtent {
    /// The duration.
    pub time: Result<Frac, Overflow>,
    /// The extent in x.
    pub east: Result<Frac, Overflow>,
    /// The extent in y.
    pub north: Result<Frac, Overflow>,
}

/// The duration and the extents of the straight course from `p` to `n`.
pub fn reach_of(p: &Break, n: &Break) -> CourseExtent
    ensures reach { IsBreakReach p.now n.now result }
{
    CourseExtent {
        time: n.instant.sub(&p.instant),
        east: n.place.x.sub(&p.place.x),
        north: n.place.y.sub(&p.place.y),
    }
}

// The fraction of the course's duration that has passed at an instant.
fn part_gone(
    start: &Frac,
    end: &Frac,
    time: &Result<Frac, Overflow>,
    t: &Frac,
) -> Result<Frac, Overflow>
    requires time { IsExact (end.now -ℚ start.now) time.now }
    requires long { before start.now end.now ≡ true }
    ensures value { IsFormula (parts_gone start.now end.now t.now) (part_gone start.now end.now t.now) result }
{
    let gone = t.sub(start)?;
    match time {
        Ok(whole) => gone.div(whole),
        Err(_) => Err(Overflow),
    }
}

// A coordinate of the course after a fraction of its duration.
fn moved(
    from: &Frac,
    to: &Frac,
    way: &Result<Frac, Overflow>,
    part: &Frac,
) -> Result<Frac, Overflow>
    requires way { IsExact (to.now -ℚ from.now) way.now }
    ensures value { IsFormula (moved_parts from.now to.now part.now) (moved_at from.now to.now part.now) result }
{
    if from.is_same(to) {
        return Ok(*from);
    }
    let whole = match way {
        Ok(whole) => whole,
        Err(_) => return Err(Overflow),
    };
    let gone = whole.mul(part)?;
    from.add(&gone)
}

// Both coordinates after a fraction of the duration.
fn moved_place(p: &Break, n: &Break, reach: &CourseExtent, part: &Frac) -> Result<Point, Overflow>
    requires reach { IsBreakReach p.now n.now reach.now }
    ensures value { IsFormula (moved_parts p.now.place.x n.now.place.x part.now ++ moved_parts p.now.place.y n.now.place.y part.now) (record { x = moved_at p.now.place.x n.now.place.x part.now; y = moved_at p.now.place.y n.now.place.y part.now }) result }
{
    let x = moved(&p.place.x, &n.place.x, &reach.east, part)?;
    let y = moved(&p.place.y, &n.place.y, &reach.north, part)?;
    Ok(Point { x, y })
}

// The place of the straight course from `p` to `n` at the instant of `b`.
fn straight_at(p: &Break, n: &Break, reach: &CourseExtent, b: &Break) -> Result<Point, Formula>
    requires reach { IsBreakReach p.now n.now reach.now }
    requires after { before p.now.instant b.now.instant ≡ true }
    requires until { before b.now.instant n.now.instant ≡ true }
    ensures value { IsComputed F1 (plane_parts_of (straight p.now n.now) p.now.instant n.now.instant b.now.instant) (straight_at p.now n.now b.now.instant) result }
{
    if p.place.is_same(&n.place) {
        return Ok(p.place);
    }
    let part = match part_gone(&p.instant, &n.instant, &reach.time, &b.instant) {
        Ok(part) => part,
        Err(_) => {
            return Err(Formula::F1);
        }
    };
    match moved_place(p, n, reach, &part) {
        Ok(place) => Ok(place),
        Err(_) => Err(Formula::F1),
    }
}

// The difference of two points, by coordinate.
fn difference(a: &Point, b: &Point) -> Result<Point, Formula>
    ensures value { IsComputed F2 ((a.now.x -ℚ b.now.x) ∷ (a.now.y -ℚ b.now.y) ∷ []) (record { x = a.now.x -ℚ b.now.x; y = a.now.y -ℚ b.now.y }) result }
{
    let Ok(x) = a.x.sub(&b.x) else {
        return Err(Formula::F2);
    };
    let Ok(y) = a.y.sub(&b.y) else {
        return Err(Formula::F2);
    };
    Ok(Point { x, y })
}

// The squared length of a vector, and whether it is at most that of the limit.
fn length_within(v: &Point, limit: &Limit) -> Result<bool, Overflow>
    requires square { IsSquared limit.now }
    ensures value { IsFormula (square_parts v.now.x v.now.y ++ distance_parts limit.now.distance) (up_to (length_squared v.now.x v.now.y) (limit.now.distance *ℚ limit.now.distance)) result }
{
    let east = v.x.mul(&v.x)?;
    let north = v.y.mul(&v.y)?;
    let square = east.add(&north)?;
    match &limit.square {
        Ok(bound) => Ok(!bound.is_before(&square)),
        Err(_) => Err(Overflow),
    }
}

/// Whether the straight course from `p` to `n` is within the limit of the break `b`. The error is
/// the first formula of the test with a part that does not fit.
pub fn is_near(
    p: &Break,
    n: &Break,
    reach: &CourseExtent,
    b: &Break,
    limit: &Limit,
) -> Result<bool, Formula>
    requires reach { IsBreakReach p.now n.now reach.now }
    requires square { IsSquared limit.now }
    requires after { before p.now.instant b.now.instant ≡ true }
    requires until { before b.now.instant n.now.instant ≡ true }
    ensures value { IfOk result (λ near. near ≡ up_to (off_course p.now n.now b.now) (limit.now.distance *ℚ limit.now.distance)) }
    ensures first { IsDecided (entries_of_test limit.now.distance p.now n.now b.now) result }
{
    let place = straight_at(p, n, reach, b)?;
    let gap = difference(&place, &b.place)?;
    match length_within(&gap, limit) {
        Ok(near) => Ok(near),
        Err(_) => Err(Formula::F6),
    }
}

/// Whether the break `n` passes after the kept break `p`: at each break between, the straight
/// course from `p` to `n` is within the limit of the place there. The error is the formula of
/// the first test with a part that does not fit. The tests stop at the first that fails.
pub fn passes(p: &Break, between: &[Break], n: &Break, limit: &Limit) -> Result<bool, Formula>
    requires square { IsSquared limit.now }
    requires between { AllByRecursion (λ b. (before p.now.instant b.instant ≡ true) × (before b.instant n.now.instant ≡ true)) between.now }
    ensures value { IfOk result (λ pass. pass ≡ passes_within limit.now.distance p.now between.now n.now) }
    ensures first { IsDecided (tests_within limit.now.distance p.now between.now n.now) result }
{
    let reach = reach_of(p, n);
    for b in between {
        let near = is_near(p, n, &reach, b, limit)?;
        if !near {
            return Ok(false);
        }
    }
    Ok(true)
}
