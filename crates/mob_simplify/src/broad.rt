//! The test of a break in numbers of any size. The only error is a failed allocation.
ghost use Rattle.std.specs.Prelude.{◌≡◌, true, IfOk};
ghost use Rattle.mob_ratio.specs.Line.{line_at};
ghost use Rattle.mob_ratio.specs.Order.{before, up_to};
ghost use Rattle.mob_ratio.specs.Ratio.{◌-ℚ◌, ◌*ℚ◌};
ghost use Rattle.mob_legs.specs.Legs.{length_squared};
ghost use Rattle.mob_simplify.specs.Breaks.{off_course};
ghost use Rattle.mob_simplify.specs.Reaches.{IsBreakReach, IsSquared};

use crate::breaks::Break;
use crate::passing::{CourseExtent, Limit, is_near};
use mob_frac::Frac;
use mob_wide::{Broad, line_at};
use std::alloc::{AllocError, Global};

/// A coordinate at the two ends of a straight course.
#[derive(Clone, Copy, Drop)]
struct Ends {
    /// At the start.
    from: Frac,
    /// At the end.
    to: Frac,
}

// How far the course is from a coordinate of the break `b`, at the instant of `b`.
fn offset(
    alloc: Global,
    ends: &Ends,
    p: &Break,
    n: &Break,
    b: &Break,
    place: &Frac,
) -> Result<Broad, AllocError>
    ensures value { IfOk result (λ q. q ≡ line_at ends.now.from ends.now.to p.now.instant n.now.instant b.now.instant -ℚ place.now) }
{
    let course = line_at(
        alloc, &ends.from, &ends.to, &p.instant, &n.instant, &b.instant,
    )?;
    let place = Broad::new(alloc, place)?;
    let offset = course.minus(alloc, &place)?;
    Ok(offset)
}

// `x·x + y·y`
fn square_of(alloc: Global, x: &Broad, y: &Broad) -> Result<Broad, AllocError>
    ensures value { IfOk result (λ q. q ≡ length_squared x.now y.now) }
{
    let east = x.times(alloc, x)?;
    let north = y.times(alloc, y)?;
    let square = east.plus(alloc, &north)?;
    Ok(square)
}

// The squared distance between the straight course from `p` to `n` and the place of `b`, at the
// instant of `b`.
fn off_course(alloc: Global, p: &Break, n: &Break, b: &Break) -> Result<Broad, AllocError>
    ensures value { IfOk result (λ q. q ≡ off_course p.now n.now b.now) }
{
    let east = Ends {
        from: p.place.x,
        to: n.place.x,
    };
    let north = Ends {
        from: p.place.y,
        to: n.place.y,
    };
    let x = offset(alloc, &east, p, n, b, &b.place.x)?;
    let y = offset(alloc, &north, p, n, b, &b.place.y)?;
    let square = square_of(alloc, &x, &y)?;
    Ok(square)
}

// The square of a number.
fn squared(alloc: Global, d: &Frac) -> Result<Broad, AllocError>
    ensures value { IfOk result (λ q. q ≡ d.now *ℚ d.now) }
{
    let number = Broad::new(alloc, d)?;
    let square = number.times(alloc, &number)?;
    Ok(square)
}

// Whether the straight course from `p` to `n` is within the distance `d` of the break `b`.
fn is_near_broadly(
    alloc: Global,
    p: &Break,
    n: &Break,
    b: &Break,
    d: &Frac,
) -> Result<bool, AllocError>
    ensures value { IfOk result (λ near. near ≡ up_to (off_course p.now n.now b.now) (d.now *ℚ d.now)) }
{
    let square = off_course(alloc, p, n, b)?;
    let bound = squared(alloc, d)?;
    let above = bound.is_before(alloc, &square)?;
    Ok(!above)
}

/// Whether the straight course from `p` to `n` is within the limit of the break `b`. It is decided
/// in `Frac`s, and only if a step of that overflows, in `Broad`s.
pub fn is_near_wide(
    alloc: Global,
    p: &Break,
    n: &Break,
    reach: &CourseExtent,
    b: &Break,
    limit: &Limit,
) -> Result<bool, AllocError>
    requires reach { IsBreakReach p.now n.now reach.now }
    requires square { IsSquared limit.now }
    requires after { before p.now.instant b.now.instant ≡ true }
    requires until { before b.now.instant n.now.instant ≡ true }
    ensures value { IfOk result (λ near. near ≡ up_to (off_course p.now n.now b.now) (limit.now.distance *ℚ limit.now.distance)) }
{
    match is_near(p, n, reach, b, limit) {
        Ok(near) => Ok(near),
        Err(_) => is_near_broadly(alloc, p, n, b, &limit.distance),
    }
}
