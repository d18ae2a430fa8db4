//! Velocities of straight courses from a kept break that surely are near all breaks between.
//!
//! A course is within a distance of a break if its velocity lies in a disc. The velocities that are
//! in a square inside each disc form a rectangle. What does not fit into 62 bits is not known; no
//! result depends on that.
ghost use Rattle.std.specs.Prelude.{◌≡◌, true, IfOk};
ghost use Rattle.mob_ratio.specs.Order.{before};
ghost use Rattle.mob_ratio.specs.Ratio.{Ratio, ◌+ℚ◌, ◌-ℚ◌};
ghost use Rattle.mob_ratio.specs.Sign.{nil};
ghost use Rattle.mob_simplify.specs.Skips.{IsInCircle, shared_velocities, has_velocity, is_sure, rate, rate_east, rate_north, time_to, velocities_near};

use crate::breaks::Break;
use mob_frac::{Frac, Overflow};
use mob_plane::{greater, smaller};

/// The velocities of a rectangle.
#[derive(Clone, Copy, Drop)]
pub struct Velocities {
    /// The least to the east.
    pub west: Frac,
    /// The greatest to the east.
    pub east: Frac,
    /// The least to the north.
    pub south: Frac,
    /// The greatest to the north.
    pub north: Frac,
}

/// The velocities that surely are near all breaks between.
#[derive(Clone, Copy, Drop)]
pub enum Sure {
    /// All: no break is between.
    All,
    /// Those of a rectangle.
    Within(Velocities),
    /// It is not known of any.
    Unknown,
}

/// Half the side of a square inside the circle with the radius `d`.
#[tactic(auto, using(crate::proofs::Squares::seven_tenths, crate::proofs::Squares::nothing))]
pub fn half_side(d: &Frac) -> Frac
    ensures inside { IsInCircle result d.now }
{
    let Ok(part) = Frac::new(7, 10) else {
        return Frac::zero();
    };
    match d.mul(&part) {
        Ok(half) => half,
        Err(_) => Frac::zero(),
    }
}

// The velocity of a coordinate that goes from `from` to `to` in this time.
fn rate(from: &Frac, to: &Frac, time: &Frac) -> Result<Frac, Overflow>
    requires later { before nil time.now ≡ true }
    ensures value { IfOk result (λ q. q ≡ rate from.now to.now time.now) }
{
    let way = to.sub(from)?;
    way.div(time)
}

// The velocities with which a coordinate is at most `half` from `to` after this time.
fn rates(from: &Frac, to: &Frac, half: &Frac, time: &Frac) -> Result<(Frac, Frac), Overflow>
    requires later { before nil time.now ≡ true }
    ensures least { IfOk result (λ r. r.0 ≡ rate from.now (to.now -ℚ half.now) time.now) }
    ensures greatest { IfOk result (λ r. r.1 ≡ rate from.now (to.now +ℚ half.now) time.now) }
{
    let lower = to.sub(half)?;
    let upper = to.add(half)?;
    let least = rate(from, &lower, time)?;
    let greatest = rate(from, &upper, time)?;
    Ok((least, greatest))
}

// The time from `p` to `n`.
fn time_to(p: &Break, n: &Break) -> Result<Frac, Overflow>
    requires after { before p.now.instant n.now.instant ≡ true }
    ensures value { IfOk result (λ t. t ≡ time_to p.now n.now) }
    ensures later { IfOk result (λ t. before nil t ≡ true) }
{
    let time = n.instant.sub(&p.instant)?;
    Ok(time)
}

// The velocities with which a course from `p` is at most `half` from `b` in each coordinate.
fn velocities_near(p: &Break, b: &Break, half: &Frac) -> Result<Velocities, Overflow>
    requires after { before p.now.instant b.now.instant ≡ true }
    ensures value { IfOk result (λ v. v ≡ velocities_near half.now p.now b.now) }
{
    let time = time_to(p, b)?;
    let (west, east) = rates(&p.place.x, &b.place.x, half, &time)?;
    let (south, north) = rates(&p.place.y, &b.place.y, half, &time)?;
    Ok(Velocities {
        west,
        east,
        south,
        north,
    })
}

// The velocities of both rectangles.
fn shared_velocities(v: &Velocities, w: &Velocities) -> Velocities
    ensures value { result ≡ shared_velocities v.now w.now }
{
    Velocities {
        west: greater(&v.west, &w.west),
        east: smaller(&v.east, &w.east),
        south: greater(&v.south, &w.south),
        north: smaller(&v.north, &w.north),
    }
}

/// The sure velocities, with one more break `b` between, given half the side of a square inside the
/// circle of the distance.
#[tactic(auto, using(crate::proofs::Rectangles::of_first, crate::proofs::Rectangles::of_second))]
pub fn narrowed(sure: &Sure, p: &Break, b: &Break, half: &Frac) -> Sure
    requires after { before p.now.instant b.now.instant ≡ true }
    ensures sure { (x y : Ratio) → is_sure result x y ≡ true → is_sure sure.now x y ≡ true }
    ensures near { (x y : Ratio) → is_sure result x y ≡ true → has_velocity (velocities_near half.now p.now b.now) x y ≡ true }
{
    let Ok(here) = velocities_near(p, b, half) else {
        return Sure::Unknown;
    };
    match sure {
        Sure::All => Sure::Within(here),
        Sure::Within(among) => Sure::Within(shared_velocities(among, &here)),
        Sure::Unknown => Sure::Unknown,
    }
}

// Whether a velocity is one of the rectangle.
fn has_velocity(v: &Velocities, x: &Frac, y: &Frac) -> bool
    ensures value { result ≡ has_velocity v.now x.now y.now }
{
    !x.is_before(&v.west) && !v.east.is_before(x) && !y.is_before(&v.south) && !v.north.is_before(y)
}

// The velocity of the course from `p` to `n`.
fn velocity(p: &Break, n: &Break) -> Result<(Frac, Frac), Overflow>
    requires after { before p.now.instant n.now.instant ≡ true }
    ensures east { IfOk result (λ v. v.0 ≡ rate_east p.now n.now) }
    ensures north { IfOk result (λ v. v.1 ≡ rate_north p.now n.now) }
{
    let time = time_to(p, n)?;
    let east = rate(&p.place.x, &n.place.x, &time)?;
    let north = rate(&p.place.y, &n.place.y, &time)?;
    Ok((east, north))
}

/// Whether the velocity of the straight course from `p` to `n` is surely near all breaks between.
/// If it is not known, it is false.
pub fn is_sure(sure: &Sure, p: &Break, n: &Break) -> bool
    requires after { before p.now.instant n.now.instant ≡ true }
    ensures sure { result ≡ true → is_sure sure.now (rate_east p.now n.now) (rate_north p.now n.now) ≡ true }
{
    let Sure::Within(among) = sure else {
        return false;
    };
    let Ok((x, y)) = velocity(p, n) else {
        return false;
    };
    has_velocity(among, &x, &y)
}
