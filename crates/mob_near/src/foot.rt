//! The point of a segment that is nearest to (0, 0).
ghost use Rattle.std.specs.Prelude.{◌≡◌, ◌&&◌, IfOk};
ghost use Rattle.mob_ratio.specs.Ratio.{◌+ℚ◌, ◌-ℚ◌, ◌*ℚ◌};
ghost use Rattle.mob_frac.specs.Formula.{IsFormula, approach_parts, within_parts};
ghost use Rattle.mob_ratio.specs.Quadratic.{absolute};
ghost use Rattle.mob_legs.specs.Legs.{dot_parts, cross_parts, foot_by, foot_by_parts, foot_of, is_on_the_way, foot_reaches, reach_quotients, foot_square, square_quotients};

use mob_frac::{Frac, Overflow};
use mob_legs::{Foot, Leg};

// `x·y + z·w`
fn dot(x: &Frac, y: &Frac, z: &Frac, w: &Frac) -> Result<Frac, Overflow>
    ensures value { IsFormula (dot_parts x.now y.now z.now w.now) (x.now *ℚ y.now +ℚ z.now *ℚ w.now) result }
{
    let p = x.mul(y)?;
    let q = z.mul(w)?;
    p.add(&q)
}

// `x·y - z·w`
fn cross(x: &Frac, y: &Frac, z: &Frac, w: &Frac) -> Result<Frac, Overflow>
    ensures value { IsFormula (cross_parts x.now y.now z.now w.now) (x.now *ℚ y.now -ℚ z.now *ℚ w.now) result }
{
    let p = x.mul(y)?;
    let q = z.mul(w)?;
    p.sub(&q)
}

// The numbers of a segment from (x0, y0) that goes `ex` to the east and `ey` to the north.
fn foot_by(x0: &Frac, y0: &Frac, ex: &Frac, ey: &Frac) -> Result<Foot, Overflow>
    ensures value { IsFormula (foot_by_parts x0.now y0.now ex.now ey.now) (foot_by x0.now y0.now ex.now ey.now) result }
{
    let length = dot(ex, ex, ey, ey)?;
    let along = dot(x0, ex, y0, ey)?;
    let beyond = length.add(&along)?;
    let across = cross(x0, ey, y0, ex)?;
    Ok(Foot {
        length,
        along,
        beyond,
        across,
    })
}

// Whether the nearest point lies strictly between the ends.
fn is_on_the_way(foot: &Foot) -> bool
    ensures value { result ≡ is_on_the_way foot.now }
{
    foot.along.is_before(&Frac::zero()) && Frac::zero().is_before(&foot.beyond)
}

// The absolute value.
#[tactic(auto, unfolding(mob_ratio::specs::Quadratic::absolute))]
fn absolute(number: &Frac) -> Frac
    ensures value { result ≡ absolute number.now }
{
    if number.is_before(&Frac::zero()) {
        return number.negate();
    }
    *number
}

// Whether the nearest point lies strictly between the ends, and its squared length is at most
// `square`.
fn foot_reaches(foot: &Foot, square: &Frac) -> Result<bool, Overflow>
    requires sum { foot.now.beyond ≡ foot.now.length +ℚ foot.now.along }
    ensures value { IsFormula (reach_quotients square.now foot.now) (foot_reaches square.now foot.now) result }
{
    if !is_on_the_way(foot) {
        return Ok(false);
    }
    let height = foot.across.div(&foot.length)?;
    if foot.across.is_same(&Frac::zero()) {
        return Ok(true);
    }
    let bound = square.div(&foot.across)?;
    Ok(!absolute(&bound).is_before(&absolute(&height)))
}

// The squared length of the nearest point, if it lies strictly between the ends.
fn foot_square(foot: &Foot) -> Result<Option<Frac>, Overflow>
    requires sum { foot.now.beyond ≡ foot.now.length +ℚ foot.now.along }
    ensures value { IsFormula (square_quotients foot.now) (foot_square foot.now) result }
{
    if !is_on_the_way(foot) {
        return Ok(None);
    }
    let height = foot.across.div(&foot.length)?;
    Ok(Some(foot.across.mul(&height)?))
}

/// Whether the nearest point of a leg lies strictly between its ends, and its squared length is at
/// most `square`. It is `Overflow` exactly if a part of F5 does not fit.
pub fn reaches_between(leg: &Leg, square: &Frac) -> Result<bool, Overflow>
    ensures value { IsFormula (within_parts square.now leg.now.x0 leg.now.y0 leg.now.x1 leg.now.y1) (foot_reaches square.now (foot_of leg.now)) result }
{
    let ex = leg.x1.sub(&leg.x0)?;
    let ey = leg.y1.sub(&leg.y0)?;
    let foot = foot_by(&leg.x0, &leg.y0, &ex, &ey)?;
    foot_reaches(&foot, square)
}

/// The squared length of the nearest point of a leg, if it lies strictly between its ends. It is
/// `Overflow` exactly if a part of F5 does not fit.
pub fn square_between(leg: &Leg) -> Result<Option<Frac>, Overflow>
    ensures value { IsFormula (approach_parts leg.now.x0 leg.now.y0 leg.now.x1 leg.now.y1) (foot_square (foot_of leg.now)) result }
{
    let ex = leg.x1.sub(&leg.x0)?;
    let ey = leg.y1.sub(&leg.y0)?;
    let foot = foot_by(&leg.x0, &leg.y0, &ex, &ey)?;
    foot_square(&foot)
}

// Whether the nearest point of a leg lies strictly between its ends. It is `Overflow` only if a step
// does not fit. Where the leg does not approach at its start, that takes one product of vectors.
#[tactic(auto, using(crate::proofs::Turning::recedes, crate::proofs::Turning::turns))]
fn turns_between(leg: &Leg) -> Result<bool, Overflow>
    ensures value { IfOk result (λ b. b ≡ is_on_the_way (foot_of leg.now)) }
{
    let ex = leg.x1.sub(&leg.x0)?;
    let ey = leg.y1.sub(&leg.y0)?;
    let along = dot(&leg.x0, &ex, &leg.y0, &ey)?;
    if !along.is_before(&Frac::zero()) {
        return Ok(false);
    }
    let length = dot(&ex, &ex, &ey, &ey)?;
    let beyond = length.add(&along)?;
    Ok(Frac::zero().is_before(&beyond))
}

/// That of `square_between`. It is `Overflow` only if a step does not fit, and takes no step that
/// the result does not need: most nearest points lie at an end.
pub fn square_if_between(leg: &Leg) -> Result<Option<Frac>, Overflow>
    ensures value { IfOk result (λ o. o ≡ foot_square (foot_of leg.now)) }
{
    let between = turns_between(leg)?;
    if !between {
        return Ok(None);
    }
    square_between(leg)
}
