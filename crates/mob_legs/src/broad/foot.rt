//! The point of a segment that is nearest to (0, 0), in numbers of any size.
ghost use Rattle.std.specs.Prelude.{◌≡◌, true, IfOk, MatchOption, None, Some};
ghost use Rattle.mob_ratio.specs.Order.{up_to};
ghost use Rattle.mob_ratio.specs.Ratio.{◌+ℚ◌, ◌-ℚ◌, ◌*ℚ◌};
ghost use Rattle.mob_ratio.specs.Sign.{nil};
ghost use Rattle.mob_legs.specs.Broad.{as_leg, as_foot, IsVectorOf, IsWayOf, IsSquareBetween};
ghost use Rattle.mob_legs.specs.Legs.{foot_of, is_on_the_way, foot_reaches};

use crate::broad::leg::{BroadLeg, Spot};
use mob_wide::Broad;
use std::alloc::{AllocError, Global};

/// The length of a segment, and how its ends lie.
#[derive(Drop)]
pub struct BroadWay {
    /// The squared length of the segment.
    pub length: Broad,
    /// The dot product of the first difference and the segment's vector.
    pub along: Broad,
    /// The dot product of the last difference and the segment's vector.
    pub beyond: Broad,
}

/// The numbers that give the nearest point of the segment of a difference.
#[derive(Drop)]
pub struct BroadFoot {
    /// The length of the segment, and how its ends lie.
    pub way: BroadWay,
    /// The cross product of the first difference and the segment's vector.
    pub across: Broad,
}

/// `x·y + z·w`
pub fn dot(alloc: Global, x: &Broad, y: &Broad, z: &Broad, w: &Broad) -> Result<Broad, AllocError>
    ensures value { IfOk result (λ q. q ≡ x.now *ℚ y.now +ℚ z.now *ℚ w.now) }
{
    let p = x.times(alloc, y)?;
    let q = z.times(alloc, w)?;
    let sum = p.plus(alloc, &q)?;
    Ok(sum)
}

// `x·y - z·w`
fn cross(alloc: Global, x: &Broad, y: &Broad, z: &Broad, w: &Broad) -> Result<Broad, AllocError>
    ensures value { IfOk result (λ q. q ≡ x.now *ℚ y.now -ℚ z.now *ℚ w.now) }
{
    let p = x.times(alloc, y)?;
    let q = z.times(alloc, w)?;
    let difference = p.minus(alloc, &q)?;
    Ok(difference)
}

// The vector of a segment.
fn vector_of(alloc: Global, leg: &BroadLeg) -> Result<Spot, AllocError>
    ensures vector { IfOk result (IsVectorOf (as_leg leg.now)) }
{
    let x = leg.x1.minus(alloc, &leg.x0)?;
    let y = leg.y1.minus(alloc, &leg.y0)?;
    Ok(Spot { x, y })
}

// The length of a segment with this vector, and how its ends lie.
fn way_of(alloc: Global, leg: &BroadLeg, vector: &Spot) -> Result<BroadWay, AllocError>
    requires vector { IsVectorOf (as_leg leg.now) vector.now }
    ensures way { IfOk result (IsWayOf (as_leg leg.now)) }
{
    let length = dot(alloc, &vector.x, &vector.x, &vector.y, &vector.y)?;
    let along = dot(alloc, &leg.x0, &vector.x, &leg.y0, &vector.y)?;
    let beyond = length.plus(alloc, &along)?;
    Ok(BroadWay {
        length,
        along,
        beyond,
    })
}

/// The numbers of the segment of a difference.
pub fn foot_of(alloc: Global, leg: &BroadLeg) -> Result<BroadFoot, AllocError>
    ensures foot { IfOk result (λ f. as_foot f ≡ foot_of (as_leg leg.now)) }
{
    let vector = vector_of(alloc, leg)?;
    let way = way_of(alloc, leg, &vector)?;
    let across = cross(alloc, &leg.x0, &vector.y, &leg.y0, &vector.x)?;
    Ok(BroadFoot { way, across })
}

// Whether the nearest point lies strictly between the ends.
fn is_on_the_way(foot: &BroadFoot) -> bool
    ensures value { result ≡ is_on_the_way (as_foot foot.now) }
{
    foot.way.along.is_negative() && foot.way.beyond.is_positive()
}

/// Whether the nearest point lies strictly between the ends, and its squared length is at most
/// `square`: the square of `across` is then at most `length` times `square`.
#[tactic(auto, using(crate::proofs::Broadly::between_by, crate::proofs::Formulas::way_is_long))]
pub fn foot_reaches(alloc: Global, foot: &BroadFoot, square: &Broad) -> Result<bool, AllocError>
    requires sum { foot.now.way.beyond ≡ foot.now.way.length +ℚ foot.now.way.along }
    requires square { up_to nil square.now ≡ true }
    ensures value { IfOk result (λ b. b ≡ foot_reaches square.now (as_foot foot.now)) }
{
    if !is_on_the_way(foot) {
        return Ok(false);
    }
    let left = foot.across.times(alloc, &foot.across)?;
    let right = foot.way.length.times(alloc, square)?;
    let above = right.is_before(alloc, &left)?;
    Ok(!above)
}

/// The squared length of the nearest point, if it lies strictly between the ends.
#[tactic(auto, using(crate::proofs::Formulas::way_is_long))]
pub fn foot_square(alloc: Global, foot: &BroadFoot) -> Result<Option<Broad>, AllocError>
    requires sum { foot.now.way.beyond ≡ foot.now.way.length +ℚ foot.now.way.along }
    ensures value { IfOk result (IsSquareBetween (as_foot foot.now)) }
{
    if !is_on_the_way(foot) {
        return Ok(None);
    }
    let height = foot.across.over(alloc, &foot.way.length)?;
    let square = foot.across.times(alloc, &height)?;
    Ok(Some(square))
}
