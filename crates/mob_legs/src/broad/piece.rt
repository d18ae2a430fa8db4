//! The nearness of two points on one piece of time, in numbers of any size.
ghost use Rattle.std.specs.Prelude.{◌≡◌, ◌||◌, ◌&&◌, true, false, not, IfOk};
ghost use Rattle.mob_ratio.specs.Quadratic.{reaches_by, infimum_by};
ghost use Rattle.mob_ratio.specs.Order.{before, up_to, smaller};
ghost use Rattle.mob_ratio.specs.Sign.{nil};
ghost use Rattle.mob_slice.specs.Sides.{piece_of};
ghost use Rattle.mob_legs.specs.Broad.{as_leg};
ghost use Rattle.mob_legs.specs.Legs.{leg_reaches, leg_approach, piece_reaches, piece_approach, squares_of};

use crate::broad::foot::{dot, foot_of, foot_reaches, foot_square};
use crate::broad::leg::{BroadLeg, leg_on};
use mob_slice::{Piece, PlaneLine};
use mob_span::Span;
use mob_wide::Broad;
use std::alloc::{AllocError, Global};

// The squared distance at the lower end.
fn first_square(alloc: Global, leg: &BroadLeg) -> Result<Broad, AllocError>
    ensures value { IfOk result (λ q. q ≡ (squares_of (as_leg leg.now)).first) }
{
    dot(alloc, &leg.x0, &leg.x0, &leg.y0, &leg.y0)
}

// The squared distance at the upper end.
fn last_square(alloc: Global, leg: &BroadLeg) -> Result<Broad, AllocError>
    ensures value { IfOk result (λ q. q ≡ (squares_of (as_leg leg.now)).last) }
{
    dot(alloc, &leg.x1, &leg.x1, &leg.y1, &leg.y1)
}

// How a square compares with the bound.
#[derive(Clone, Copy, Drop)]
struct Level {
    below: bool,
    above: bool,
}

// How a square compares with the bound.
fn level_of(alloc: Global, square: &Broad, bound: &Broad) -> Result<Level, AllocError>
    ensures below { IfOk result (λ l. l.below ≡ before square.now bound.now) }
    ensures above { IfOk result (λ l. l.above ≡ before bound.now square.now) }
{
    let below = square.is_before(alloc, bound)?;
    let above = bound.is_before(alloc, square)?;
    Ok(Level { below, above })
}

// Whether the bound is reached at an end of a span longer than an instant, or near it, or at both.
fn reaches_by(span: &Span, first: Level, last: Level) -> bool
    ensures value { result ≡ (first.below || last.below || (span.now.lower_inc && not first.above) || (span.now.upper_inc && not last.above) || (not first.above && not last.above) || false) }
{
    let at_lower = !first.above;
    let at_upper = !last.above;
    first.below
        || last.below
        || (span.lower_inc() && at_lower)
        || (span.upper_inc() && at_upper)
        || (at_lower && at_upper)
}

// Whether the bound is reached at an end of a span longer than an instant, or near it, or at both.
fn ends_reach(alloc: Global, leg: &BroadLeg, span: &Span, bound: &Broad) -> Result<bool, AllocError>
    ensures value { IfOk result (λ b. b ≡ reaches_by bound.now (squares_of (as_leg leg.now)).first (squares_of (as_leg leg.now)).last span.now.lower_inc span.now.upper_inc false) }
{
    let first = first_square(alloc, leg)?;
    let at_first = level_of(alloc, &first, bound)?;
    let last = last_square(alloc, leg)?;
    let at_last = level_of(alloc, &last, bound)?;
    Ok(reaches_by(span, at_first, at_last))
}

// Whether the bound is reached on a span longer than an instant.
#[tactic(auto, using(crate::proofs::Broadly::ends_suffice, crate::proofs::Broadly::ends_do_not))]
fn leg_reaches(
    alloc: Global,
    leg: &BroadLeg,
    span: &Span,
    square: &Broad,
) -> Result<bool, AllocError>
    requires square { up_to nil square.now ≡ true }
    ensures value { IfOk result (λ b. b ≡ leg_reaches square.now span.now.lower_inc span.now.upper_inc (as_leg leg.now)) }
{
    let ends = ends_reach(alloc, leg, span, square)?;
    if ends {
        return Ok(true);
    }
    let foot = foot_of(alloc, leg)?;
    let between = foot_reaches(alloc, &foot, square)?;
    Ok(between)
}

// Whether the bound is reached at the instant of a piece of one instant.
fn first_reaches(alloc: Global, leg: &BroadLeg, square: &Broad) -> Result<bool, AllocError>
    ensures value { IfOk result (λ b. b ≡ up_to (squares_of (as_leg leg.now)).first square.now) }
{
    let first = first_square(alloc, leg)?;
    let above = square.is_before(alloc, &first)?;
    Ok(!above)
}

/// Whether the squared distance is at most `square` at some instant of the piece. The only error is
/// a failed allocation.
pub fn broad_reaches(
    alloc: Global,
    piece: &Piece<'_, PlaneLine, PlaneLine>,
    square: &Broad,
) -> Result<bool, AllocError>
    requires square { up_to nil square.now ≡ true }
    ensures value { IfOk result (λ b. b ≡ piece_reaches square.now (piece_of piece.now)) }
{
    let leg = leg_on(alloc, piece)?;
    if piece.span.is_long() {
        return leg_reaches(alloc, &leg, &piece.span, square);
    }
    first_reaches(alloc, &leg, square)
}

// The smaller of the squared distances at the two ends.
fn smaller_square(alloc: Global, leg: &BroadLeg) -> Result<Broad, AllocError>
    ensures value { IfOk result (λ q. q ≡ smaller (squares_of (as_leg leg.now)).first (squares_of (as_leg leg.now)).last) }
{
    let first = first_square(alloc, leg)?;
    let last = last_square(alloc, leg)?;
    let less = last.is_before(alloc, &first)?;
    if less {
        return Ok(last);
    }
    Ok(first)
}

// The greatest lower bound on a span longer than an instant.
fn leg_approach(alloc: Global, leg: &BroadLeg) -> Result<Broad, AllocError>
    ensures value { IfOk result (λ m. m ≡ leg_approach (as_leg leg.now)) }
{
    let foot = foot_of(alloc, leg)?;
    match foot_square(alloc, &foot)? {
        Some(square) => Ok(square),
        None => smaller_square(alloc, leg),
    }
}

/// The greatest lower bound of the squared distance on the piece. The only error is a failed
/// allocation.
pub fn broad_approach(
    alloc: Global,
    piece: &Piece<'_, PlaneLine, PlaneLine>,
) -> Result<Broad, AllocError>
    ensures value { IfOk result (λ m. m ≡ piece_approach (piece_of piece.now)) }
{
    let leg = leg_on(alloc, piece)?;
    if piece.span.is_long() {
        return leg_approach(alloc, &leg);
    }
    first_square(alloc, &leg)
}
