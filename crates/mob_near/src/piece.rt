//! The nearness of two points on one piece of time.
ghost use Rattle.std.specs.Prelude.{◌≡◌, ◌&&◌, ◌||◌, IfOk};
ghost use Rattle.mob_ratio.specs.Quadratic.{reaches_by, infimum_by};
ghost use Rattle.mob_slice.specs.Entries.{IsDecided};
ghost use Rattle.mob_slice.specs.Sides.{HoldsPiece, piece_of};
ghost use Rattle.mob_near.specs.Entries.{entries_of_reach, entries_of_approach};
ghost use Rattle.mob_legs.specs.Legs.{piece_reaches, piece_approach};

use crate::foot::{reaches_between, square_between, square_if_between};
use crate::known::LastFound;
use crate::leg::{leg_on, squares_at_ends};
use mob_frac::Frac;
use mob_legs::Squares;
use mob_plane::smaller;
use mob_slice::{Formula, Piece, PlaneLine};
use mob_span::Span;
use std::alloc::Global;

// Whether the bound is reached at some instant of a span longer than an instant, from the squares
// at its ends and from whether the nearest point reaches it.
fn reaches_by(span: &Span, squares: &Squares, square: &Frac, between: bool) -> bool
    ensures value { result ≡ reaches_by square.now squares.now.first squares.now.last span.now.lower_inc span.now.upper_inc between }
{
    let at_lower = !square.is_before(&squares.first);
    let at_upper = !square.is_before(&squares.last);
    squares.first.is_before(square)
        || squares.last.is_before(square)
        || (span.lower_inc() && at_lower)
        || (span.upper_inc() && at_upper)
        || (at_lower && at_upper)
        || between
}

/// Whether the squared distance is at most `square` at some instant of the piece.
///
/// The fault names the formula of the first entry that does not fit: F1 at the ends of the piece,
/// F2, the difference there, F6, the squares there, and F5, the nearest point between.
pub fn piece_reaches(
    alloc: Global,
    piece: &Piece<'_, PlaneLine, PlaneLine>,
    square: &Frac,
    last: &mut LastFound,
) -> Result<bool, Formula>
    requires holds { HoldsPiece (λ c. c.from) (λ c. c.to) (λ c. c.from) (λ c. c.to) (piece_of piece.now) }
    ensures value { IfOk result (λ b. b ≡ piece_reaches square.now (piece_of piece.now)) }
    ensures first { IsDecided (entries_of_reach square.now (piece_of piece.now)) result }
{
    let leg = leg_on(alloc, piece, last)?;
    let squares = squares_at_ends(&leg, &mut last.squared)?;
    if !piece.span.is_long() {
        return Ok(!square.is_before(&squares.first));
    }
    match reaches_between(&leg, square) {
        Ok(between) => Ok(reaches_by(&piece.span, &squares, square, between)),
        Err(_) => Err(Formula::F5),
    }
}

// The greatest lower bound of the squares: that of the nearest point, or else the smaller one at an
// end.
fn infimum_by(squares: &Squares, between: Option<Frac>) -> Frac
    ensures value { result ≡ infimum_by squares.now.first squares.now.last between }
{
    match between {
        Some(square) => square,
        None => smaller(&squares.first, &squares.last),
    }
}

/// The greatest lower bound of the squared distance on the piece.
///
/// The fault is that of `piece_reaches`.
pub fn piece_approach(
    alloc: Global,
    piece: &Piece<'_, PlaneLine, PlaneLine>,
    last: &mut LastFound,
) -> Result<Frac, Formula>
    requires holds { HoldsPiece (λ c. c.from) (λ c. c.to) (λ c. c.from) (λ c. c.to) (piece_of piece.now) }
    ensures value { IfOk result (λ m. m ≡ piece_approach (piece_of piece.now)) }
    ensures first { IsDecided (entries_of_approach (piece_of piece.now)) result }
{
    let leg = leg_on(alloc, piece, last)?;
    let squares = squares_at_ends(&leg, &mut last.squared)?;
    if !piece.span.is_long() {
        return Ok(squares.first);
    }
    match square_between(&leg) {
        Ok(between) => Ok(infimum_by(&squares, between)),
        Err(_) => Err(Formula::F5),
    }
}

/// That of `piece_approach`. The fault only says that a step does not fit: no step is taken that the
/// result does not need.
pub fn piece_approach_alone(
    alloc: Global,
    piece: &Piece<'_, PlaneLine, PlaneLine>,
    last: &mut LastFound,
) -> Result<Frac, Formula>
    requires holds { HoldsPiece (λ c. c.from) (λ c. c.to) (λ c. c.from) (λ c. c.to) (piece_of piece.now) }
    ensures value { IfOk result (λ m. m ≡ piece_approach (piece_of piece.now)) }
{
    let leg = leg_on(alloc, piece, last)?;
    let squares = squares_at_ends(&leg, &mut last.squared)?;
    if !piece.span.is_long() {
        return Ok(squares.first);
    }
    match square_if_between(&leg) {
        Ok(between) => Ok(infimum_by(&squares, between)),
        Err(_) => Err(Formula::F5),
    }
}
