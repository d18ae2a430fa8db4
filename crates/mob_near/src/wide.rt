//! Nearness in numbers of any size, as with `--wide`. A piece is decided in `Frac`s, and only if a
//! step of that overflows, in `Broad`s. A walk skips pieces whose rectangles cannot matter, and tests
//! rectangles as often as that pays.
ghost use Rattle.std.specs.Prelude.{◌≡◌, ◌||◌, true, false, None, Some, IfOk, IfSome};
ghost use Rattle.mob_ratio.specs.Order.{before, up_to, smaller, greater};
ghost use Rattle.mob_ratio.specs.Ratio.{◌+ℚ◌, ◌*ℚ◌};
ghost use Rattle.mob_ratio.specs.Sign.{nil};
ghost use Rattle.mob_span.specs.Span.{has_instant};
ghost use Rattle.mob_slice.specs.Entries.{IsJudged};
ghost use Rattle.mob_slice.specs.Lines.{plane_value_of};
ghost use Rattle.mob_slice.specs.Sides.{HoldsPiece, given_at, has_slices, operand_of, piece_of, pieces, side_of, side_start};
ghost use Rattle.mob_slice.specs.declared.mode.Mode.TheVariants.{Wide};
ghost use Rattle.mob_lift.specs.Sometime.{IsEver};
ghost use Rattle.mob_near.specs.Approaches.{IsApproach};
ghost use Rattle.mob_legs.specs.Covers.{cover_gap, is_beyond, piece_covers, range_between, is_apart_on};
ghost use Rattle.mob_near.specs.Distances.{are_within, distance_squared};
ghost use Rattle.mob_legs.specs.Legs.{nearest_of, piece_approach, piece_reaches};
ghost use Rattle.mob_near.specs.Wide.{IsGivenOf, approach_entries_in, least_approach};

use crate::known::{LastFound, nothing, square_of};
use crate::nearness::{never, share_time};
use crate::piece::{piece_approach_alone, piece_reaches};
use crate::testing::{Testing, at_once, is_due, learn};
use mob_frac::Frac;
use mob_legs::{broad_approach, broad_reaches};
use mob_lift::either;
use mob_lift::walks::Pieces;
use mob_list::fault::Fault;
use mob_plane::{Point, greater, smaller};
use mob_slice::{Formula, Operand, Piece, PlaneLine, Side};
use mob_wide::Exact;
use std::alloc::{AllocError, Global};

// Whether the squared distance is at most `square` at some instant of the piece, in `Broad`s.
fn reaches_broadly(
    alloc: Global,
    piece: &Piece<'_, PlaneLine, PlaneLine>,
    square: &Exact,
) -> Result<bool, AllocError>
    requires square { up_to nil square.now ≡ true }
    ensures value { IfOk result (λ b. b ≡ piece_reaches square.now (piece_of piece.now)) }
{
    let square = square.to_broad(alloc)?;
    let here = broad_reaches(alloc, piece, &square)?;
    Ok(here)
}

// The greatest lower bound of the squared distance on the piece, in `Broad`s.
fn approach_broadly(
    alloc: Global,
    piece: &Piece<'_, PlaneLine, PlaneLine>,
) -> Result<Exact, AllocError>
    ensures value { IfOk result (λ m. m ≡ piece_approach (piece_of piece.now)) }
{
    let least = broad_approach(alloc, piece)?;
    Ok(Exact::large(least))
}

// The greatest lower bound of the squared distance on the piece.
fn approach_wide_on(
    alloc: Global,
    piece: &Piece<'_, PlaneLine, PlaneLine>,
    last: &mut LastFound,
) -> Result<Exact, AllocError>
    requires holds { HoldsPiece (λ c. c.from) (λ c. c.to) (λ c. c.from) (λ c. c.to) (piece_of piece.now) }
    ensures value { IfOk result (λ m. m ≡ piece_approach (piece_of piece.now)) }
{
    match piece_approach_alone(alloc, piece, last) {
        Ok(least) => Ok(Exact::of(&least)),
        Err(_) => approach_broadly(alloc, piece),
    }
}

// The limit of a side at the lower end of its slice.
fn start_of<'a>(side: &Side<'a, PlaneLine>) -> &'a Point
    ensures limit { result.now ≡ side_start (λ c. c.from) (side_of side.now) }
{
    match *side {
        Side::Moving(slice) => &slice.course.from,
        Side::Fixed(point) => point,
    }
}

// The limit of a side at the upper end of its slice.
fn end_of<'a>(side: &Side<'a, PlaneLine>) -> &'a Point
    ensures limit { result.now ≡ side_start (λ c. c.to) (side_of side.now) }
{
    match *side {
        Side::Moving(slice) => &slice.course.to,
        Side::Fixed(point) => point,
    }
}

/// Whether one range of coordinates ends more than `d` before another begins. If that cannot be
/// decided in `Frac`s, it is false.
pub(crate) fn is_past(d: &Frac, end: &Frac, start: &Frac) -> bool
    ensures past { result ≡ true → before (end.now +ℚ d.now) start.now ≡ true }
{
    if !end.is_before(start) {
        return false;
    }
    let Ok(bound) = end.add(d) else {
        return false;
    };
    bound.is_before(start)
}

// Whether two ranges of coordinates are more than `d` apart, each from the one number to the other,
// in either order. If that cannot be decided in `Frac`s, it is false.
fn is_apart_on(d: &Frac, a0: &Frac, a1: &Frac, b0: &Frac, b1: &Frac) -> bool
    ensures apart { result ≡ true → is_apart_on d.now (smaller a0.now a1.now) (greater a0.now a1.now) (smaller b0.now b1.now) (greater b0.now b1.now) ≡ true }
{
    if a0.is_before(b0) {
        return is_past(d, &greater(a0, a1), &smaller(b0, b1));
    }
    is_past(d, &greater(b0, b1), &smaller(a0, a1))
}

// Whether the rectangles of the two sides' slices lie beyond the distance `d` of each other. If
// that cannot be decided in `Frac`s, it is false.
#[tactic(auto, using(crate::proofs::Widely::by_first, crate::proofs::Widely::by_second))]
fn is_far(piece: &Piece<'_, PlaneLine, PlaneLine>, d: &Frac) -> bool
    ensures far { result ≡ true → is_beyond d.now (piece_covers (piece_of piece.now)).0 (piece_covers (piece_of piece.now)).1 ≡ true }
{
    let a0 = start_of(&piece.left);
    let a1 = end_of(&piece.left);
    let b0 = start_of(&piece.right);
    let b1 = end_of(&piece.right);
    if is_apart_on(d, &a0.x, &a1.x, &b0.x, &b1.x) {
        return true;
    }
    is_apart_on(d, &a0.y, &a1.y, &b0.y, &b1.y)
}

// Whether the squared distance is at most `square`, that of `d`, at some instant of a piece that
// does not fit `Frac`s: in `Broad`s, unless the rectangles decide it.
#[tactic(auto, using(crate::proofs::Widely::far_piece))]
fn comes_within_broadly(
    alloc: Global,
    piece: &Piece<'_, PlaneLine, PlaneLine>,
    d: &Frac,
    square: &Exact,
) -> Result<bool, AllocError>
    requires holds { HoldsPiece (λ c. c.from) (λ c. c.to) (λ c. c.from) (λ c. c.to) (piece_of piece.now) }
    requires some { has_instant piece.now.span ≡ true }
    requires distance { up_to nil d.now ≡ true }
    requires square { square.now ≡ d.now *ℚ d.now }
    ensures value { IfOk result (λ b. b ≡ piece_reaches square.now (piece_of piece.now)) }
{
    if is_far(piece, d) {
        return Ok(false);
    }
    reaches_broadly(alloc, piece, square)
}

/// Whether the squared distance is at most `square`, that of `d`, at some instant of the piece. The
/// piece is computed in `Frac`s, without a look at its rectangles: that serves pieces that are
/// likely near.
pub(crate) fn comes_within_directly(
    alloc: Global,
    piece: &Piece<'_, PlaneLine, PlaneLine>,
    d: &Frac,
    square: &Exact,
    last: &mut LastFound,
) -> Result<bool, AllocError>
    requires holds { HoldsPiece (λ c. c.from) (λ c. c.to) (λ c. c.from) (λ c. c.to) (piece_of piece.now) }
    requires some { has_instant piece.now.span ≡ true }
    requires distance { up_to nil d.now ≡ true }
    requires square { square.now ≡ d.now *ℚ d.now }
    ensures value { IfOk result (λ b. b ≡ piece_reaches square.now (piece_of piece.now)) }
{
    let Some(small) = square.as_frac() else {
        return comes_within_broadly(alloc, piece, d, square);
    };
    match piece_reaches(alloc, piece, &small, last) {
        Ok(here) => Ok(here),
        Err(_) => comes_within_broadly(alloc, piece, d, square),
    }
}

// Whether a test is due and shows that the rectangles of the two sides' slices lie beyond the
// distance `d` of each other.
fn is_skipped(piece: &Piece<'_, PlaneLine, PlaneLine>, d: &Frac, testing: &mut Testing) -> bool
    ensures far { result ≡ true → is_beyond d.now (piece_covers (piece_of piece.now)).0 (piece_covers (piece_of piece.now)).1 ≡ true }
{
    if !is_due(testing) {
        return false;
    }
    let far = is_far(piece, d);
    learn(testing, far);
    far
}

// Whether the squared distance is at most `square`, that of `d`, at some instant of the piece. A
// piece is not computed if a test shows that its rectangles are too far apart.
#[tactic(auto, using(crate::proofs::Widely::far_piece))]
fn comes_within(
    alloc: Global,
    piece: &Piece<'_, PlaneLine, PlaneLine>,
    d: &Frac,
    square: &Exact,
    last: &mut LastFound,
    testing: &mut Testing,
) -> Result<bool, AllocError>
    requires holds { HoldsPiece (λ c. c.from) (λ c. c.to) (λ c. c.from) (λ c. c.to) (piece_of piece.now) }
    requires some { has_instant piece.now.span ≡ true }
    requires distance { up_to nil d.now ≡ true }
    requires square { square.now ≡ d.now *ℚ d.now }
    ensures value { IfOk result (λ b. b ≡ piece_reaches square.now (piece_of piece.now)) }
{
    if is_skipped(piece, d, testing) {
        return Ok(false);
    }
    comes_within_directly(alloc, piece, d, square, last)
}

// Whether the squared distance is at most `square`, that of `d`, at some common instant. The walk
// stops at the first piece that has one.
fn ever_comes_within(
    alloc: Global,
    a: Operand<'_, PlaneLine>,
    b: Operand<'_, PlaneLine>,
    d: &Frac,
    square: &Exact,
) -> Result<Option<bool>, AllocError>
    requires moving { (has_slices (operand_of a) || has_slices (operand_of b)) ≡ true }
    requires distance { up_to nil d.now ≡ true }
    requires square { square.now ≡ d.now *ℚ d.now }
    ensures value { IfOk result (IsEver (λ x y. up_to (distance_squared x y) square.now) (given_at plane_value_of (operand_of a.entry)) (given_at plane_value_of (operand_of b.entry))) }
{
    let mut found = None;
    let mut last = nothing();
    let mut testing = at_once();
    for piece in Pieces::new(a, b) {
        let here = match comes_within(alloc, &piece, d, square, &mut last, &mut testing) {
            Ok(here) => here,
            Err(fault) => return Err(fault),
        };
        if here {
            return Ok(Some(true));
        }
        found = Some(either(found, here));
    }
    Ok(found)
}

/// Whether the two points are within the distance `d` of each other at some instant at which both
/// are defined, in numbers of any size. It is that of `ever_within`, without its overflows. The
/// walk stops at the first piece that has such an instant, and skips most pieces that are too far
/// apart. The only error is a failed allocation: it allocates only where a step of a piece overflows.
pub fn ever_within_wide(
    alloc: Global,
    a: Operand<'_, PlaneLine>,
    b: Operand<'_, PlaneLine>,
    d: &Frac,
) -> Result<Option<bool>, AllocError>
    requires moving { (has_slices (operand_of a) || has_slices (operand_of b)) ≡ true }
    ensures value { IfOk result (IsEver (are_within d.now) (given_at plane_value_of (operand_of a.entry)) (given_at plane_value_of (operand_of b.entry))) }
{
    if d.is_before(&Frac::zero()) {
        return Ok(never(share_time(a, b)));
    }
    match Exact::square_of(alloc, d) {
        Ok(square) => ever_comes_within(alloc, a, b, d, &square),
        Err(fault) => {
            // Operands are not dropped. A call ends them.
            let _ = share_time(a, b);
            Err(fault)
        }
    }
}

/// The distance of two ranges of coordinates, each from its least to its greatest number. It is
/// `None` if it does not fit.
pub(crate) fn gap_between(a0: &Frac, a1: &Frac, b0: &Frac, b1: &Frac) -> Option<Frac>
    ensures gap { IfSome result (λ g. g ≡ range_between a0.now a1.now b0.now b1.now) }
{
    if a1.is_before(b0) {
        return b0.sub(a1).ok();
    }
    if b1.is_before(a0) {
        return a0.sub(b1).ok();
    }
    Some(Frac::zero())
}

// The distance of two ranges of coordinates, each from the one number to the other, in either
// order. It is `None` if it does not fit.
fn range_gap(a0: &Frac, a1: &Frac, b0: &Frac, b1: &Frac) -> Option<Frac>
    ensures gap { IfSome result (λ g. g ≡ range_between (smaller a0.now a1.now) (greater a0.now a1.now) (smaller b0.now b1.now) (greater b0.now b1.now)) }
{
    gap_between(
        &smaller(a0, a1),
        &greater(a0, a1),
        &smaller(b0, b1),
        &greater(b0, b1),
    )
}

// The squared distance of the rectangles of the two sides' slices. It is `None` if a step to it
// does not fit.
fn gap_of(piece: &Piece<'_, PlaneLine, PlaneLine>) -> Option<Frac>
    ensures gap { IfSome result (λ g. g ≡ cover_gap (piece_covers (piece_of piece.now)).0 (piece_covers (piece_of piece.now)).1) }
{
    let a0 = start_of(&piece.left);
    let a1 = end_of(&piece.left);
    let b0 = start_of(&piece.right);
    let b1 = end_of(&piece.right);
    let Some(x) = range_gap(&a0.x, &a1.x, &b0.x, &b1.x) else {
        return None;
    };
    let Some(y) = range_gap(&a0.y, &a1.y, &b0.y, &b1.y) else {
        return None;
    };
    square_of(&x, &y).ok()
}

// Whether the rectangles of the two sides' slices are at least as far apart as `found`. If their
// distance does not fit, it is false.
fn is_beyond_found(
    alloc: Global,
    piece: &Piece<'_, PlaneLine, PlaneLine>,
    found: &Exact,
) -> Result<bool, AllocError>
    ensures beyond { IfOk result (λ b. b ≡ true → up_to found.now (cover_gap (piece_covers (piece_of piece.now)).0 (piece_covers (piece_of piece.now)).1) ≡ true) }
{
    let Some(gap) = gap_of(piece) else {
        return Ok(false);
    };
    let gap = Exact::of(&gap);
    let nearer = gap.is_below(alloc, found)?;
    Ok(!nearer)
}

// Lowers the result so far to a number, if that is no larger.
fn lower(alloc: Global, here: Exact, found: &mut Exact) -> Result<(), AllocError>
    ensures value { IfOk result (λ _. found.new ≡ smaller here found.old) }
{
    let less = found.is_below(alloc, &here)?;
    if less {
        return Ok(());
    }
    *found = here;
    Ok(())
}

// Lowers the result so far to a `Frac`, if that is no larger. If both are `Frac`s, they are compared
// first, so that usually nothing is moved.
fn lower_to(alloc: Global, here: &Frac, found: &mut Exact) -> Result<(), AllocError>
    ensures value { IfOk result (λ _. found.new ≡ smaller here.now found.old) }
{
    let Some(known) = found.as_frac() else {
        return lower(alloc, Exact::of(here), found);
    };
    if known.is_before(here) {
        return Ok(());
    }
    *found = Exact::of(here);
    Ok(())
}

// Lowers the result so far to that of one more piece that does not fit `Frac`s: in `Broad`s, unless
// its rectangles are no nearer.
#[tactic(auto, using(crate::proofs::Widely::beyond_piece))]
fn nearer_broadly(
    alloc: Global,
    piece: &Piece<'_, PlaneLine, PlaneLine>,
    found: &mut Exact,
) -> Result<(), AllocError>
    requires holds { HoldsPiece (λ c. c.from) (λ c. c.to) (λ c. c.from) (λ c. c.to) (piece_of piece.now) }
    requires some { has_instant piece.now.span ≡ true }
    ensures value { IfOk result (λ _. found.new ≡ smaller (piece_approach (piece_of piece.now)) found.old) }
{
    let beyond = is_beyond_found(alloc, piece, found)?;
    if beyond {
        return Ok(());
    }
    let here = approach_broadly(alloc, piece)?;
    lower(alloc, here, found)
}

// Lowers the result so far to that of one more piece, which is computed in `Frac`s without a look at
// its rectangles.
fn nearer_than_directly(
    alloc: Global,
    piece: &Piece<'_, PlaneLine, PlaneLine>,
    found: &mut Exact,
    last: &mut LastFound,
) -> Result<(), AllocError>
    requires holds { HoldsPiece (λ c. c.from) (λ c. c.to) (λ c. c.from) (λ c. c.to) (piece_of piece.now) }
    requires some { has_instant piece.now.span ≡ true }
    ensures value { IfOk result (λ _. found.new ≡ smaller (piece_approach (piece_of piece.now)) found.old) }
{
    match piece_approach_alone(alloc, piece, last) {
        Ok(here) => lower_to(alloc, &here, found),
        Err(_) => nearer_broadly(alloc, piece, found),
    }
}

// Sets the result so far to that of the first piece.
fn nearest_first(
    alloc: Global,
    piece: &Piece<'_, PlaneLine, PlaneLine>,
    found: &mut Option<Exact>,
    last: &mut LastFound,
) -> Result<(), AllocError>
    requires holds { HoldsPiece (λ c. c.from) (λ c. c.to) (λ c. c.from) (λ c. c.to) (piece_of piece.now) }
    ensures value { IfOk result (λ _. found.new ≡ Some (piece_approach (piece_of piece.now))) }
{
    let here = approach_wide_on(alloc, piece, last)?;
    *found = Some(here);
    Ok(())
}

/// Lowers the result so far to that of one more piece, which is computed in `Frac`s without a look
/// at its rectangles: that serves pieces that are likely near.
pub(crate) fn nearer_directly(
    alloc: Global,
    piece: &Piece<'_, PlaneLine, PlaneLine>,
    found: &mut Option<Exact>,
    last: &mut LastFound,
) -> Result<(), AllocError>
    requires holds { HoldsPiece (λ c. c.from) (λ c. c.to) (λ c. c.from) (λ c. c.to) (piece_of piece.now) }
    requires some { has_instant piece.now.span ≡ true }
    ensures value { IfOk result (λ _. found.new ≡ Some (nearest_of found.old (piece_approach (piece_of piece.now)))) }
{
    match found {
        Some(found) => nearer_than_directly(alloc, piece, found, last),
        None => nearest_first(alloc, piece, found, last),
    }
}

// Whether a test is due and shows that the rectangles of the two sides' slices are at least as far
// apart as `found`.
fn is_no_nearer(
    alloc: Global,
    piece: &Piece<'_, PlaneLine, PlaneLine>,
    found: &Exact,
    testing: &mut Testing,
) -> Result<bool, AllocError>
    ensures beyond { IfOk result (λ b. b ≡ true → up_to found.now (cover_gap (piece_covers (piece_of piece.now)).0 (piece_covers (piece_of piece.now)).1) ≡ true) }
{
    if !is_due(testing) {
        return Ok(false);
    }
    let beyond = is_beyond_found(alloc, piece, found)?;
    learn(testing, beyond);
    Ok(beyond)
}

// Lowers the result so far to that of one more piece.
#[tactic(auto, using(crate::proofs::Widely::beyond_piece))]
fn nearer_than(
    alloc: Global,
    piece: &Piece<'_, PlaneLine, PlaneLine>,
    found: &mut Exact,
    last: &mut LastFound,
    testing: &mut Testing,
) -> Result<(), AllocError>
    requires holds { HoldsPiece (λ c. c.from) (λ c. c.to) (λ c. c.from) (λ c. c.to) (piece_of piece.now) }
    requires some { has_instant piece.now.span ≡ true }
    ensures value { IfOk result (λ _. found.new ≡ smaller (piece_approach (piece_of piece.now)) found.old) }
{
    let beyond = is_no_nearer(alloc, piece, found, testing)?;
    if beyond {
        return Ok(());
    }
    nearer_than_directly(alloc, piece, found, last)
}

// Lowers the result so far to that of one more piece. A piece is not computed if a test shows that
// its rectangles are no nearer.
fn nearer(
    alloc: Global,
    piece: &Piece<'_, PlaneLine, PlaneLine>,
    found: &mut Option<Exact>,
    last: &mut LastFound,
    testing: &mut Testing,
) -> Result<(), AllocError>
    requires holds { HoldsPiece (λ c. c.from) (λ c. c.to) (λ c. c.from) (λ c. c.to) (piece_of piece.now) }
    requires some { has_instant piece.now.span ≡ true }
    ensures value { IfOk result (λ _. found.new ≡ Some (nearest_of found.old (piece_approach (piece_of piece.now)))) }
{
    match found {
        Some(found) => nearer_than(alloc, piece, found, last, testing),
        None => nearest_first(alloc, piece, found, last),
    }
}

/// The greatest lower bound of the squared distance of the two points over all instants at which
/// both are defined, of any size. `None` exactly if no such instant exists. The walk skips most
/// pieces whose rectangles are no nearer than the result so far. The only error is a failed
/// allocation: it allocates only where a step of a piece overflows.
pub fn least_exact(
    alloc: Global,
    a: Operand<'_, PlaneLine>,
    b: Operand<'_, PlaneLine>,
) -> Result<Option<Exact>, AllocError>
    requires moving { (has_slices (operand_of a) || has_slices (operand_of b)) ≡ true }
    ensures value { IfOk result (IsApproach (given_at plane_value_of (operand_of a.entry)) (given_at plane_value_of (operand_of b.entry))) }
    ensures least { IfOk result (λ o. o ≡ least_approach (pieces (operand_of a.entry) (operand_of b.entry))) }
{
    let mut nearest = None;
    let mut last = nothing();
    let mut testing = at_once();
    for piece in Pieces::new(a, b) {
        nearer(alloc, &piece, &mut nearest, &mut last, &mut testing)?;
    }
    Ok(nearest)
}

/// The number, if it fits.
pub(crate) fn given(alloc: Global, number: &Exact) -> Result<Option<Frac>, Fault<Formula>>
    ensures given { IsGivenOf number.now result }
{
    let fitting = number.fitting(alloc)?;
    match fitting {
        Some(number) => Ok(Some(number)),
        None => Err(Fault::Because(Formula::Given)),
    }
}

/// The greatest lower bound of the squared distance of the two points over all instants at which
/// both are defined. `None` exactly if no such instant exists. It is that of `approach_squared`, if
/// that has one.
///
/// The fault is `Given`, exactly if that number does not fit, or out of memory.
#[tactic(auto, using(crate::proofs::Widely::given_value, crate::proofs::Widely::given_judged, crate::proofs::Widely::none_judged))]
pub fn approach_wide(
    alloc: Global,
    a: Operand<'_, PlaneLine>,
    b: Operand<'_, PlaneLine>,
) -> Result<Option<Frac>, Fault<Formula>>
    requires moving { (has_slices (operand_of a) || has_slices (operand_of b)) ≡ true }
    ensures value { IfOk result (IsApproach (given_at plane_value_of (operand_of a.entry)) (given_at plane_value_of (operand_of b.entry))) }
    ensures first { IsJudged (approach_entries_in Wide (pieces (operand_of a.entry) (operand_of b.entry))) result }
{
    let nearest = least_exact(alloc, a, b)?;
    match nearest {
        Some(square) => given(alloc, &square),
        None => Ok(None),
    }
}
