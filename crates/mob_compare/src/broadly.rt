//! The comparison of two operands at each instant in numbers of any size, as with `--wide`. A piece
//! is compared in `Frac`s, and only if a step of that overflows, in `Broad`s.
ghost use Rattle.std.specs.List.{flat_map};
ghost use Rattle.std.specs.Prelude.{◌≡◌, true, false, ◌||◌, IfOk, IfErr};
ghost use Rattle.mob_slice.specs.Comparison.{MayAsk};
ghost use Rattle.mob_slice.specs.Entries.{IsJudged};
ghost use Rattle.mob_slice.specs.Operands.{IsPointwise, steady_value, steady_limit};
ghost use Rattle.mob_slice.specs.Sides.{HoldsPiece, given_at, has_slices, operand_of, piece_of, pieces};
ghost use Rattle.mob_lift.specs.Given.{AreLifted, IsGiven, on_sides};
ghost use Rattle.mob_compare.specs.Sql.Wide.{given_changes};

use crate::courses::on_lines;
use mob_cells::{HasCoordinates, flagged_wide, gaps_at, turning_on};
use mob_lift::normal::normal;
use mob_lift::walks::Pieces;
use mob_lift::{lift, single};
use mob_list::fault::Fault;
use mob_slice::{Formula, Moving, Operand, Piece, Rel, Slice, Steady};
use std::alloc::Global;

// The comparison on one piece in `Broad`s, of courses that are not steady.
fn on_broad_lines<C: HasCoordinates + Drop>(
    alloc: Global,
    piece: &Piece<'_, C, C>,
    rel: Rel,
) -> Result<Vec<Slice<Steady<bool>>>, Fault<Formula>>
where
    C::Base: Drop,
    requires moves { C.STEADY ≡ false }
    requires asked { MayAsk C.ordered rel }
    requires holds { HoldsPiece C.start_of C.end_of C.start_of C.end_of (piece_of piece.now) }
    ensures given { IsGiven steady_value steady_limit steady_limit (λ v. v.items) (on_sides C.value_of C.value_of (C.relation rel) (piece_of piece.now)) piece.now.span (given_changes C.value_of C.gaps_of (C.relation rel) (piece_of piece.now)) result }
{
    let first = gaps_at::<C>(alloc, piece, piece.span.lower())?;
    let last = gaps_at::<C>(alloc, piece, piece.span.upper())?;
    let turning = turning_on(alloc, &piece.span, rel, &first, &last)?;
    flagged_wide(alloc, &piece.span, &turning)
}

// The comparison on one piece, of courses that are not steady.
fn on_lines_wide<C: HasCoordinates + Drop>(
    alloc: Global,
    piece: &Piece<'_, C, C>,
    rel: Rel,
) -> Result<Vec<Slice<Steady<bool>>>, Fault<Formula>>
where
    C::Base: Drop,
    requires moves { C.STEADY ≡ false }
    requires asked { MayAsk C.ordered rel }
    requires holds { HoldsPiece C.start_of C.end_of C.start_of C.end_of (piece_of piece.now) }
    ensures given { IsGiven steady_value steady_limit steady_limit (λ v. v.items) (on_sides C.value_of C.value_of (C.relation rel) (piece_of piece.now)) piece.now.span (given_changes C.value_of C.gaps_of (C.relation rel) (piece_of piece.now)) result }
{
    match on_lines::<C>(alloc, piece, rel) {
        Ok(flags) => Ok(flags),
        Err(Fault::NoMemory) => Err(Fault::NoMemory),
        Err(Fault::Because(_)) => on_broad_lines::<C>(alloc, piece, rel),
    }
}

// The comparison on one piece, of steady courses.
fn on_steps_wide<C: HasCoordinates + Drop>(
    alloc: Global,
    piece: &Piece<'_, C, C>,
    rel: Rel,
) -> Result<Vec<Slice<Steady<bool>>>, Fault<Formula>>
where
    C::Base: Drop,
    requires steady { C.STEADY ≡ true }
    requires asked { MayAsk C.ordered rel }
    ensures given { IsGiven steady_value steady_limit steady_limit (λ v. v.items) (on_sides C.value_of C.value_of (C.relation rel) (piece_of piece.now)) piece.now.span (given_changes C.value_of C.gaps_of (C.relation rel) (piece_of piece.now)) result }
{
    // A method call gives the proof the invariant of a span.
    let _ = piece.span.lower();
    let value = C::relates(rel, piece.left.start(), piece.right.start());
    single(alloc, piece.span, value)
}

// The comparison on one piece.
fn on_piece_wide<C: HasCoordinates + Drop>(
    alloc: Global,
    piece: &Piece<'_, C, C>,
    rel: Rel,
) -> Result<Vec<Slice<Steady<bool>>>, Fault<Formula>>
where
    C::Base: Drop,
    requires asked { MayAsk C.ordered rel }
    requires holds { HoldsPiece C.start_of C.end_of C.start_of C.end_of (piece_of piece.now) }
    ensures given { IsGiven steady_value steady_limit steady_limit (λ v. v.items) (on_sides C.value_of C.value_of (C.relation rel) (piece_of piece.now)) piece.now.span (given_changes C.value_of C.gaps_of (C.relation rel) (piece_of piece.now)) result }
{
    if C::STEADY {
        return on_steps_wide::<C>(alloc, piece, rel);
    }
    on_lines_wide::<C>(alloc, piece, rel)
}

// The slices of the comparison of two operands.
fn compared_wide<C: HasCoordinates + Drop>(
    alloc: Global,
    a: Operand<'_, C>,
    b: Operand<'_, C>,
    rel: Rel,
) -> Result<Vec<Slice<Steady<bool>>>, Fault<Formula>>
where
    C::Base: Drop,
    requires asked { MayAsk C.ordered rel }
    requires moving { (has_slices (operand_of a) || has_slices (operand_of b)) ≡ true }
    ensures slices { IfOk result (λ all. AreLifted C.value_of C.value_of steady_value steady_limit steady_limit (C.relation rel) (operand_of a.entry) (operand_of b.entry) all.items) }
    ensures first { IsJudged (flat_map (given_changes C.value_of C.gaps_of (C.relation rel)) (pieces (operand_of a.entry) (operand_of b.entry))) result }
    ensures memory { C.STEADY ≡ true → IfErr result (λ e. e ≡ Fault.NoMemory) }
{
    lift(
        alloc,
        Pieces::new(a, b),
        |piece: &Piece<'_, C, C>| -> Result<Vec<Slice<Steady<bool>>>, Fault<Formula>>
            requires asked { MayAsk C.ordered rel }
            requires holds { HoldsPiece C.start_of C.end_of C.start_of C.end_of (piece_of piece.now) }
            ensures given { IsGiven steady_value steady_limit steady_limit (λ v. v.items) (on_sides C.value_of C.value_of (C.relation rel) (piece_of piece.now)) piece.now.span (given_changes C.value_of C.gaps_of (C.relation rel) (piece_of piece.now)) result }
        { on_piece_wide::<C>(alloc, piece, rel) },
    )
}

/// The comparison of two operands at each instant at which both have a value, in numbers of any
/// size. It is that of `compare`, whose steps may have any size here.
///
/// The fault is `Given`, exactly if an instant inside a piece at which the result changes does not
/// fit, or out of memory. Steady courses have no such instant, and the only error is a failed
/// allocation.
pub fn compare_wide<C: HasCoordinates + Drop>(
    alloc: Global,
    a: Operand<'_, C>,
    b: Operand<'_, C>,
    rel: Rel,
) -> Result<Option<Moving<Steady<bool>>>, Fault<Formula>>
where
    C::Base: Drop,
    requires asked { MayAsk C.ordered rel }
    requires moving { (has_slices (operand_of a) || has_slices (operand_of b)) ≡ true }
    ensures value { IfOk result (λ r. IsPointwise steady_value (C.relation rel) (given_at C.value_of (operand_of a.entry)) (given_at C.value_of (operand_of b.entry)) r) }
    ensures first { IsJudged (flat_map (given_changes C.value_of C.gaps_of (C.relation rel)) (pieces (operand_of a.entry) (operand_of b.entry))) result }
    ensures memory { C.STEADY ≡ true → IfErr result (λ e. e ≡ Fault.NoMemory) }
{
    let slices = compared_wide::<C>(alloc, a, b, rel)?;
    Ok(normal(alloc, slices)?)
}
