//! The six comparisons on two operands.
ghost use Rattle.std.specs.Prelude.{◌≡◌, true, false, ◌||◌, IfOk, IfErr};
ghost use Rattle.std.specs.List.{flat_map};
ghost use Rattle.mob_slice.specs.Comparison.{MayAsk};
ghost use Rattle.mob_slice.specs.Operands.{IsPointwise, steady_value, steady_limit};
ghost use Rattle.mob_slice.specs.Sides.{operand_of, has_slices, given_at, pieces, piece_of, HoldsPiece};
ghost use Rattle.mob_slice.specs.Entries.{IsJudged};
ghost use Rattle.mob_lift.specs.Given.{IsGiven, on_sides, AreLifted};
ghost use Rattle.mob_compare.specs.Compared.{entries_of_gaps};

use mob_cells::{ByGaps, flagged, gap_functions};
use mob_lift::normal::normal;
use mob_lift::walks::Pieces;
use mob_lift::{lift, single};
use mob_list::fault::Fault;
use mob_slice::{Compared, Course, Formula, Moving, Operand, Piece, Rel, Slice, Steady};
use std::alloc::Global;

// The comparison on one piece, of courses that are not steady.
pub(crate) fn on_lines<C: Compared + Drop>(
    alloc: Global,
    piece: &Piece<'_, C, C>,
    rel: Rel,
) -> Result<Vec<Slice<Steady<bool>>>, Fault<Formula>>
where
    C::Base: Drop,
    requires moves { C.STEADY ≡ false }
    requires asked { MayAsk C.ordered rel }
    requires holds { HoldsPiece C.start_of C.end_of C.start_of C.end_of (piece_of piece.now) }
    ensures given { IsGiven steady_value steady_limit steady_limit (λ v. v.items) (on_sides C.value_of C.value_of (C.relation rel) (piece_of piece.now)) piece.now.span (entries_of_gaps C.value_of C.parts_of C.gaps_of (piece_of piece.now)) result }
{
    let left = piece.left.on(alloc, &piece.span)?;
    let right = piece.right.on(alloc, &piece.span)?;
    let functions = gap_functions::<C>(
        alloc,
        left.course.start(),
        right.course.start(),
        left.course.end(),
        right.course.end(),
    )?;
    flagged(alloc, &piece.span, functions, &ByGaps { rel })
}

// The comparison on one piece.
fn on_piece<C: Compared + Drop>(
    alloc: Global,
    piece: &Piece<'_, C, C>,
    rel: Rel,
) -> Result<Vec<Slice<Steady<bool>>>, Fault<Formula>>
where
    C::Base: Drop,
    requires asked { MayAsk C.ordered rel }
    requires holds { HoldsPiece C.start_of C.end_of C.start_of C.end_of (piece_of piece.now) }
    ensures given { IsGiven steady_value steady_limit steady_limit (λ v. v.items) (on_sides C.value_of C.value_of (C.relation rel) (piece_of piece.now)) piece.now.span (entries_of_gaps C.value_of C.parts_of C.gaps_of (piece_of piece.now)) result }
{
    if C::STEADY {
        // A method call gives the proof the invariant of a span.
        let _ = piece.span.lower();
        let value = C::relates(rel, piece.left.start(), piece.right.start());
        return single(alloc, piece.span, value);
    }
    on_lines(alloc, piece, rel)
}

// The slices of the comparison of two operands.
fn compared<C: Compared + Drop>(
    alloc: Global,
    a: Operand<'_, C>,
    b: Operand<'_, C>,
    rel: Rel,
) -> Result<Vec<Slice<Steady<bool>>>, Fault<Formula>>
where
    C::Base: Drop,
    requires asked { MayAsk C.ordered rel }
    requires moving { (has_slices (operand_of a) || has_slices (operand_of b)) ≡ true }
    ensures slices { IfOk result (λ all. AreLifted C.value_of C.value_of steady_value steady_limit steady_limit (C.relation rel) (operand_of a.entry) (operand_of b.entry) all.items) }
    ensures first { IsJudged (flat_map (entries_of_gaps C.value_of C.parts_of C.gaps_of) (pieces (operand_of a.entry) (operand_of b.entry))) result }
    ensures memory { C.STEADY ≡ true → IfErr result (λ e. e ≡ Fault.NoMemory) }
{
    lift(
        alloc,
        Pieces::new(a, b),
        |piece: &Piece<'_, C, C>| -> Result<Vec<Slice<Steady<bool>>>, Fault<Formula>>
            requires asked { MayAsk C.ordered rel }
            requires holds { HoldsPiece C.start_of C.end_of C.start_of C.end_of (piece_of piece.now) }
            ensures given { IsGiven steady_value steady_limit steady_limit (λ v. v.items) (on_sides C.value_of C.value_of (C.relation rel) (piece_of piece.now)) piece.now.span (entries_of_gaps C.value_of C.parts_of C.gaps_of (piece_of piece.now)) result }
        { on_piece::<C>(alloc, piece, rel) },
    )
}

/// The ordinary comparison of two operands at each instant at which both have a value, including
/// the instant at which they cross. `None` exactly if no such instant exists. Call it with an order
/// relation only if the values have an order.
///
/// The fault names the formula of the first entry that has a part that does not fit: on each piece
/// that the operands share, F1 at its ends, then F2, the gaps there, then F3, the roots of the
/// gaps. Steady courses have no formula, and the only error is a failed allocation.
pub fn compare<C: Compared + Drop>(
    alloc: Global,
    a: Operand<'_, C>,
    b: Operand<'_, C>,
    rel: Rel,
) -> Result<Option<Moving<Steady<bool>>>, Fault<Formula>>
where
    C::Base: Drop,
    requires asked { MayAsk C.ordered rel }
    requires moving { (has_slices (operand_of a) || has_slices (operand_of b)) ≡ true }
    ensures value { IfOk result (λ r. IsPointwise steady_value (C.relation rel) (given_at C.value_of (operand_of a.entry)) (given_at C.value_of (operand_of b.entry)) r) }
    ensures first { IsJudged (flat_map (entries_of_gaps C.value_of C.parts_of C.gaps_of) (pieces (operand_of a.entry) (operand_of b.entry))) result }
    ensures memory { C.STEADY ≡ true → IfErr result (λ e. e ≡ Fault.NoMemory) }
{
    let slices = compared::<C>(alloc, a, b, rel)?;
    Ok(normal(alloc, slices)?)
}
