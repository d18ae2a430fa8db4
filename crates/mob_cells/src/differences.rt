//! Gaps of two courses at the ends of a piece.
ghost use Rattle.std.specs.Prelude.{◌≡◌, false, IfOk, MatchResult};
ghost use Rattle.mob_frac.specs.Formula.{AllFit};
ghost use Rattle.mob_slice.specs.Entries.{IsDecided};
ghost use Rattle.mob_slice.specs.Sides.{HasValues, HoldsPiece, HoldsSide, at_ends, piece_of, side_at, side_of, side_parts};
ghost use Rattle.mob_slice.specs.declared.formula.Formula.TheVariants.{F1};
ghost use Rattle.mob_cells.specs.Gaps.{end_gaps, entries_of_ends};

use mob_list::fault::Fault;
use mob_slice::{Compared, Course, Formula, Gaps, Piece, Side, Slice};
use mob_span::Span;
use std::alloc::Global;

/// The gaps of two courses at the two ends of a span.
#[derive(Clone, Copy)]
pub struct EndGaps {
    /// Those at the lower end.
    pub at_lower: Gaps,
    /// Those at the upper end.
    pub at_upper: Gaps,
}

// A side of a course that is not steady, on the piece. Copying such a value does not allocate.
fn on_piece_of<C: Course>(
    alloc: Global,
    side: &Side<'_, C>,
    span: &Span,
) -> Result<Slice<C>, Formula>
where
    C::Base: Drop,
    requires moves { C.STEADY ≡ false }
    requires holds { HoldsSide C.start_of C.end_of (side_of side.now) span.now }
    ensures slice { MatchResult result (λ s. HasValues C.value_of C.start_of C.end_of (side_at C.value_of (side_of side.now)) span.now s × AllFit (at_ends (side_parts C.parts_of (side_of side.now)) span.now)) (λ e. (e ≡ F1) × (¬ AllFit (at_ends (side_parts C.parts_of (side_of side.now)) span.now))) }
{
    match side.on(alloc, span) {
        Ok(slice) => Ok(slice),
        Err(Fault::Because(formula)) => Err(formula),
        Err(Fault::NoMemory) => unreachable!(),
    }
}

/// The gaps of two operands at the ends of a piece, for courses that are not steady. It does not
/// allocate.
///
/// The fault names the formula of the first entry that does not fit: F1 at the ends of the piece,
/// then F2, the gaps there.
pub fn gaps_at_ends<C: Compared + Drop>(
    alloc: Global,
    piece: &Piece<'_, C, C>,
) -> Result<EndGaps, Formula>
where
    C::Base: Drop,
    requires moves { C.STEADY ≡ false }
    requires holds { HoldsPiece C.start_of C.end_of C.start_of C.end_of (piece_of piece.now) }
    ensures gaps { IfOk result (λ g. g ≡ end_gaps C.value_of C.gaps_of (piece_of piece.now)) }
    ensures first { IsDecided (entries_of_ends C.value_of C.parts_of C.gaps_of (piece_of piece.now)) result }
{
    let left = on_piece_of::<C>(alloc, &piece.left, &piece.span)?;
    let right = on_piece_of::<C>(alloc, &piece.right, &piece.span)?;
    let at_lower = C::gaps(left.course.start(), right.course.start())?;
    let at_upper = C::gaps(left.course.end(), right.course.end())?;
    Ok(EndGaps { at_lower, at_upper })
}
