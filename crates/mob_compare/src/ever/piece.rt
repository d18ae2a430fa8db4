//! The ever comparison on one piece.
ghost use Rattle.std.specs.Prelude.{◌≡◌, false, IfOk};
ghost use Rattle.mob_slice.specs.Comparison.{MayAsk};
ghost use Rattle.mob_slice.specs.Entries.{IsDecided};
ghost use Rattle.mob_slice.specs.Sides.{HoldsPiece, piece_of};
ghost use Rattle.mob_cells.specs.Gaps.{entries_of_ends};
ghost use Rattle.mob_compare.specs.Met.{piece_meets};

use crate::ever::taken::gaps_meet;
use mob_cells::gaps_at_ends;
use mob_slice::{Compared, Formula, Piece, Rel};
use std::alloc::Global;

/// Whether the comparison has the wanted result at some instant of the piece, for courses that are
/// not steady. The fault is that of `piece_meets`.
pub fn lines_meet<C: Compared + Drop>(
    alloc: Global,
    piece: &Piece<'_, C, C>,
    rel: Rel,
    want: bool,
) -> Result<bool, Formula>
where
    C::Base: Drop,
    requires moves { C.STEADY ≡ false }
    requires holds { HoldsPiece C.start_of C.end_of C.start_of C.end_of (piece_of piece.now) }
    ensures met { IfOk result (λ b. b ≡ piece_meets C.STEADY C.value_of C.start_of C.relation C.gaps_of rel want (piece_of piece.now)) }
    ensures first { IsDecided (entries_of_ends C.value_of C.parts_of C.gaps_of (piece_of piece.now)) result }
{
    let gaps = gaps_at_ends(alloc, piece)?;
    let met = gaps_meet(&piece.span, rel, want, &gaps.at_lower, &gaps.at_upper);
    Ok(met)
}

/// Whether the comparison has the wanted result at some instant of the piece.
///
/// The fault names the formula of the first entry that does not fit: F1 at the ends of the piece,
/// then F2, the gaps there.
pub fn piece_meets<C: Compared + Drop>(
    alloc: Global,
    piece: &Piece<'_, C, C>,
    rel: Rel,
    want: bool,
) -> Result<bool, Formula>
where
    C::Base: Drop,
    requires asked { MayAsk C.ordered rel }
    requires holds { HoldsPiece C.start_of C.end_of C.start_of C.end_of (piece_of piece.now) }
    ensures met { IfOk result (λ b. b ≡ piece_meets C.STEADY C.value_of C.start_of C.relation C.gaps_of rel want (piece_of piece.now)) }
    ensures first { IsDecided (entries_of_ends C.value_of C.parts_of C.gaps_of (piece_of piece.now)) result }
{
    if C::STEADY {
        return Ok(C::relates(rel, piece.left.start(), piece.right.start()) == want);
    }
    lines_meet(alloc, piece, rel, want)
}
