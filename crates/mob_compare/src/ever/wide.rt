//! The ever and always comparisons in numbers of any size, as with `--wide`. A piece is decided in
//! `Frac`s, and only if a step of that overflows, in `Broad`s.
ghost use Rattle.std.specs.Prelude.{◌≡◌, ◌||◌, true, false, IfOk};
ghost use Rattle.mob_span.specs.Flags.{same_bool};
ghost use Rattle.mob_slice.specs.Comparison.{MayAsk};
ghost use Rattle.mob_slice.specs.Sides.{HoldsPiece, given_at, has_slices, operand_of, piece_of};
ghost use Rattle.mob_lift.specs.Sometime.{IsEver, IsAlways};
ghost use Rattle.mob_compare.specs.Met.{piece_meets};

use crate::ever::decided::contrary;
use crate::ever::piece::lines_meet;
use crate::ever::small::small_gaps;
use crate::ever::taken::gaps_meet;
use mob_cells::{HasCoordinates, gaps_at};
use mob_lift::either;
use mob_lift::walks::Pieces;
use mob_slice::{Operand, Piece, Rel};
use std::alloc::{AllocError, Global};

// Whether the comparison has the wanted result at some instant of the piece, in `Broad`s, for
// courses that are not steady.
fn meets_broadly<C: HasCoordinates + Drop>(
    alloc: Global,
    piece: &Piece<'_, C, C>,
    rel: Rel,
    want: bool,
) -> Result<bool, AllocError>
where
    C::Base: Drop,
    requires moves { C.STEADY ≡ false }
    ensures met { IfOk result (λ b. b ≡ piece_meets C.STEADY C.value_of C.start_of C.relation C.gaps_of rel want (piece_of piece.now)) }
{
    let first = gaps_at::<C>(alloc, piece, piece.span.lower())?;
    let last = gaps_at::<C>(alloc, piece, piece.span.upper())?;
    let small = small_gaps(alloc, &first, &last)?;
    let met = gaps_meet(&piece.span, rel, want, &small.at_lower, &small.at_upper);
    Ok(met)
}

// Whether the comparison has the wanted result at some instant of the piece, for courses that are
// not steady.
fn lines_meet_wide<C: HasCoordinates + Drop>(
    alloc: Global,
    piece: &Piece<'_, C, C>,
    rel: Rel,
    want: bool,
) -> Result<bool, AllocError>
where
    C::Base: Drop,
    requires moves { C.STEADY ≡ false }
    requires holds { HoldsPiece C.start_of C.end_of C.start_of C.end_of (piece_of piece.now) }
    ensures met { IfOk result (λ b. b ≡ piece_meets C.STEADY C.value_of C.start_of C.relation C.gaps_of rel want (piece_of piece.now)) }
{
    match lines_meet::<C>(alloc, piece, rel, want) {
        Ok(met) => Ok(met),
        Err(_) => meets_broadly::<C>(alloc, piece, rel, want),
    }
}

// Whether the comparison has the wanted result at some instant of the piece.
fn piece_meets_wide<C: HasCoordinates + Drop>(
    alloc: Global,
    piece: &Piece<'_, C, C>,
    rel: Rel,
    want: bool,
) -> Result<bool, AllocError>
where
    C::Base: Drop,
    requires asked { MayAsk C.ordered rel }
    requires holds { HoldsPiece C.start_of C.end_of C.start_of C.end_of (piece_of piece.now) }
    ensures met { IfOk result (λ b. b ≡ piece_meets C.STEADY C.value_of C.start_of C.relation C.gaps_of rel want (piece_of piece.now)) }
{
    if C::STEADY {
        return Ok(C::relates(rel, piece.left.start(), piece.right.start()) == want);
    }
    lines_meet_wide::<C>(alloc, piece, rel, want)
}

// Whether the comparison has the wanted result at some common instant. `None` exactly if no instant
// is common. The walk stops at the first piece that has one.
fn sometime_wide<C: HasCoordinates + Drop>(
    alloc: Global,
    a: Operand<'_, C>,
    b: Operand<'_, C>,
    rel: Rel,
    want: bool,
) -> Result<Option<bool>, AllocError>
where
    C::Base: Drop,
    requires asked { MayAsk C.ordered rel }
    requires moving { (has_slices (operand_of a) || has_slices (operand_of b)) ≡ true }
    ensures value { IfOk result (IsEver (λ x y. same_bool (C.relation rel x y) want) (given_at C.value_of (operand_of a.entry)) (given_at C.value_of (operand_of b.entry))) }
{
    let mut found = None;
    for piece in Pieces::new(a, b) {
        let here = match piece_meets_wide::<C>(alloc, &piece, rel, want) {
            Ok(here) => here,
            Err(fault) => return Err(fault),
        };
        if here {
            return Ok(Some(true));
        }
        found = Some(either(found, here));
    }
    Ok(found)
}

/// Whether the comparison holds at some instant at which both operands have a value, in numbers of
/// any size. It is that of `ever`, without its overflows. The walk stops at the first piece that
/// has such an instant. The only error is a failed allocation: it allocates only where a step of a
/// piece overflows.
pub fn ever_wide<C: HasCoordinates + Drop>(
    alloc: Global,
    a: Operand<'_, C>,
    b: Operand<'_, C>,
    rel: Rel,
) -> Result<Option<bool>, AllocError>
where
    C::Base: Drop,
    requires asked { MayAsk C.ordered rel }
    requires moving { (has_slices (operand_of a) || has_slices (operand_of b)) ≡ true }
    ensures value { IfOk result (IsEver (C.relation rel) (given_at C.value_of (operand_of a.entry)) (given_at C.value_of (operand_of b.entry))) }
{
    sometime_wide::<C>(alloc, a, b, rel, true)
}

/// Whether the comparison holds at every instant at which both operands have a value, in numbers of
/// any size. It is that of `always`, without its overflows. The walk stops at the first piece on
/// which the comparison fails. The only error is that of `ever_wide`.
pub fn always_wide<C: HasCoordinates + Drop>(
    alloc: Global,
    a: Operand<'_, C>,
    b: Operand<'_, C>,
    rel: Rel,
) -> Result<Option<bool>, AllocError>
where
    C::Base: Drop,
    requires asked { MayAsk C.ordered rel }
    requires moving { (has_slices (operand_of a) || has_slices (operand_of b)) ≡ true }
    ensures value { IfOk result (IsAlways (C.relation rel) (given_at C.value_of (operand_of a.entry)) (given_at C.value_of (operand_of b.entry))) }
{
    Ok(contrary(sometime_wide::<C>(alloc, a, b, rel, false)?))
}
