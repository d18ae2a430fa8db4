//! The ever and always comparisons.
ghost use Rattle.std.specs.Prelude.{◌≡◌, ◌||◌, true, false, IfOk, IsOk, option_map, not};
ghost use Rattle.std.specs.List.{flat_map};
ghost use Rattle.mob_span.specs.Flags.{same_bool};
ghost use Rattle.mob_slice.specs.Comparison.{MayAsk};
ghost use Rattle.mob_slice.specs.Entries.{IsDecided};
ghost use Rattle.mob_slice.specs.Sides.{given_at, has_slices, operand_of, pieces};
ghost use Rattle.mob_cells.specs.Gaps.{entries_of_ends};
ghost use Rattle.mob_lift.specs.Sometime.{IsEver, IsAlways};

use crate::ever::piece::piece_meets;
use mob_lift::either;
use mob_lift::walks::Pieces;
use mob_slice::{Compared, Formula, Operand, Rel};
use std::alloc::Global;

/// The negated answer, if it exists.
pub fn contrary(answer: Option<bool>) -> Option<bool>
    ensures value { result ≡ option_map not answer }
{
    match answer {
        Some(truth) => Some(!truth),
        None => None,
    }
}

// Whether the comparison has the wanted result at some common instant. `None` exactly if no instant
// is common. Every piece is visited, even after one that settles the answer: each has its formulas.
fn sometime<C: Compared + Drop>(
    alloc: Global,
    a: Operand<'_, C>,
    b: Operand<'_, C>,
    rel: Rel,
    want: bool,
) -> Result<Option<bool>, Formula>
where
    C::Base: Drop,
    requires asked { MayAsk C.ordered rel }
    requires moving { (has_slices (operand_of a) || has_slices (operand_of b)) ≡ true }
    ensures value { IfOk result (IsEver (λ x y. same_bool (C.relation rel x y) want) (given_at C.value_of (operand_of a.entry)) (given_at C.value_of (operand_of b.entry))) }
    ensures first { IsDecided (flat_map (entries_of_ends C.value_of C.parts_of C.gaps_of) (pieces (operand_of a.entry) (operand_of b.entry))) result }
    ensures settled { C.STEADY ≡ true → IsOk result }
{
    let mut found = None;
    for piece in Pieces::new(a, b) {
        let here = piece_meets(alloc, &piece, rel, want)?;
        found = Some(either(found, here));
    }
    Ok(found)
}

/// Whether the comparison holds at some instant at which both operands have a value (the `?` signs;
/// MobilityDB's ever comparisons). `None` exactly if no such instant exists. Call it with an order
/// relation only if the values have an order. It does not allocate.
///
/// The fault names the formula of the first entry that has a part that does not fit: on each piece
/// that the operands share, F1 at its ends, then F2, the gaps there, even on pieces after one that
/// settles the answer. Steady courses have no formula, and no error.
pub fn ever<C: Compared + Drop>(
    alloc: Global,
    a: Operand<'_, C>,
    b: Operand<'_, C>,
    rel: Rel,
) -> Result<Option<bool>, Formula>
where
    C::Base: Drop,
    requires asked { MayAsk C.ordered rel }
    requires moving { (has_slices (operand_of a) || has_slices (operand_of b)) ≡ true }
    ensures value { IfOk result (IsEver (C.relation rel) (given_at C.value_of (operand_of a.entry)) (given_at C.value_of (operand_of b.entry))) }
    ensures first { IsDecided (flat_map (entries_of_ends C.value_of C.parts_of C.gaps_of) (pieces (operand_of a.entry) (operand_of b.entry))) result }
    ensures settled { C.STEADY ≡ true → IsOk result }
{
    sometime(alloc, a, b, rel, true)
}

/// Whether the comparison holds at every instant at which both operands have a value (the `%`
/// signs; MobilityDB's always comparisons). `None` exactly if no such instant exists. Call it with
/// an order relation only if the values have an order. It does not allocate.
///
/// The fault is that of `ever`.
pub fn always<C: Compared + Drop>(
    alloc: Global,
    a: Operand<'_, C>,
    b: Operand<'_, C>,
    rel: Rel,
) -> Result<Option<bool>, Formula>
where
    C::Base: Drop,
    requires asked { MayAsk C.ordered rel }
    requires moving { (has_slices (operand_of a) || has_slices (operand_of b)) ≡ true }
    ensures value { IfOk result (IsAlways (C.relation rel) (given_at C.value_of (operand_of a.entry)) (given_at C.value_of (operand_of b.entry))) }
    ensures first { IsDecided (flat_map (entries_of_ends C.value_of C.parts_of C.gaps_of) (pieces (operand_of a.entry) (operand_of b.entry))) result }
    ensures settled { C.STEADY ≡ true → IsOk result }
{
    Ok(contrary(sometime(alloc, a, b, rel, false)?))
}
