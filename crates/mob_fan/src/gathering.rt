//! The joint outcome of all pieces.
ghost use Rattle.std.specs.Prelude.{◌≡◌, IfOk};
ghost use Rattle.std.specs.List.Sorted.{IsPermutation};
ghost use Rattle.mob_fan.specs.Outcomes.{outcome_seen};
ghost use Rattle.mob_fan.specs.Pieces.{IsRangePiece, AreRangePieces, IsGathered};

use crate::outcomes::{Outcome, both};
use crate::pieces::RangePiece;
use crate::work::Work;
use std::alloc::{AllocError, Global};
use std::cmp::Ordering;

/// The joint outcome of neighbouring pieces from 0 on.
#[derive(Drop)]
pub struct Gathered<I, F> {
    /// The end of the last of them.
    pub to: usize,
    /// Their outcome, if there is a piece.
    pub outcome: Option<Outcome<I, F>>,
}

// Sorts the pieces, the last one first.
fn sort<I: Drop, F: Drop>(pieces: &mut Vec<RangePiece<I, F>>) -> Result<(), AllocError>
    ensures same { IsPermutation pieces.old.items pieces.new.items }
{
    let by = |a: &RangePiece<I, F>, b: &RangePiece<I, F>| -> Ordering { b.from.cmp(&a.from) };
    match pieces.sort_by(by) {
        Ok(()) => Ok(()),
        Err(error) => Err(error),
    }
}

// The joined pieces with the next one. A piece that is not their neighbour is left out.
fn next_joined<W: Work>(
    _work: &W,
    so_far: Gathered<W::Item, W::Fault>,
    piece: RangePiece<W::Item, W::Fault>,
) -> Result<Gathered<W::Item, W::Fault>, AllocError>
    requires so_far { IsGathered W.size_of W.comes _work.now so_far }
    requires piece { IsRangePiece W.size_of W.comes _work.now piece }
    ensures joined { IfOk result (IsGathered W.size_of W.comes _work.now) }
{
    if piece.from != so_far.to {
        return Ok(so_far);
    }
    let outcome = match so_far.outcome {
        Some(outcome) => both(outcome, piece.outcome)?,
        None => piece.outcome,
    };
    Ok(Gathered {
        to: piece.to,
        outcome: Some(outcome),
    })
}

// The joined pieces with the rest of the work, which is empty if no piece was left out.
fn with_rest<W: Work>(
    alloc: Global,
    work: &W,
    len: usize,
    so_far: Gathered<W::Item, W::Fault>,
) -> Result<Outcome<W::Item, W::Fault>, AllocError>
    requires size { len ≡ W.size_of work.now }
    requires so_far { IsGathered W.size_of W.comes work.now so_far }
    ensures whole { IfOk result (λ o. W.comes work.now 0 len (outcome_seen o)) }
{
    let to = so_far.to;
    let Some(outcome) = so_far.outcome else {
        return work.piece(alloc, 0, len);
    };
    if to == len {
        return Ok(outcome);
    }
    let rest = work.piece(alloc, to, len)?;
    both(outcome, rest)
}

/// The outcome of all the work, of which these pieces are done. The only error is a failed
/// allocation.
pub fn outcome_of<W: Work>(
    alloc: Global,
    work: &W,
    len: usize,
    pieces: Vec<RangePiece<W::Item, W::Fault>>,
) -> Result<Outcome<W::Item, W::Fault>, AllocError>
    requires size { len ≡ W.size_of work.now }
    requires pieces { AreRangePieces W.size_of W.comes work.now pieces.items }
    ensures whole { IfOk result (λ o. W.comes work.now 0 len (outcome_seen o)) }
{
    let mut pieces = pieces;
    sort(&mut pieces)?;
    let mut so_far = Gathered {
        to: 0,
        outcome: None,
    };
    while let Some(piece) = pieces.pop() {
        so_far = next_joined(work, so_far, piece)?;
    }
    with_rest(alloc, work, len, so_far)
}
