//! Completed pieces of work.
ghost use Rattle.std.specs.Prelude.{◌≡◌, ◌≤◌, length, IfOk, OnOk};
ghost use Rattle.mob_fan.specs.Pieces.{AreRangePieces};

use crate::outcomes::Outcome;
use crate::work::Work;
use std::alloc::{AllocError, Global};
use std::sync::atomic::{AtomicU64, Ordering};

/// A completed piece of work.
#[derive(Drop)]
pub struct RangePiece<I, F> {
    /// The first number of its range.
    pub from: usize,
    /// The number after its range.
    pub to: usize,
    /// Its outcome.
    pub outcome: Outcome<I, F>,
}

// The start of the piece of this number. The first piece starts at 0; the one after the last starts
// at the end.
fn start(cuts: &[usize], number: usize, len: usize) -> usize
    ensures within { result ≤ len }
{
    if number == 0 {
        return 0;
    }
    if number > cuts.len() {
        return len;
    }
    cuts[number - 1].min(len)
}

// Does the piece of this number, if it is not empty.
fn push_piece<W: Work>(
    alloc: Global,
    work: &W,
    cuts: &[usize],
    len: usize,
    number: usize,
    out: &mut Vec<RangePiece<W::Item, W::Fault>>,
) -> Result<(), AllocError>
    requires size { len ≡ W.size_of work.now }
    requires number { number ≤ length cuts.now }
    requires pieces { AreRangePieces W.size_of W.comes work.now out.old.items }
    ensures pieces { OnOk result (AreRangePieces W.size_of W.comes work.now out.new.items) }
{
    let from = start(cuts, number, len);
    let to = start(cuts, number + 1, len);
    if to <= from {
        return Ok(());
    }
    let outcome = work.piece(alloc, from, to)?;
    out.push(RangePiece { from, to, outcome })?;
    Ok(())
}

/// The pieces that one worker does, each of them the next that no worker has taken. The only error
/// is a failed allocation.
pub fn taken<W: Work>(
    alloc: Global,
    work: &W,
    cuts: &[usize],
    len: usize,
    next: &AtomicU64,
) -> Result<Vec<RangePiece<W::Item, W::Fault>>, AllocError>
    requires size { len ≡ W.size_of work.now }
    ensures pieces { IfOk result (λ v. AreRangePieces W.size_of W.comes work.now v.items) }
{
    let mut out = Vec::new(alloc);
    for _ in 0..cuts.len() + 1 {
        let number = next.fetch_add(1, Ordering::SeqCst) as usize;
        if number > cuts.len() {
            return Ok(out);
        }
        push_piece(alloc, work, cuts, len, number, &mut out)?;
    }
    Ok(out)
}
