//! Work divided into pieces, which worker threads take one after another.
ghost use Rattle.std.specs.Prelude.{◌≡◌, ◌+◌, ◌<◌, ◌≤◌, ◌++◌, IfOk};
ghost use Rattle.std.specs.Thread.{IsSend, IsSync};
ghost use Rattle.mob_fan.specs.Outcomes.{outcome_seen};
ghost use Rattle.mob_fan.specs.Pieces.{AreRangePieces};

use crate::gathering::outcome_of;
use crate::outcomes::Outcome;
use crate::pieces::{RangePiece, taken};
use crate::work::Work;
use mob_outside::Gate;
use std::alloc::{AllocError, Global};
use std::marker::{Send, Sync};
use std::sync::atomic::AtomicU64;
use std::thread::{Threads, join};

// The state that the workers of one call share.
#[derive(Drop)]
struct Crew<'a, R, W, G> {
    rt: &'a R,
    work: &'a W,
    gate: &'a G,
    // the positions at which the work is cut
    cuts: &'a [usize],
    // the size of the work
    len: usize,
    // the number of the next piece that no worker has taken
    next: &'a AtomicU64,
}

/// The outcome of all the work, by `workers` workers, but no more than the work has numbers. Worker
/// i passes the gate with its number before it begins. Each takes one piece after another, always
/// the next that none has taken, so a slower worker takes fewer. If no thread can be made, the
/// workers run one after another. The only error is a failed allocation.
pub fn fan<R: Threads + Sync, W: Work, G: Gate>(
    rt: &R,
    alloc: Global,
    work: &W,
    len: usize,
    workers: usize,
    gate: &G,
) -> Result<Outcome<W::Item, W::Fault>, AllocError>
    requires size { len ≡ W.size_of work.now }
    requires some { 1 ≤ workers }
    requires few { workers ≤ 64 }
    ensures whole { IfOk result (λ o. W.comes work.now 0 len (outcome_seen o)) }
{
    let workers = workers.min(len.max(1));
    if workers == 1 {
        gate.enter(0);
        return work.piece(alloc, 0, len);
    }
    let cuts = work.cuts(alloc, len, workers)?;
    let next = AtomicU64::new(0);
    let crew = Crew {
        rt,
        work,
        gate,
        cuts: cuts.as_slice(),
        len,
        next: &next,
    };
    let done = pieces(alloc, &crew, 0, workers)?;
    outcome_of(alloc, work, len, done)
}

// The pieces of one worker.
fn alone<R: Threads + Sync, W: Work, G: Gate>(
    alloc: Global,
    crew: &Crew<'_, R, W, G>,
    number: usize,
) -> Result<Vec<RangePiece<W::Item, W::Fault>>, AllocError>
    requires size { crew.now.len ≡ W.size_of crew.now.work.now }
    ensures pieces { IfOk result (λ v. AreRangePieces W.size_of W.comes crew.now.work.now v.items) }
{
    crew.gate.enter(number);
    taken(alloc, crew.work, crew.cuts, crew.len, crew.next)
}

// The pieces of `count` workers, numbered from `first` on.
#[cycle(pieces)]
fn pieces<R: Threads + Sync, W: Work, G: Gate>(
    alloc: Global,
    crew: &Crew<'_, R, W, G>,
    first: usize,
    count: usize,
) -> Result<Vec<RangePiece<W::Item, W::Fault>>, AllocError>
    requires size { crew.now.len ≡ W.size_of crew.now.work.now }
    requires some { 1 ≤ count }
    requires few { first + count ≤ 64 }
    ensures pieces { IfOk result (λ v. AreRangePieces W.size_of W.comes crew.now.work.now v.items) }
{
    if count == 1 {
        return alone(alloc, crew, first);
    }
    beside(alloc, crew, first, count - 1)
}

// The pieces of the worker of this number, in a thread of its own, and of the `others` after it,
// which this thread starts meanwhile: none of them waits until another thread runs.
#[cycle(pieces)]
fn beside<R: Threads + Sync, W: Work, G: Gate>(
    alloc: Global,
    crew: &Crew<'_, R, W, G>,
    number: usize,
    others: usize,
) -> Result<Vec<RangePiece<W::Item, W::Fault>>, AllocError>
    requires size { crew.now.len ≡ W.size_of crew.now.work.now }
    requires some { 1 ≤ others }
    requires few { number + others < 64 }
    ensures pieces { IfOk result (λ v. AreRangePieces W.size_of W.comes crew.now.work.now v.items) }
{
    let one = move || -> Result<Vec<RangePiece<W::Item, W::Fault>>, AllocError>
        requires shared { IsSync R.row × IsSync W.row × IsSync G.row }
        requires sent { IsSend W.Item.row × IsSend W.Fault.row }
        requires size { crew.now.len ≡ W.size_of crew.now.work.now }
        ensures pieces { IfOk result (λ v. AreRangePieces W.size_of W.comes crew.entry.now.work.now v.items) }
    { alone(alloc, crew, number) };
    let rest = move || -> Result<Vec<RangePiece<W::Item, W::Fault>>, AllocError>
        requires size { crew.now.len ≡ W.size_of crew.now.work.now }
        requires some { 1 ≤ others }
        requires few { number + others < 64 }
        ensures pieces { IfOk result (λ v. AreRangePieces W.size_of W.comes crew.entry.now.work.now v.items) }
    { pieces(alloc, crew, number + 1, others) };
    let (done, more) = join(crew.rt, one, rest);
    both_lists(more?, done?)
}

// Two lists of pieces, joined.
fn both_lists<I: Drop, F: Drop>(
    pieces: Vec<RangePiece<I, F>>,
    others: Vec<RangePiece<I, F>>,
) -> Result<Vec<RangePiece<I, F>>, AllocError>
    ensures both { IfOk result (λ all. all.items ≡ pieces.items ++ others.items) }
{
    let mut all = pieces;
    let mut more = others;
    all.append(&mut more)?;
    Ok(all)
}
