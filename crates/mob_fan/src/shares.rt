//! Even division of a range.
ghost use Rattle.std.specs.Prelude.{◌+◌, ◌-◌, ◌*◌, ◌/◌, ◌≤◌};

use std::alloc::{AllocError, Global};

// The number of pieces for each worker. A slower worker takes fewer of them, so all end at about
// the same time.
const PIECES: usize = 32;

/// The end of the first `low` of `count` pieces of the range from `from` to `to`. Every piece has
/// the even share, rounded down. The first pieces have one number more each, until the remainder is
/// used up.
pub fn part_end(from: usize, to: usize, low: usize, count: usize) -> usize
    requires order { from ≤ to }
    requires some { 1 ≤ count }
    requires low { low ≤ count }
    ensures after { from ≤ result }
    ensures before { result ≤ to }
    ensures share { (to - from) / count * low ≤ result - from }
    ensures share_behind { (to - from) / count * (count - low) ≤ to - result }
    ensures most { result - from ≤ (to - from) / count * low + low }
    ensures most_behind { to - result ≤ (to - from) / count * (count - low) + (count - low) }
{
    let share = (to - from) / count;
    let left_over = (to - from) % count;
    from + share * low + left_over.min(low)
}

/// The positions that cut a range from 0 into even pieces: 32 for each worker, or as many as the
/// range has numbers. The only error is a failed allocation.
pub fn even_cuts(alloc: Global, len: usize, workers: usize) -> Result<Vec<usize>, AllocError>
    requires few { workers ≤ 64 }
{
    let count = len.min(workers * PIECES);
    let mut cuts = Vec::new(alloc);
    for low in 1..count {
        cuts.push(part_end(0, len, low, count))?;
    }
    Ok(cuts)
}
