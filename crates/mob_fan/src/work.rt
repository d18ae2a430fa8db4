//! The trait of work on a range of numbers.
ghost use Rattle.std.specs.Prelude.{ℕ, ◌≡◌, ◌≤◌, List, Result, IfOk};
ghost use Rattle.mob_fan.specs.Outcomes.{IsWork, outcome_seen};

use crate::outcomes::Outcome;
use crate::shares::even_cuts;
use std::alloc::{AllocError, Global};
use std::marker::{Send, Sync};

/// Work on a range of numbers, from 0 up to its size. Each range within it has an outcome, and the
/// outcome of a range is that of its two neighbouring parts, joined.
pub trait Work: Sync {
    /// The items that the work returns, in order.
    type Item: Send + Drop;

    /// The reason why a range has no items.
    type Fault: Send + Drop;

    ghost size_of: { Self → ℕ };

    ghost comes: { Self → ℕ → ℕ → Result (List Self.Item) Self.Fault → Type 0 };

    /// The outcome of the range from `from` up to `to`. The only error is a failed allocation.
    fn piece(
        &self,
        alloc: Global,
        from: usize,
        to: usize,
    ) -> Result<Outcome<Self::Item, Self::Fault>, AllocError>
        requires order { from ≤ to }
        requires range { to ≤ size_of self.now }
        ensures outcome { IfOk result (λ o. comes self.now from to (outcome_seen o)) };

    /// The positions, in order, at which work of this size is cut into pieces for so many workers.
    /// Any positions give the same outcome: they only decide how long each piece takes. The default
    /// makes 32 pieces for each worker, of about equal length.
    fn cuts(&self, alloc: Global, len: usize, workers: usize) -> Result<Vec<usize>, AllocError>
        requires size { len ≡ size_of self.now }
        requires some { 1 ≤ workers }
        requires few { workers ≤ 64 }
    {
        even_cuts(alloc, len, workers)
    }

    ghost law: { IsWork size_of comes };
}
