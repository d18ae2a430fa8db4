//! Work on a list of numbers.
ghost use Rattle.std.specs.Prelude.{◌≡◌, IfOk};
ghost use Rattle.mob_fan.specs.Outcomes.{outcome_seen};
ghost use Rattle.mob_fan_rows.specs.Numbers.{passed};

use mob_fan::{Outcome, Work};
use mob_list::items::Items;
use std::alloc::{AllocError, Global};

/// Numbers that pass one after another. One above the limit is a fault.
#[derive(Drop)]
pub struct Numbers<'a> {
    /// The numbers, in order.
    pub all: &'a [u32],
    /// The greatest number that passes.
    pub limit: u32,
}

impl<'a> Work for Numbers<'a> {
    type Item = u32;

    type Fault = u32;

    ghost use Rattle.std.specs.Prelude.{◌≡◌, length, slice_range};
    ghost use Rattle.mob_fan_rows.specs.Numbers.{passed};
    ghost use Rattle.mob_fan_rows.specs.Law.{numbers_pass};

    ghost size_of = { λ w. length w.all.now };

    ghost comes = { λ w from to r. r ≡ passed w.limit (slice_range w.all.now from to) };

    fn piece(
        &self,
        alloc: Global,
        from: usize,
        to: usize,
    ) -> Result<Outcome<u32, u32>, AllocError> {
        passed_of(alloc, &self.all[from..to], self.limit)
    }

    ghost law = { numbers_pass (λ w. w.all.now) (λ w. w.limit) };
}

// The numbers that pass, or the first that does not.
#[tactic(auto, using(crate::proofs::Passing::passes_on, crate::proofs::Passing::stops_here, crate::proofs::Passing::all_passed))]
fn passed_of(alloc: Global, numbers: &[u32], limit: u32) -> Result<Outcome<u32, u32>, AllocError>
    ensures outcome { IfOk result (λ o. outcome_seen o ≡ passed limit numbers.now) }
{
    let mut items = Items::new(alloc);
    for number in numbers {
        if *number > limit {
            return Ok(Outcome::Stop(*number));
        }
        items.push(*number)?;
    }
    Ok(Outcome::Items(items))
}
