//! The walk of the wide mode: it finds the same kept breaks as `walking`, and skips tests.
//!
//! No test has a part that must fit in the wide mode, so only the results of tests count.
ghost use Rattle.std.specs.Prelude.{◌≡◌, ◌≢◌, [], ◌++◌, ◌∷◌, true, IfOk, List};
ghost use Rattle.std.specs.List.{AllByRecursion};
ghost use Rattle.mob_ratio.specs.Order.{before, up_to};
ghost use Rattle.mob_span.specs.Span.{has_instant};
ghost use Rattle.mob_simplify.specs.Breaks.{start_of};
ghost use Rattle.mob_simplify.specs.Reaches.{IsSquared};
ghost use Rattle.mob_simplify.specs.Skips.{IsInCircle, IsKnownBetween};
ghost use Rattle.mob_simplify.specs.Walk.{stays, all_legs};
ghost use Rattle.mob_simplify.specs.declared.breaks.Break.{Break as BreakSeen};

use crate::breaks::{Break, end_of, start_of};
use crate::holding::passes_knowing;
use crate::passing::{Limit, with_square};
use crate::velocities::{Sure, half_side, narrowed};
use crate::walking::{continues_run, leg_over};
use mob_frac::Frac;
use mob_slice::{PlaneLine, Slice};
use std::alloc::{AllocError, Global};

// Whether `next` stays in the leg from the start of `first`. What is known of the breaks between is
// then known with the start of `next` too.
fn next_stays(
    alloc: Global,
    first: &Slice<PlaneLine>,
    held: &mut Vec<Break>,
    sure: &mut Sure,
    last: &Slice<PlaneLine>,
    next: &Slice<PlaneLine>,
    limit: &Limit,
    half: &Frac,
) -> Result<bool, AllocError>
    requires square { IsSquared limit.now }
    requires inside { IsInCircle half.now limit.now.distance }
    requires order { up_to first.now.span.lower last.now.span.lower ≡ true }
    requires between { AllByRecursion (λ b. (before first.now.span.lower b.instant ≡ true) × (up_to b.instant last.now.span.lower ≡ true)) held.old.items }
    ensures some { has_instant next.now.span ≡ true }
    ensures value { IfOk result (λ stay. (between : List BreakSeen) → IsKnownBetween limit.now.distance (start_of first.now) last.now.span.lower between held.old.items sure.old → stay ≡ stays limit.now.distance first.now (between ++ start_of next.now ∷ []) last.now next.now) }
    ensures known { IfOk result (λ stay. stay ≡ true → (between : List BreakSeen) → IsKnownBetween limit.now.distance (start_of first.now) last.now.span.lower between held.old.items sure.old → IsKnownBetween limit.now.distance (start_of first.now) next.now.span.lower (between ++ start_of next.now ∷ []) held.new.items sure.new) }
    ensures between { IfOk result (λ stay. stay ≡ true → AllByRecursion (λ b. (before first.now.span.lower b.instant ≡ true) × (up_to b.instant next.now.span.lower ≡ true)) held.new.items) }
{
    let here = start_of(next);
    if !continues_run(last, next) {
        return Ok(false);
    }
    let p = start_of(first);
    *sure = narrowed(sure, &p, &here, half);
    let stay = passes_knowing(alloc, &p, held, sure, &here, &end_of(next), limit)?;
    Ok(stay)
}

/// The straight courses that replace the slices, within the distance `d`. They are those of
/// `walked`, without its overflows. The only error is a failed allocation.
pub fn walked_wide(
    alloc: Global,
    slices: &[Slice<PlaneLine>],
    d: &Frac,
) -> Result<Vec<Slice<PlaneLine>>, AllocError>
    requires some { slices.now ≢ [] }
    ensures legs { IfOk result (λ v. v.items ≡ all_legs d.now slices.now) }
{
    let Some((start, rest)) = slices.split_first() else {
        unreachable!()
    };
    // The clause of `start_of` says that the slice has an instant.
    let _start = start_of(start);
    let limit = with_square(d);
    let half = half_side(d);
    let mut first = start;
    let mut last = start;
    let mut held = Vec::new(alloc);
    let mut sure = Sure::All;
    let mut legs = Vec::new(alloc);
    for next in rest {
        let stay = next_stays(
            alloc, first, &mut held, &mut sure, last, next, &limit, &half,
        )?;
        if stay {
            last = next;
            continue;
        }
        legs.push(leg_over(first, last))?;
        held.clear();
        sure = Sure::All;
        first = next;
        last = next;
    }
    legs.push(leg_over(first, last))?;
    Ok(legs)
}
