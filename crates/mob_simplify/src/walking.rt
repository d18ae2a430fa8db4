//! The walk along the slices that finds the kept breaks.

ghost use Rattle.std.specs.Prelude.{◌≡◌, ◌≢◌, [], ◌++◌, ◌∷◌, true, cond, IfOk, OnOk};
ghost use Rattle.std.specs.List.{AllByRecursion};
ghost use Rattle.mob_ratio.specs.Order.{before};
ghost use Rattle.mob_span.specs.Span.{has_instant};
ghost use Rattle.mob_slice.specs.Entries.{IsDecided, IsJudged};
ghost use Rattle.mob_simplify.specs.Breaks.{start_of, end_of};
ghost use Rattle.mob_simplify.specs.Reaches.{IsSquared};
ghost use Rattle.mob_simplify.specs.Tests.{tests_within};
ghost use Rattle.mob_simplify.specs.Walk.{continues_run, stays, leg_over, all_legs, all_tests};

use crate::breaks::{Break, end_of, start_of};
use crate::passing::{Limit, passes};
use mob_list::fault::Fault;
use mob_slice::{Formula, PlaneLine, Slice};
use mob_span::Span;
use std::alloc::Global;

/// Whether `next` continues the run of `slice`.
#[tactic(auto, unfolding(crate::specs::Walk::continues_run))]
pub fn continues_run(slice: &Slice<PlaneLine>, next: &Slice<PlaneLine>) -> bool
    ensures value { result ≡ continues_run slice.now next.now }
{
    slice.span.is_long()
        && next.span.is_long()
        && slice.span.upper().is_same(next.span.lower())
        && !slice.span.upper_inc()
        && next.span.lower_inc()
        && slice.course.to.is_same(&next.course.from)
}

// Whether `next` continues the run of `last`, and the break at its end passes after the one at
// which `first` starts.
fn stays(
    first: &Slice<PlaneLine>,
    between: &[Break],
    last: &Slice<PlaneLine>,
    next: &Slice<PlaneLine>,
    limit: &Limit,
) -> Result<bool, Formula>
    requires square { IsSquared limit.now }
    requires between { continues_run last.now next.now ≡ true → AllByRecursion (λ b. (before first.now.span.lower b.instant ≡ true) × (before b.instant next.now.span.upper ≡ true)) between.now }
    ensures value { IfOk result (λ stay. stay ≡ stays limit.now.distance first.now between.now last.now next.now) }
    ensures first { IsDecided (cond (continues_run last.now next.now) (tests_within limit.now.distance (start_of first.now) between.now (end_of next.now)) []) result }
{
    if !continues_run(last, next) {
        return Ok(false);
    }
    passes(&start_of(first), between, &end_of(next), limit)
}

// Appends the break at which `next` starts to those between, and returns whether `next` stays in
// the leg.
fn next_stays(
    first: &Slice<PlaneLine>,
    between: &mut Vec<Break>,
    last: &Slice<PlaneLine>,
    next: &Slice<PlaneLine>,
    limit: &Limit,
) -> Result<bool, Fault<Formula>>
    requires square { IsSquared limit.now }
    requires between { continues_run last.now next.now ≡ true → AllByRecursion (λ b. (before first.now.span.lower b.instant ≡ true) × (before b.instant next.now.span.upper ≡ true)) (between.old.items ++ start_of next.now ∷ []) }
    ensures some { has_instant next.now.span ≡ true }
    ensures put { OnOk result (between.new.items ≡ between.old.items ++ start_of next.now ∷ []) }
    ensures value { IfOk result (λ stay. stay ≡ stays limit.now.distance first.now (between.old.items ++ start_of next.now ∷ []) last.now next.now) }
    ensures first { IsJudged (cond (continues_run last.now next.now) (tests_within limit.now.distance (start_of first.now) (between.old.items ++ start_of next.now ∷ []) (end_of next.now)) []) result }
{
    if between.push(start_of(next)).is_err() {
        return Err(Fault::NoMemory);
    }
    match stays(first, between.as_slice(), last, next, limit) {
        Ok(stay) => Ok(stay),
        Err(formula) => Err(Fault::Because(formula)),
    }
}

/// The straight course from the start of `first` to the end of `last`.
pub fn leg_over(first: &Slice<PlaneLine>, last: &Slice<PlaneLine>) -> Slice<PlaneLine>
    requires some { has_instant (leg_over first.now last.now).span ≡ true }
    ensures leg { result ≡ leg_over first.now last.now }
{
    let Some(span) = Span::new(
        *first.span.lower(),
        *last.span.upper(),
        first.span.lower_inc(),
        last.span.upper_inc(),
    ) else {
        unreachable!()
    };
    Slice {
        span,
        course: PlaneLine {
            from: first.course.from,
            to: last.course.to,
        },
    }
}

/// The straight courses that replace the slices, or the first test with a part that does not fit.
pub fn walked(
    alloc: Global,
    slices: &[Slice<PlaneLine>],
    limit: &Limit,
) -> Result<Vec<Slice<PlaneLine>>, Fault<Formula>>
    requires square { IsSquared limit.now }
    requires some { slices.now ≢ [] }
    ensures legs { IfOk result (λ v. v.items ≡ all_legs limit.now.distance slices.now) }
    ensures first { IsJudged (all_tests limit.now.distance slices.now) result }
{
    let Some((start, rest)) = slices.split_first() else {
        unreachable!()
    };
    // The clause of `start_of` says that the slice has an instant.
    let _start = start_of(start);
    let mut first = start;
    let mut last = start;
    let mut between = Vec::new(alloc);
    let mut legs = Vec::new(alloc);
    for next in rest {
        let stay = next_stays(first, &mut between, last, next, limit)?;
        if stay {
            last = next;
            continue;
        }
        if legs.push(leg_over(first, last)).is_err() {
            return Err(Fault::NoMemory);
        }
        between.clear();
        first = next;
        last = next;
    }
    if legs.push(leg_over(first, last)).is_err() {
        return Err(Fault::NoMemory);
    }
    Ok(legs)
}
