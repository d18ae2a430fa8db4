//! Adding values to an aggregate over time.

ghost use Rattle.std.specs.Prelude.{◌≡◌, [], ◌∷◌, IfOk, MatchResult, option_map, pos};
ghost use Rattle.std.specs.List.{flat_map};
ghost use Rattle.mob_ratio.specs.Ratio.{Ratio, whole};
ghost use Rattle.mob_frac.specs.Formula.{sum_parts};
ghost use Rattle.mob_slice.specs.Entries.{IsJudged};
ghost use Rattle.mob_slice.specs.Operands.{steady_value};
ghost use Rattle.mob_slice.specs.Parts.{IsPairFit};
ghost use Rattle.mob_slice.specs.Sides.{pieces, Slices};
ghost use Rattle.mob_slice.specs.Slices.{value_at};
ghost use Rattle.mob_arith.specs.Operations.{both_hold, one_holds};
ghost use Rattle.mob_arith.specs.Termwise.{entries_at_ends};
ghost use Rattle.mob_tagg.specs.United.{AreUnited};
ghost use Rattle.mob_tagg.specs.Sums.{IsSumGiven, steady_on};

use crate::again::{LastPiece, keep, limit_again, summed, summed_again};
use crate::taking::{either, merged, normal_of};
use mob_arith::Summed;
use mob_frac::Frac;
use mob_lift::single;
use mob_list::fault::Fault;
use mob_slice::{Course, Formula, Moving, Pair, Slice, Steady, cut, cut_by};
use std::alloc::{AllocError, Global};
use std::cell::Cell;

// The sum on a piece that two values share. It reuses the results at the end of the piece before.
fn sum_on<C: Summed + Drop>(
    alloc: Global,
    pair: &Pair<'_, C, C>,
    memo: &Cell<Option<LastPiece<C>>>,
) -> Result<Slice<C>, Fault<Formula>>
where
    C::Base: Drop,
    requires fit { IsPairFit C.start_of C.end_of C.start_of C.end_of pair.now }
    ensures given { IsSumGiven C.value_of C.start_of C.end_of C.parts_of C.number C.added pair.now result }
{
    let last = memo.replace(None);
    let left = cut(alloc, pair.left, &pair.span)?;
    // The call of `lower` gives the proof the invariant of a span.
    let right = cut_by(
        alloc,
        pair.right,
        &pair.span,
        limit_again(alloc, pair.right, pair.span.lower(), &last),
    )?;
    let from = summed_again(alloc, left.course.start(), right.course.start(), &last)?;
    let to = summed::<C>(left.course.end(), right.course.end())?;
    keep(alloc, memo, pair.right, left, right, &to);
    Ok(Slice {
        span: pair.span,
        course: C::of(from, to),
    })
}

/// The sum of two values if both are defined, or else the one that is.
///
/// The fault names the formula of the first entry of the sum of the two that has a part that does
/// not fit: on each piece that they share, F1 at its ends, then F2 there.
pub fn add_in<C: Summed + Drop>(
    alloc: Global,
    total: &Moving<C>,
    v: &Moving<C>,
) -> Result<Moving<C>, Fault<Formula>>
where
    C::Base: Drop,
    ensures value { IfOk result (λ r. AreUnited C.value_of C.added total.now v.now r) }
    ensures first { IsJudged (flat_map (entries_at_ends C.value_of C.parts_of C.value_of C.parts_of (λ x y. sum_parts (C.number x) (C.number y))) (pieces (Slices total.now) (Slices v.now))) result }
{
    let memo = Cell::new(None);
    let slices = merged(
        alloc,
        total,
        v,
        |pair: &Pair<'_, C, C>| -> Result<Slice<C>, Fault<Formula>>
            requires fit { IsPairFit C.start_of C.end_of C.start_of C.end_of pair.now }
            ensures given { IsSumGiven C.value_of C.start_of C.end_of C.parts_of C.number C.added pair.now result }
        { sum_on::<C>(alloc, pair, &memo) },
    )?;
    normal_of(alloc, slices)
}

/// The number 1.
pub fn one() -> Frac
    ensures value { result ≡ whole (pos 1) }
{
    match Frac::new(1, 1) {
        Ok(one) => one,
        Err(_) => unreachable!(),
    }
}

/// 1 at each instant at which a value is defined. The only error is a failed allocation.
pub fn ones_of<C: Course>(alloc: Global, a: &Moving<C>) -> Result<Moving<Steady<Frac>>, AllocError>
    ensures value { IfOk result (λ r. (t : Ratio) → value_at steady_value r t ≡ option_map (λ x. whole (pos 1)) (value_at C.value_of a.now t)) }
{
    let mut slices = Vec::new(alloc);
    let given = a.slices();
    for slice in given {
        slices.push(Slice {
            span: slice.span,
            course: Steady { value: one() },
        })?;
    }
    match normal_of(alloc, slices) {
        Ok(value) => Ok(value),
        Err(_) => Err(AllocError),
    }
}

// The conjunction on a piece that two values share.
fn and_on(
    alloc: Global,
    pair: &Pair<'_, Steady<bool>, Steady<bool>>,
) -> Result<Vec<Slice<Steady<bool>>>, Fault<Formula>>
    ensures one { MatchResult result (λ v. v.items ≡ steady_on both_hold pair.now ∷ []) (λ e. e ≡ Fault.NoMemory) }
{
    let value = pair.left.course.value && pair.right.course.value;
    single(alloc, pair.span, value)
}

/// The conjunction of two values if both are defined, or else the one that is. The only error is a
/// failed allocation.
pub fn and_in(
    alloc: Global,
    total: &Moving<Steady<bool>>,
    v: &Moving<Steady<bool>>,
) -> Result<Moving<Steady<bool>>, AllocError>
    ensures value { IfOk result (λ r. AreUnited steady_value both_hold total.now v.now r) }
{
    match either(
        alloc,
        total,
        v,
        |pair: &Pair<'_, Steady<bool>, Steady<bool>>| -> Result<
            Vec<Slice<Steady<bool>>>,
            Fault<Formula>,
        >
            ensures one { MatchResult result (λ v. v.items ≡ steady_on both_hold pair.now ∷ []) (λ e. e ≡ Fault.NoMemory) }
        { and_on(alloc, pair) },
    ) {
        Ok(value) => Ok(value),
        Err(_) => Err(AllocError),
    }
}

// The disjunction on a piece that two values share.
fn or_on(
    alloc: Global,
    pair: &Pair<'_, Steady<bool>, Steady<bool>>,
) -> Result<Vec<Slice<Steady<bool>>>, Fault<Formula>>
    ensures one { MatchResult result (λ v. v.items ≡ steady_on one_holds pair.now ∷ []) (λ e. e ≡ Fault.NoMemory) }
{
    let value = pair.left.course.value || pair.right.course.value;
    single(alloc, pair.span, value)
}

/// The disjunction of two values if both are defined, or else the one that is. The only error is a
/// failed allocation.
pub fn or_in(
    alloc: Global,
    total: &Moving<Steady<bool>>,
    v: &Moving<Steady<bool>>,
) -> Result<Moving<Steady<bool>>, AllocError>
    ensures value { IfOk result (λ r. AreUnited steady_value one_holds total.now v.now r) }
{
    match either(
        alloc,
        total,
        v,
        |pair: &Pair<'_, Steady<bool>, Steady<bool>>| -> Result<
            Vec<Slice<Steady<bool>>>,
            Fault<Formula>,
        >
            ensures one { MatchResult result (λ v. v.items ≡ steady_on one_holds pair.now ∷ []) (λ e. e ≡ Fault.NoMemory) }
        { or_on(alloc, pair) },
    ) {
        Ok(value) => Ok(value),
        Err(_) => Err(AllocError),
    }
}
