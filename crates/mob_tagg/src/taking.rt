//! Two temporal values merged: the result of a closure if both are defined, or else the one that
//! is.

ghost use Rattle.std.specs.Prelude.{◌≡◌, ◌≢◌, [], ◌∷◌, Ok, Err, IfOk, IfErr, MatchResult};
ghost use Rattle.std.specs.Fn.{FnReturnsAt};
ghost use Rattle.mob_ratio.specs.Ratio.{Ratio};
ghost use Rattle.mob_frac.specs.Formula.{AllFit};
ghost use Rattle.mob_slice.specs.Cut.{slice_value};
ghost use Rattle.mob_list.specs.Faults.{OnCause};
ghost use Rattle.mob_slice.specs.Parts.{IsOneFit, IsPairFit};
ghost use Rattle.mob_slice.specs.Slices.{value_at, IsRisingInTime};
ghost use Rattle.mob_slice.specs.declared.formula.Formula.{Formula};
ghost use Rattle.mob_slice.specs.declared.formula.Formula.TheVariants.{F1};
ghost use Rattle.mob_lift.specs.Given.{IsGiven};
ghost use Rattle.mob_lift.specs.Common.{pair_of};
ghost use Rattle.mob_shares.specs.Shares.{share_of, HoldsShare};
ghost use Rattle.mob_tagg.specs.United.{IsChecked, AnswersFull, AnswersFullWhereFit, JudgesEnds};
ghost use Rattle.mob_shares.specs.Taken.{entry_alone, IsShareGiven, piece_parts, AreTaken, IsFirstRefused};

use mob_lift::normal::normal;
use mob_lift::{lift, lift_each, listed};
use mob_list::fault::Fault;
use mob_shares::{Share, Shares};
use mob_slice::{Course, Formula, Moving, One, Pair, Slice, cut};
use std::alloc::Global;

// A slice on a piece on which it is alone.
fn cut_one<C: Course + Drop>(alloc: Global, one: &One<'_, C>) -> Result<Slice<C>, Fault<Formula>>
where
    C::Base: Drop,
    requires fit { IsOneFit C.start_of C.end_of one.now }
    ensures given { IsGiven C.value_of C.start_of C.end_of (λ s. s ∷ []) (slice_value C.value_of one.now.slice.now) one.now.span (entry_alone C.parts_of one.now) result }
{
    cut(alloc, one.slice, &one.span)
}

// A slice on a piece on which it is alone, as a list.
fn on_one<C: Course + Drop>(
    alloc: Global,
    one: &One<'_, C>,
) -> Result<Vec<Slice<C>>, Fault<Formula>>
where
    C::Base: Drop,
    requires fit { IsOneFit C.start_of C.end_of one.now }
    ensures given { IsGiven C.value_of C.start_of C.end_of (λ v. v.items) (slice_value C.value_of one.now.slice.now) one.now.span (entry_alone C.parts_of one.now) result }
{
    let slice = cut(alloc, one.slice, &one.span)?;
    listed(alloc, slice)
}

// Whether all parts of F1 of both slices fit at the ends of a piece. Courses that change in steps
// have none.
fn cuts_fit<C: Course + Drop>(alloc: Global, pair: &Pair<'_, C, C>) -> Result<(), Fault<Formula>>
where
    C::Base: Drop,
    requires fit { IsPairFit C.start_of C.end_of C.start_of C.end_of pair.now }
    ensures fits { MatchResult result (λ _. AllFit (piece_parts C.parts_of (pair_of pair.now))) (OnCause (λ f. (f ≡ F1) × (¬ AllFit (piece_parts C.parts_of (pair_of pair.now))))) }
{
    if C::STEADY {
        return Ok(());
    }
    cut(alloc, pair.left, &pair.span)?;
    cut(alloc, pair.right, &pair.span)?;
    Ok(())
}

// The result on one piece of the walk.
fn on_share<'a, C: Course + Drop, F: Fn(&Pair<'a, C, C>) -> Result<Vec<Slice<C>>, Fault<Formula>>>(
    alloc: Global,
    share: &Share<'a, C>,
    both: &F,
) -> Result<Vec<Slice<C>>, Fault<Formula>>
where
    C::Base: Drop,
    requires callable { (p : _) → IsPairFit C.start_of C.end_of C.start_of C.end_of p.now → F.pre both.now p }
    requires holds { HoldsShare C.start_of C.end_of (share_of share.now) }
    ensures given { IsShareGiven C.value_of C.start_of C.end_of C.parts_of (λ v. v.items) (FnReturnsAt F.Fn both.now) share.now result }
{
    match share {
        Share::Left(one) => on_one(alloc, one),
        Share::Right(one) => on_one(alloc, one),
        Share::Both(pair) => both(pair),
    }
}

/// The slices of two values, and the results of `both` on the pieces that they share. `both` itself
/// checks F1 at the ends of a piece. The fault names the formula of the first shared piece that
/// fails: F1, if a part of it does not fit at an end, or that of `both`.
pub fn together<
    'a,
    C: Course + Drop,
    F: Fn(&Pair<'a, C, C>) -> Result<Vec<Slice<C>>, Fault<Formula>> + Drop,
>(
    alloc: Global,
    a: &'a Moving<C>,
    b: &'a Moving<C>,
    both: F,
) -> Result<Vec<Slice<C>>, Fault<Formula>>
where
    C::Base: Drop,
    requires callable { (p : _) → IsPairFit C.start_of C.end_of C.start_of C.end_of p.now → F.pre both p }
    requires sound { AnswersFullWhereFit C.value_of C.start_of C.end_of C.parts_of (λ v. v.items) (FnReturnsAt F.Fn both) }
    requires passes { JudgesEnds C.start_of C.end_of C.parts_of (FnReturnsAt F.Fn both) }
    ensures ordered { IfOk result (λ all. IsRisingInTime C.start_of C.end_of all.items) }
    ensures some { IfOk result (λ all. all.items ≢ []) }
    ensures taken { IfOk result (λ all. AreTaken C.value_of C.start_of C.end_of C.parts_of (λ v. v.items) (FnReturnsAt F.Fn both) a.now b.now all.items) }
    ensures passed { (formula : Formula) → result ≡ Err (Fault.Because formula) → IsFirstRefused C.start_of C.end_of C.parts_of (FnReturnsAt F.Fn both) a.now b.now formula }
{
    lift(
        alloc,
        Shares::new(a.slices(), b.slices()),
        |share: &Share<'_, C>| -> Result<Vec<Slice<C>>, Fault<Formula>>
            requires callable { (p : _) → IsPairFit C.start_of C.end_of C.start_of C.end_of p.now → F.pre both p }
            requires holds { HoldsShare C.start_of C.end_of (share_of share.now) }
            ensures given { IsShareGiven C.value_of C.start_of C.end_of C.parts_of (λ v. v.items) (FnReturnsAt F.Fn both) share.now result }
        { on_share(alloc, share, &both) },
    )
}

// The slice on one piece of the walk.
fn slice_on_share<'a, C: Course + Drop, F: Fn(&Pair<'a, C, C>) -> Result<Slice<C>, Fault<Formula>>>(
    alloc: Global,
    share: &Share<'a, C>,
    both: &F,
) -> Result<Slice<C>, Fault<Formula>>
where
    C::Base: Drop,
    requires callable { (p : _) → IsPairFit C.start_of C.end_of C.start_of C.end_of p.now → F.pre both.now p }
    requires holds { HoldsShare C.start_of C.end_of (share_of share.now) }
    ensures given { IsShareGiven C.value_of C.start_of C.end_of C.parts_of (λ s. s ∷ []) (FnReturnsAt F.Fn both.now) share.now result }
{
    match share {
        Share::Left(one) => cut_one(alloc, one),
        Share::Right(one) => cut_one(alloc, one),
        Share::Both(pair) => both(pair),
    }
}

// The expected number of pieces of two values without gaps: one for each end of a slice, and one if
// the first begins before the second, or after it. The list grows if more come.
fn expected<C>(lefts: &[Slice<C>], rights: &[Slice<C>]) -> usize {
    let mut lefts = lefts;
    let mut rights = rights;
    let mut count = 1usize;
    'ends: loop {
        let Some((left, later_lefts)) = lefts.split_first() else {
            return count.saturating_add(rights.len());
        };
        let Some((right, later_rights)) = rights.split_first() else {
            return count.saturating_add(lefts.len());
        };
        count = count.saturating_add(1);
        if right.span.ends_before(&left.span) {
            rights = later_rights;
            continue 'ends;
        }
        lefts = later_lefts;
        if left.span.ends_before(&right.span) {
            continue 'ends;
        }
        rights = later_rights;
    }
}

/// The slices of two values, and the one slice that `both` returns on each piece that they share.
/// As in `together`, `both` itself checks F1 at the ends of a piece. No list is allocated for a
/// piece. The fault names the formula of the first shared piece that fails: F1, if a part of it
/// does not fit at an end, or that of `both`.
pub fn merged<
    'a,
    C: Course + Drop,
    F: Fn(&Pair<'a, C, C>) -> Result<Slice<C>, Fault<Formula>> + Drop,
>(
    alloc: Global,
    a: &'a Moving<C>,
    b: &'a Moving<C>,
    both: F,
) -> Result<Vec<Slice<C>>, Fault<Formula>>
where
    C::Base: Drop,
    requires callable { (p : _) → IsPairFit C.start_of C.end_of C.start_of C.end_of p.now → F.pre both p }
    requires sound { AnswersFullWhereFit C.value_of C.start_of C.end_of C.parts_of (λ s. s ∷ []) (FnReturnsAt F.Fn both) }
    requires passes { JudgesEnds C.start_of C.end_of C.parts_of (FnReturnsAt F.Fn both) }
    ensures ordered { IfOk result (λ all. IsRisingInTime C.start_of C.end_of all.items) }
    ensures some { IfOk result (λ all. all.items ≢ []) }
    ensures taken { IfOk result (λ all. AreTaken C.value_of C.start_of C.end_of C.parts_of (λ s. s ∷ []) (FnReturnsAt F.Fn both) a.now b.now all.items) }
    ensures passed { (formula : Formula) → result ≡ Err (Fault.Because formula) → IsFirstRefused C.start_of C.end_of C.parts_of (FnReturnsAt F.Fn both) a.now b.now formula }
{
    let lefts = a.slices();
    let rights = b.slices();
    lift_each(
        alloc,
        expected(lefts, rights),
        Shares::new(lefts, rights),
        |share: &Share<'_, C>| -> Result<Slice<C>, Fault<Formula>>
            requires callable { (p : _) → IsPairFit C.start_of C.end_of C.start_of C.end_of p.now → F.pre both p }
            requires holds { HoldsShare C.start_of C.end_of (share_of share.now) }
            ensures given { IsShareGiven C.value_of C.start_of C.end_of C.parts_of (λ s. s ∷ []) (FnReturnsAt F.Fn both) share.now result }
        { slice_on_share(alloc, share, &both) },
    )
}

// The result of `both` on a piece, if all parts of F1 fit at its ends.
fn on_pair<'a, C: Course + Drop, F: Fn(&Pair<'a, C, C>) -> Result<Vec<Slice<C>>, Fault<Formula>>>(
    alloc: Global,
    pair: &Pair<'a, C, C>,
    both: &F,
) -> Result<Vec<Slice<C>>, Fault<Formula>>
where
    C::Base: Drop,
    requires callable { (p : _) → IsPairFit C.start_of C.end_of C.start_of C.end_of p.now → F.pre both.now p }
    requires fit { IsPairFit C.start_of C.end_of C.start_of C.end_of pair.now }
    ensures checked { IsChecked C.parts_of (FnReturnsAt F.Fn both.now) pair.now result }
{
    cuts_fit(alloc, pair)?;
    both(pair)
}

/// Two values merged: at each instant at which both are defined, the result of `both`; if one is,
/// its value; and elsewhere none.
///
/// For each piece that the two share, `both` returns ordered slices that have exactly the instants
/// of that piece. A fault with a formula comes from the first shared piece on which a part of F1 of
/// one of the two does not fit at an end, and then it is F1, or on which `both` returned it.
pub fn either<
    'a,
    C: Course + Drop,
    F: Fn(&Pair<'a, C, C>) -> Result<Vec<Slice<C>>, Fault<Formula>> + Drop,
>(alloc: Global, a: &'a Moving<C>, b: &'a Moving<C>, both: F) -> Result<Moving<C>, Fault<Formula>>
where
    C::Base: Drop,
    requires callable { (p : _) → IsPairFit C.start_of C.end_of C.start_of C.end_of p.now → F.pre both p }
    requires sound { AnswersFull C.value_of C.start_of C.end_of (λ v. v.items) (FnReturnsAt F.Fn both) }
    ensures taken { IfOk result (λ r. AreTaken C.value_of C.start_of C.end_of C.parts_of (λ v. v.items) (FnReturnsAt F.Fn both) a.now b.now r) }
    ensures passed { (formula : Formula) → result ≡ Err (Fault.Because formula) → IsFirstRefused C.start_of C.end_of C.parts_of (FnReturnsAt F.Fn both) a.now b.now formula }
{
    let slices = together(
        alloc,
        a,
        b,
        |pair: &Pair<'_, C, C>| -> Result<Vec<Slice<C>>, Fault<Formula>>
            requires callable { (p : _) → IsPairFit C.start_of C.end_of C.start_of C.end_of p.now → F.pre both p }
            requires fit { IsPairFit C.start_of C.end_of C.start_of C.end_of pair.now }
            ensures checked { IsChecked C.parts_of (FnReturnsAt F.Fn both) pair.now result }
        { on_pair(alloc, pair, &both) },
    )?;
    normal_of(alloc, slices)
}

/// The normal value of these slices, of which there is at least one: at every instant it has the
/// value of the slices. The only error is a failed allocation.
pub fn normal_of<C: Course + Drop>(
    alloc: Global,
    slices: Vec<Slice<C>>,
) -> Result<Moving<C>, Fault<Formula>>
where
    C::Base: Drop,
    requires ordered { IsRisingInTime C.start_of C.end_of slices.items }
    requires some { slices.items ≢ [] }
    ensures same { IfOk result (λ r. (t : Ratio) → value_at C.value_of r t ≡ value_at C.value_of slices.items t) }
    ensures memory { IfErr result (λ e. e ≡ Fault.NoMemory) }
{
    match normal(alloc, slices) {
        Ok(Some(value)) => Ok(value),
        Ok(None) => unreachable!(),
        Err(_) => Err(Fault::NoMemory),
    }
}
