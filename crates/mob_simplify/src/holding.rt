//! The breaks between that still decide whether a break passes.
//!
//! A break decides for an earlier one if the disc of its velocities lies in the disc of the other.
//! What another decides for is not tested again.
ghost use Rattle.std.specs.Prelude.{◌≡◌, ◌++◌, ◌∷◌, [], true, IfOk, OnOk, List};
ghost use Rattle.std.specs.List.{AllByRecursion};
ghost use Rattle.mob_ratio.specs.Order.{before, up_to};
ghost use Rattle.mob_simplify.specs.Breaks.{passes_within};
ghost use Rattle.mob_simplify.specs.Reaches.{IsBreakReach, IsSquared};
ghost use Rattle.mob_simplify.specs.Skips.{AreSure, DecideAlike, DecidesFor, spare_beside};
ghost use Rattle.mob_simplify.specs.declared.breaks.Break.{Break as BreakSeen};

use crate::breaks::Break;
use crate::broad::is_near_wide;
use crate::passing::{CourseExtent, Limit, reach_of, with_square};
use crate::velocities::{Sure, is_sure};
use mob_frac::{Frac, Overflow};
use std::alloc::{AllocError, Global};

// The distance that the break `b`, which is between `p` and `q`, leaves to a course that is within
// `d` of `q`: `d` times the part of the time from `p` to `q` that comes after `b`.
fn spare_beside(p: &Break, q: &Break, b: &Break, d: &Frac) -> Result<Frac, Overflow>
    requires after { before p.now.instant q.now.instant ≡ true }
    ensures value { IfOk result (λ m. m ≡ spare_beside d.now p.now q.now b.now) }
{
    let left = q.instant.sub(&b.instant)?;
    let whole = q.instant.sub(&p.instant)?;
    let part = left.div(&whole)?;
    d.mul(&part)
}

// Whether the break `q` surely decides for `b`: the straight course from `p` to `q` is within the
// distance of `b` that `b` leaves. If that distance does not fit, it is false.
#[tactic(auto, using(crate::proofs::Deciding::decides))]
fn decides_for(
    alloc: Global,
    p: &Break,
    q: &Break,
    reach: &CourseExtent,
    b: &Break,
    d: &Frac,
) -> Result<bool, AllocError>
    requires reach { IsBreakReach p.now q.now reach.now }
    requires after { before p.now.instant b.now.instant ≡ true }
    requires until { before b.now.instant q.now.instant ≡ true }
    requires long { before p.now.instant q.now.instant ≡ true }
    ensures decides { IfOk result (λ yes. yes ≡ true → DecidesFor d.now p.now q.now b.now) }
{
    let Ok(spare) = spare_beside(p, q, b, d) else {
        return Ok(false);
    };
    let limit = with_square(&spare);
    is_near_wide(alloc, p, q, reach, b, &limit)
}

// The breaks that still decide, with one more break `q` after those that are held: it, and those
// for which it does not decide.
fn sifted(
    alloc: Global,
    p: &Break,
    held: &[Break],
    q: &Break,
    d: &Frac,
) -> Result<Vec<Break>, AllocError>
    requires long { before p.now.instant q.now.instant ≡ true }
    requires between { AllByRecursion (λ b. (before p.now.instant b.instant ≡ true) × (before b.instant q.now.instant ≡ true)) held.now }
    ensures alike { IfOk result (λ v. DecideAlike d.now p.now q.now.instant v.items (held.now ++ q.now ∷ [])) }
    ensures between { IfOk result (λ v. AllByRecursion (λ b. (before p.now.instant b.instant ≡ true) × (up_to b.instant q.now.instant ≡ true)) v.items) }
{
    let reach = reach_of(p, q);
    let mut left = Vec::new(alloc);
    left.push(*q)?;
    for b in held {
        let decided = decides_for(alloc, p, q, &reach, b, d)?;
        if decided {
            continue;
        }
        left.push(*b)?;
    }
    Ok(left)
}

// Whether the straight course from `p` to `n` is within the limit of each of these breaks. The
// tests stop at the first that fails.
fn passes_wide(
    alloc: Global,
    p: &Break,
    held: &[Break],
    n: &Break,
    limit: &Limit,
) -> Result<bool, AllocError>
    requires square { IsSquared limit.now }
    requires between { AllByRecursion (λ b. (before p.now.instant b.instant ≡ true) × (before b.instant n.now.instant ≡ true)) held.now }
    ensures value { IfOk result (λ pass. pass ≡ passes_within limit.now.distance p.now held.now n.now) }
{
    let reach = reach_of(p, n);
    for b in held {
        let near = is_near_wide(alloc, p, n, &reach, b, limit)?;
        if !near {
            return Ok(false);
        }
    }
    Ok(true)
}

// Whether the break `n` passes after `p`, by the tests of those that are held and of `here`, the
// last break between. Those that `here` decides for are not held any longer.
fn tested(
    alloc: Global,
    p: &Break,
    held: &mut Vec<Break>,
    here: &Break,
    n: &Break,
    limit: &Limit,
) -> Result<bool, AllocError>
    requires square { IsSquared limit.now }
    requires long { before p.now.instant here.now.instant ≡ true }
    requires until { before here.now.instant n.now.instant ≡ true }
    requires between { AllByRecursion (λ b. (before p.now.instant b.instant ≡ true) × (before b.instant here.now.instant ≡ true)) held.old.items }
    ensures value { IfOk result (λ pass. pass ≡ passes_within limit.now.distance p.now held.new.items n.now) }
    ensures alike { OnOk result (DecideAlike limit.now.distance p.now here.now.instant held.new.items (held.old.items ++ here.now ∷ [])) }
    ensures between { OnOk result (AllByRecursion (λ b. (before p.now.instant b.instant ≡ true) × (up_to b.instant here.now.instant ≡ true)) held.new.items) }
{
    let left = sifted(alloc, p, held.as_slice(), here, &limit.distance)?;
    let pass = passes_wide(alloc, p, left.as_slice(), n, limit)?;
    *held = left;
    Ok(pass)
}

/// Whether the break `n` passes after `p`. The breaks that are held, and then `here`, say the same
/// as all breaks between; `sure` has velocities that are near all of these. If that of the course to
/// `n` is one of them, nothing is tested.
pub fn passes_knowing(
    alloc: Global,
    p: &Break,
    held: &mut Vec<Break>,
    sure: &Sure,
    here: &Break,
    n: &Break,
    limit: &Limit,
) -> Result<bool, AllocError>
    requires square { IsSquared limit.now }
    requires long { before p.now.instant here.now.instant ≡ true }
    requires until { before here.now.instant n.now.instant ≡ true }
    requires between { AllByRecursion (λ b. (before p.now.instant b.instant ≡ true) × (before b.instant here.now.instant ≡ true)) held.old.items }
    ensures value { IfOk result (λ pass. (between : List BreakSeen) → DecideAlike limit.now.distance p.now here.now.instant (held.old.items ++ here.now ∷ []) between → AreSure limit.now.distance p.now here.now.instant between sure.now → pass ≡ passes_within limit.now.distance p.now between n.now) }
    ensures alike { OnOk result (DecideAlike limit.now.distance p.now here.now.instant held.new.items (held.old.items ++ here.now ∷ [])) }
    ensures between { OnOk result (AllByRecursion (λ b. (before p.now.instant b.instant ≡ true) × (up_to b.instant here.now.instant ≡ true)) held.new.items) }
{
    if is_sure(sure, p, n) {
        held.push(*here)?;
        return Ok(true);
    }
    let pass = tested(alloc, p, held, here, n, limit)?;
    Ok(pass)
}
