//! Small gaps in place of gaps of any size, by which each comparison is decided alike.
ghost use Rattle.std.specs.Prelude.{◌≡◌, ◌<◌, ◌^◌, nat_abs, IfOk};
ghost use Rattle.mob_ratio.specs.Ratio.{whole};
ghost use Rattle.mob_slice.specs.declared.comparison.Gaps.TheVariants.{Constant, One, Two};
ghost use Rattle.mob_cells.specs.Coordinates.{as_gaps};
ghost use Rattle.mob_compare.specs.Small.{AreDecidedAlike, small, twice, last_small};

use mob_cells::{Coordinates, EndGaps, share_root};
use mob_frac::Frac;
use mob_slice::Gaps;
use mob_wide::Broad;
use std::alloc::{AllocError, Global};
use std::cmp::Ordering;

// An integer as a fraction.
fn whole(number: i64) -> Frac
    requires fits { nat_abs number < 2 ^ 62 }
    ensures value { result ≡ whole number }
{
    match Frac::new(number, 1) {
        Ok(whole) => whole,
        Err(_) => unreachable!(),
    }
}

// -1, 0 or 1, with this sign.
fn small(sign: Ordering) -> Frac
    ensures value { result ≡ small sign }
{
    match sign {
        Ordering::Less => whole(-1),
        Ordering::Equal => Frac::zero(),
        Ordering::Greater => whole(1),
    }
}

// -2, 0 or 2, with this sign.
fn twice(sign: Ordering) -> Frac
    ensures value { result ≡ twice sign }
{
    match sign {
        Ordering::Less => whole(-2),
        Ordering::Equal => Frac::zero(),
        Ordering::Greater => whole(2),
    }
}

// The last of the four gaps: without a shared root, it is twice as large.
fn last_small(shared: bool, sign: Ordering) -> Frac
    ensures value { result ≡ last_small shared sign }
{
    if shared {
        return small(sign);
    }
    twice(sign)
}

// Small gaps in place of one gap, which is `f` at the lower end and `g` at the upper one.
#[tactic(auto, using(crate::proofs::SmallGaps::one_alike))]
fn one_small(f: &Broad, g: &Broad) -> EndGaps
    ensures alike { AreDecidedAlike (One f.now) (One g.now) result }
{
    EndGaps {
        at_lower: Gaps::One(small(f.sign())),
        at_upper: Gaps::One(small(g.sign())),
    }
}

// Small gaps in place of two, which are `f` and `e` at the lower end and `g` and `h` at the upper
// one.
#[tactic(auto, using(crate::proofs::SmallGaps::two_alike))]
fn two_small(
    alloc: Global,
    f: &Broad,
    e: &Broad,
    g: &Broad,
    h: &Broad,
) -> Result<EndGaps, AllocError>
    ensures alike { IfOk result (AreDecidedAlike (Two f.now e.now) (Two g.now h.now)) }
{
    let shared = share_root(alloc, f, g, e, h)?;
    Ok(EndGaps {
        at_lower: Gaps::Two(small(f.sign()), small(e.sign())),
        at_upper: Gaps::Two(small(g.sign()), last_small(shared, h.sign())),
    })
}

// Gaps of courses without coordinates.
fn no_gaps() -> EndGaps
    ensures lower { result.at_lower ≡ Constant }
    ensures upper { result.at_upper ≡ Constant }
{
    EndGaps {
        at_lower: Gaps::Constant,
        at_upper: Gaps::Constant,
    }
}

/// Small gaps, by which each comparison on each span is decided as by the given ones at its two
/// ends. The only error is a failed allocation.
#[tactic(auto, using(crate::proofs::SmallGaps::steady_alike, crate::proofs::SmallGaps::one_steady, crate::proofs::SmallGaps::one_two, crate::proofs::SmallGaps::two_steady, crate::proofs::SmallGaps::two_one))]
pub fn small_gaps(
    alloc: Global,
    lower: &Coordinates,
    upper: &Coordinates,
) -> Result<EndGaps, AllocError>
    ensures alike { IfOk result (AreDecidedAlike (as_gaps lower.now) (as_gaps upper.now)) }
{
    match lower {
        Coordinates::Steady => Ok(no_gaps()),
        Coordinates::One(f) => match upper {
            Coordinates::Steady => Ok(no_gaps()),
            Coordinates::One(g) => Ok(one_small(f, g)),
            Coordinates::Two(_, _) => Ok(no_gaps()),
        },
        Coordinates::Two(f, e) => match upper {
            Coordinates::Steady => Ok(no_gaps()),
            Coordinates::One(_) => Ok(no_gaps()),
            Coordinates::Two(g, h) => two_small(alloc, f, e, g, h),
        },
    }
}
