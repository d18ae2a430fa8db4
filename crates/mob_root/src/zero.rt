//! The sign of a number, and the root of a linear function.

ghost use Rattle.std.specs.Prelude.{◌≡◌, true};
ghost use Rattle.mob_ratio.specs.Order.{before};
ghost use Rattle.mob_ratio.specs.Sign.{opposite, root_at, nil, sign_of};
ghost use Rattle.mob_frac.specs.Formula.{IsFormula, inner_root_parts};

use mob_frac::{Frac, Overflow};
use std::cmp::Ordering;

/// How the number compares with 0.
pub fn sign_of(x: &Frac) -> Ordering
    ensures sign { result ≡ sign_of x.now }
{
    let sign = x.sign();
    if sign == -1 {
        return Ordering::Less;
    }
    if sign == 0 {
        return Ordering::Equal;
    }
    Ordering::Greater
}

// Whether the number is below 0.
fn is_below(x: &Frac) -> bool
    ensures value { result ≡ before x.now nil }
{
    if x.sign() == -1 {
        return true;
    }
    false
}

// Whether the number is above 0.
fn is_above(x: &Frac) -> bool
    ensures value { result ≡ before nil x.now }
{
    if x.sign() == 1 {
        return true;
    }
    false
}

/// Whether one of the two numbers is below 0 and the other above.
#[tactic(auto, unfolding(mob_ratio::specs::Sign::opposite))]
pub fn are_opposite(x: &Frac, y: &Frac) -> bool
    ensures value { result ≡ opposite x.now y.now }
{
    (is_below(x) && is_above(y)) || (is_above(x) && is_below(y))
}

/// The instant at which the linear function from `f0` at `l` to `f1` at `u` is 0. `f0` and `f1`
/// have opposite signs. It is `Overflow` exactly if a part of the formula does not fit.
pub fn root_within(f0: &Frac, f1: &Frac, l: &Frac, u: &Frac) -> Result<Frac, Overflow>
    requires opposite { opposite f0.now f1.now ≡ true }
    ensures value { IsFormula (inner_root_parts f0.now f1.now l.now u.now) (root_at f0.now f1.now l.now u.now) result }
{
    let d = f0.sub(f1)?;
    let q = f0.div(&d)?;
    let w = u.sub(l)?;
    let s = w.mul(&q)?;
    l.add(&s)
}
