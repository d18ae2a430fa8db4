//! Fractions that need not be in lowest terms: intermediate steps of a result that is reduced once.
ghost use Rattle.std.specs.Prelude.{◌≡◌, ◌<◌, pos, ◌<ℤ◌, nat_abs, IfSome};
ghost use Rattle.mob_ratio.specs.Ratio.{over, whole, ◌+ℚ◌, ◌-ℚ◌, ◌*ℚ◌, ◌/ℚ◌, ◌<ℚ◌};
ghost use Rattle.mob_frac.specs.Fits.{Fits, IsExact};

use crate::fraction::{Frac, LIMIT, Overflow, reduced};
use crate::reduction::product;
use crate::wide::Wide;
use std::marker::Model;

/// A fraction whose parts are below `2^62`, as those of a `Frac`, and need not be in lowest terms.
/// An operation returns `None` if a part of its unreduced result is too large, even if it would fit
/// in lowest terms.
#[derive(Drop)]
pub struct Rough {
    num: i64,
    den: i64,
}

impl Model for Rough {
    ghost use Rattle.mob_ratio.specs.Ratio.{Ratio, ratio_code};

    ghost Value = { Ratio };

    ghost coded = { ratio_code };

    ghost use Rattle.mob_frac.specs.RoughInside.{IsRough, rough_value};

    ghost view = { rough_value };

    ghost invariant = { IsRough };
}

// The fraction, if both parts fit.
#[inline(always)]
pub(crate) fn fitting(num: i128, den: i128) -> Option<Rough>
    requires positive { pos 0 <ℤ den }
    ensures fits { IfSome result (λ r. (r ≡ over num (nat_abs den)) × Fits r) }
{
    if -LIMIT < num && num < LIMIT && den < LIMIT {
        Some(Rough {
            num: num as i64,
            den: den as i64,
        })
    } else {
        None
    }
}

impl Rough {
    /// The difference `a - b`.
    #[inline(always)]
    pub fn difference(a: &Frac, b: &Frac) -> Option<Rough>
        ensures value { IfSome result (λ r. (r ≡ a.now -ℚ b.now) × Fits (a.now -ℚ b.now)) }
    {
        Wide::difference(a, b).rough()
    }

    /// The quotient by a number above 0.
    pub fn over(&self, other: &Rough) -> Option<Rough>
        requires above { whole (pos 0) <ℚ other.now }
        ensures value { IfSome result (λ r. (r ≡ self.now /ℚ other.now) × Fits (self.now /ℚ other.now)) }
    {
        fitting(product(self.num, other.den), product(self.den, other.num))
    }

    /// The product.
    pub fn times(&self, other: &Rough) -> Option<Rough>
        ensures value { IfSome result (λ r. (r ≡ self.now *ℚ other.now) × Fits (self.now *ℚ other.now)) }
    {
        fitting(product(self.num, other.num), product(self.den, other.den))
    }

    /// The sum `first + self`, in lowest terms. It is `Overflow` exactly if the reduced sum has a
    /// part of more than 62 bits.
    pub fn added_to(&self, first: &Frac) -> Result<Frac, Overflow>
        ensures exact { IsExact (first.now +ℚ self.now) result }
    {
        reduced(
            product(first.num(), self.den) + product(self.num, first.den()),
            product(first.den(), self.den),
        )
    }
}
