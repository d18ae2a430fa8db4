//! Bands of one width, side by side on a line, and the whole numbers that count them.
ghost use Rattle.std.specs.Prelude.{◌≡◌, ◌↔◌, [], ◌∷◌, pos, true, ◌<ℤ◌, ◌≤ℤ◌, ◌*ℤ◌};
ghost use Rattle.std.specs.Int.{int_div_euclid};
ghost use Rattle.mob_ratio.specs.Ratio.{◌<ℚ◌, whole, ◌*ℚ◌, ◌/ℚ◌};
ghost use Rattle.mob_ratio.specs.Sign.{nil};
ghost use Rattle.mob_frac.specs.Fits.{IsExact};
ghost use Rattle.mob_frac.specs.Formula.{IsFormula};
ghost use Rattle.mob_grid.specs.Bands.{floor_of, band_of};

use mob_frac::{Frac, Overflow};

/// Whether the number is positive.
pub fn is_positive(x: &Frac) -> bool
    ensures exact { (result ≡ true) ↔ (nil <ℚ x.now) }
{
    x.sign() == 1
}

// The greatest whole number at most `q`.
#[tactic(auto, unfolding(crate::specs::Bands::floor_of))]
fn floor(q: &Frac) -> i64
    ensures value { result ≡ floor_of q.now }
{
    q.num().div_euclid(q.den())
}

// The product of two numerators or denominators.
fn product(a: i64, b: i64) -> i128
    ensures value { result ≡ a *ℤ b }
{
    a as i128 * b as i128
}

// The quotient, rounded down.
fn quotient(a: i128, b: i128) -> i128
    requires positive { pos 0 <ℤ b }
    ensures value { result ≡ int_div_euclid a b }
{
    a.div_euclid(b)
}

// The number of the band of width `c` that contains `x`, of any size.
fn band(c: &Frac, x: &Frac) -> i128
    requires positive { nil <ℚ c.now }
    ensures value { result ≡ band_of c.now x.now }
{
    quotient(product(x.num(), c.den()), product(x.den(), c.num()))
}

/// The edge before the band of number `n`, in bands of width `c`. The only error is `Overflow`, if
/// it does not fit.
pub fn edge(c: &Frac, n: i64) -> Result<Frac, Overflow>
    ensures exact { IsExact (whole n *ℚ c.now) result }
{
    Frac::from_wide(product(n, c.num()), c.den() as i128)
}

/// The number of the band of width `c` that contains `x`, if that is between `low` and `high`.
pub fn band_within(c: &Frac, x: &Frac, low: i64, high: i64) -> i64
    requires positive { nil <ℚ c.now }
    requires from { low ≤ℤ band_of c.now x.now }
    requires to { band_of c.now x.now ≤ℤ high }
    ensures value { result ≡ band_of c.now x.now }
{
    band(c, x) as i64
}

/// The number of the band of width `c` that contains `x`, from its quotient. `Overflow` exactly if
/// the quotient does not fit.
pub fn floor_over(x: &Frac, c: &Frac) -> Result<i64, Overflow>
    requires positive { nil <ℚ c.now }
    ensures value { IsFormula ((x.now /ℚ c.now) ∷ []) (band_of c.now x.now) result }
{
    let quotient = x.div(c)?;
    Ok(floor(&quotient))
}
