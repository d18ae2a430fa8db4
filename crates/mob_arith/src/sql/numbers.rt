//! Plain numbers.
ghost use Rattle.std.specs.Prelude.{◌≡◌};
ghost use Rattle.mob_arith.specs.Sql.Arithmetic.{is_nil};

use mob_frac::Frac;

/// Whether a number is 0.
pub fn is_nil(number: &Frac) -> bool
    ensures value { result ≡ is_nil number.now }
{
    number.is_zero()
}
