//! Laws of convex quadratic functions on the interval from 0 to 1: whether one is at most a bound,
//! and its greatest lower bound. No code runs here.

ghost use Rattle.std.specs.Prelude.{◌≡◌, ◌↔◌, Bool, true};
ghost use Rattle.mob_ratio.specs.Ratio.{Ratio, ◌*ℚ◌};
ghost use Rattle.mob_ratio.specs.Order.{before, up_to};
ghost use Rattle.mob_ratio.specs.Sign.{nil};
ghost use Rattle.mob_ratio.specs.Quadratic.{at_one, reaches, infimum, square_is_within, IsAtMost, IsInfimum};

/// If the function is convex and not below 0 at either end, the test is true exactly if some value
/// is at most `d`, and `infimum` is the greatest lower bound of the values, whichever ends are
/// included.
pub fn quadratic_tests_decide()
    ensures reached { (a b c d : Ratio) (with_nil with_one : Bool) → up_to nil a ≡ true → up_to nil c ≡ true → up_to nil (at_one a b c) ≡ true → (reaches a b c d with_nil with_one ≡ true) ↔ ((s : Ratio) × IsAtMost a b c d with_nil with_one s) }
    ensures bounded { (a b c : Ratio) (with_nil with_one : Bool) → up_to nil a ≡ true → up_to nil c ≡ true → up_to nil (at_one a b c) ≡ true → IsInfimum a b c with_nil with_one (infimum a b c) }
{}

/// Two quotients compare as the products do, so neither product has to be computed.
pub fn quotients_decide()
    ensures within { (a k d : Ratio) → before nil a ≡ true → up_to nil d ≡ true → square_is_within a k d ≡ up_to (k *ℚ k) (a *ℚ d) }
{}
