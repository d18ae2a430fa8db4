//! Laws of nearest approaches. No code runs here.

ghost use Rattle.std.specs.Prelude.{◌≡◌, Option};
ghost use Rattle.mob_ratio.specs.Ratio.{Ratio};
ghost use Rattle.mob_plane.specs.declared.point.Point.{Point};
ghost use Rattle.mob_near.specs.Approaches.{IsApproach};

/// Two moving points have one nearest approach.
pub fn one_approach()
    ensures one { (left right : Ratio → Option Point) (a b : Option Ratio) → IsApproach left right a → IsApproach left right b → a ≡ b }
{}
