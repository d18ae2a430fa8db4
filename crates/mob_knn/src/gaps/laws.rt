//! Laws of gaps, for proofs about a search by gaps. No code runs here.
ghost use Rattle.std.specs.Prelude.{◌≡◌, true, Option, Some};
ghost use Rattle.mob_ratio.specs.Ratio.{Ratio};
ghost use Rattle.mob_plane.specs.declared.point.Point.{Point as PointOf};
ghost use Rattle.mob_stbox.specs.Boxes.{BoxOf, contains};
ghost use Rattle.mob_near.specs.Approaches.{IsApproach};
ghost use Rattle.mob_meets.specs.Covers.{Covers};
ghost use Rattle.mob_knn.specs.Gaps.{gap_of, gap_reaches};

/// The nearest approach of the contents of two boxes is not less than their gap. If the boxes are
/// apart, their contents have no common instant.
pub fn approaches_reach_gaps()
    ensures reach { (one other : Ratio → Option PointOf) (b c : BoxOf) (m : Ratio) → Covers one b → Covers other c → IsApproach one other (Some m) → gap_reaches (gap_of b c) m ≡ true }
{}

/// Nor is it less than the gap to a box that contains one of the two.
pub fn approaches_reach_wider_gaps()
    ensures reach { (one other : Ratio → Option PointOf) (wide b c : BoxOf) (m : Ratio) → contains wide b ≡ true → Covers one b → Covers other c → IsApproach one other (Some m) → gap_reaches (gap_of wide c) m ≡ true }
{}
