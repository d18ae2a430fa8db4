//! Laws of boxes, for proofs that use them. No code runs here.

ghost use Rattle.std.specs.Prelude.{◌≡◌, ◌↔◌, IsTrue, true, pos};
ghost use Rattle.mob_ratio.specs.Ratio.{Ratio, ◌≤ℚ◌, neg_ℚ, whole};
ghost use Rattle.mob_plane.specs.declared.point.Point.{Point};
ghost use Rattle.mob_stbox.specs.Areas.{InArea, in_area, is_area};
ghost use Rattle.mob_stbox.specs.Boxes.{BoxOf, InBox, in_box, is_box, BoxContains};
ghost use Rattle.mob_stbox.specs.Expansion.{moved_area, AreWithin};
ghost use Rattle.mob_stbox.specs.declared.area.Area.{Area};

use crate::{Area, StBox};
use mob_list::laws::crosses_threads;

/// The tests of membership are exact: of a point in an area, and of a position at an instant in a
/// box.
pub fn membership()
    ensures areas { (a : Area) (p : Point) → IsTrue (in_area a p) ↔ InArea a p }
    ensures boxes { (b : BoxOf) (t : Ratio) (p : Point) → IsTrue (in_box b t p) ↔ InBox b t p }
{}

/// Some point lies in an area exactly if no smallest coordinate is above its greatest.
pub fn areas_have_points()
    ensures exact { (a : Area) → (is_area a ≡ true) ↔ ((p : Point) × InArea a p) }
{}

/// Two boxes that contain each other are equal. So two boxes have one smallest box over them.
pub fn one_box()
    ensures one { (a b : BoxOf) → is_box a ≡ true → is_box b ≡ true → BoxContains a b → BoxContains b a → a ≡ b }
{}

/// An area whose sides are moved outward has exactly the points within `d` of one of its points, in
/// each coordinate. If they are moved inward, it keeps exactly the points whose whole neighbourhood
/// of that size is in it.
pub fn expansions()
    ensures outward { (a : Area) (d : Ratio) → is_area a ≡ true → whole (pos 0) ≤ℚ d
        → (p : Point) → InArea (moved_area a d) p ↔ ((q : Point) × InArea a q × AreWithin p q d) }
    ensures inward { (a : Area) (d : Ratio) → d ≤ℚ whole (pos 0)
        → (p : Point) → InArea (moved_area a d) p ↔ ((q : Point) → AreWithin q p (neg_ℚ d) → InArea a q) }
{}

/// Areas and boxes may cross threads.
pub fn boxes_cross_threads() {
    crosses_threads::<Area>();
    crosses_threads::<StBox>();
}
