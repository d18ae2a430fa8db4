//! Laws of boxes, by which proofs show that a search by boxes misses nothing. No code runs here.
ghost use Rattle.std.specs.Prelude.{◌≡◌, true, false, List, Option, Some, All, is_some};
ghost use Rattle.mob_ratio.specs.Ratio.{Ratio};
ghost use Rattle.mob_plane.specs.Corners.{all_points, AreCorners};
ghost use Rattle.mob_plane.specs.Membership.{inside};
ghost use Rattle.mob_plane.specs.Rings.{has_open};
ghost use Rattle.mob_plane.specs.declared.point.Point.{Point as PointOf};
ghost use Rattle.mob_stbox.specs.Areas.{InArea};
ghost use Rattle.mob_stbox.specs.Boxes.{BoxOf, BoxesMeet};
ghost use Rattle.mob_stbox.specs.Expansion.{expanded, moved_area};
ghost use Rattle.mob_stbox.specs.declared.area.Area.{Area as AreaOf};
ghost use Rattle.mob_lift.specs.Sometime.{IsSometime};
ghost use Rattle.mob_near.specs.Distances.{are_within};
ghost use Rattle.mob_value.specs.declared.value.Value.{Value};
ghost use Rattle.mob_meets.specs.Covers.{Covers, box_between, IsLookedForBy};

/// If two points are within a distance, each is in the other's area with its sides moved outward by
/// that distance.
pub fn near_points_share_areas()
    ensures second { (a : AreaOf) (p q : PointOf) (d : Ratio) → are_within d p q ≡ true → InArea a p → InArea (moved_area a d) q }
    ensures first { (a : AreaOf) (p q : PointOf) (d : Ratio) → are_within d p q ≡ true → InArea a q → InArea (moved_area a d) p }
{}

/// If two moving points are within a distance at some instant, a box over one of them, with its
/// sides moved outward by that distance, exists and meets each box over the other.
pub fn near_boxes_meet()
    ensures second { (one other : Ratio → Option PointOf) (c : BoxOf) (d : Ratio) → Covers other c → is_some c.space ≡ true → IsSometime (λ p q. are_within d p q ≡ true) one other
        → (wide : BoxOf) × (expanded c d ≡ Some wide) × ((b : BoxOf) → Covers one b → is_some b.space ≡ true → BoxesMeet b wide) }
    ensures first { (one other : Ratio → Option PointOf) (b : BoxOf) (d : Ratio) → Covers one b → is_some b.space ≡ true → IsSometime (λ p q. are_within d p q ≡ true) one other
        → (wide : BoxOf) × (expanded b d ≡ Some wide) × ((c : BoxOf) → Covers other c → is_some c.space ≡ true → BoxesMeet c wide) }
{}

/// A point inside closed rings is in each area that contains all of their corners.
pub fn inside_is_in()
    ensures area { (a : AreaOf) (rings : List (List PointOf)) (p : PointOf) → has_open rings ≡ false → All (InArea a) (all_points rings) → inside rings p ≡ true → InArea a p }
{}

/// If a moving point is inside closed rings at some instant, each box over it meets the bounding
/// rectangle of their corners.
pub fn entered_boxes_meet()
    ensures meet { (place : Ratio → Option PointOf) (b : BoxOf) (rings : List (List PointOf)) (least greatest : PointOf) → Covers place b → is_some b.space ≡ true → has_open rings ≡ false
        → AreCorners (all_points rings) least greatest → (t : Ratio) (p : PointOf) → place t ≡ Some p → inside rings p ≡ true → BoxesMeet b (box_between least greatest) }
{}

/// A value has one box by which it is searched for.
pub fn one_box_to_look_for()
    ensures one { (v : Value) (b c : BoxOf) → IsLookedForBy v b → IsLookedForBy v c → b ≡ c }
{}
