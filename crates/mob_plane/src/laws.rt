//! Laws of points and polygons. No code runs here.
ghost use Rattle.std.specs.Prelude.{◌≡◌, ◌≢◌, true, List};
ghost use Rattle.mob_ratio.specs.Ratio.{Ratio, ◌-ℚ◌};
ghost use Rattle.mob_ratio.specs.Order.{before};
ghost use Rattle.mob_ratio.specs.Sign.{sign_of};
ghost use Rattle.mob_ratio.specs.Line.{IsOnLine};
ghost use Rattle.mob_plane.specs.Turns.{turn};
ghost use Rattle.mob_plane.specs.Rings.{all_edges};
ghost use Rattle.mob_plane.specs.Membership.{inside, lies_on, passes_height, passes_right, crossing_at};
ghost use Rattle.mob_plane.specs.EdgeWise.{signs_at, signs_to, is_on, crosses, inside_by, same_order};
ghost use Rattle.mob_plane.specs.declared.point.Point.{Point as PointOf};

use crate::{EdgeSigns, Point, Polygon, RingFault, Tally};
use mob_list::laws::crosses_threads;

/// Points may cross threads.
pub fn points_cross_threads() {
    crosses_threads::<Point>();
}

/// Polygons, their errors, and tallies may cross threads.
pub fn polygons_cross_threads() {
    crosses_threads::<Polygon>();
    crosses_threads::<RingFault>();
    crosses_threads::<EdgeSigns>();
    crosses_threads::<Tally>();
}

/// If an edge is not horizontal, its crossing with a height is the point of the straight line
/// through its ends at that height. If one end is above a point and the other is not, the edge
/// crosses the height of the point to the right of it exactly if the point lies to the left of an
/// edge that goes up, or to the right of one that goes down.
pub fn crossings_by_turns()
    ensures on_line { (a b : PointOf) (h : Ratio) → a.y ≢ b.y → IsOnLine a.y a.x b.y b.x h (crossing_at (a, b) h) }
    ensures right { (a b p : PointOf) → passes_height p (a, b) ≡ true → before p.x (crossing_at (a, b) p.y) ≡ same_order (sign_of (b.y -ℚ a.y)) (sign_of (turn a b p)) }
{}

/// Signs alone decide whether a point lies on an edge, whether the edge crosses its height, and
/// whether it is in a polygon: those of its turns from the edges, and of its differences to their
/// ends. So two points with the same positions relative to all edges are both in the polygon, or
/// both outside.
pub fn membership_by_signs()
    ensures on { (a b p : PointOf) → lies_on p (a, b) ≡ is_on (signs_at p a b) }
    ensures right { (a b p : PointOf) → passes_right p (a, b) ≡ crosses (signs_at p a b) }
    ensures within { (rings : List (List PointOf)) (p : PointOf) → inside rings p ≡ inside_by (signs_to (all_edges rings) p) }
    ensures same { (rings : List (List PointOf)) (p q : PointOf) → signs_to (all_edges rings) p ≡ signs_to (all_edges rings) q → inside rings p ≡ inside rings q }
{}
