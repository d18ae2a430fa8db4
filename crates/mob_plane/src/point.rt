//! Points of the plane.
ghost use Rattle.std.specs.Prelude.{◌≡◌, ◌↔◌, IsTrue};
ghost use Rattle.std.specs.Cmp.{partial_equiv_from_equiv};
ghost use Rattle.mob_plane.specs.Points.{same_point, same_point_equivalence};

use mob_frac::Frac;

/// A point of the plane. Contracts see it as its two coordinates, rational numbers, so two points
/// are equal exactly if both coordinates are.
#[derive(Clone, Copy, Debug, Drop)]
pub struct Point {
    /// The coordinate to the east.
    pub x: Frac,
    /// The coordinate to the north.
    pub y: Frac,
}

impl Point {
    /// Whether both points are equal: their coordinates are the same numbers.
    pub fn is_same(&self, other: &Point) -> bool
        ensures exact { IsTrue result ↔ (self.now ≡ other.now) }
        ensures test { result ≡ same_point self.now other.now }
    {
        self.x.is_same(&other.x) && self.y.is_same(&other.y)
    }
}

impl PartialEq for Point {
    ghost eq = { same_point };

    ghost laws = { partial_equiv_from_equiv same_point_equivalence };

    fn eq(&self, other: &Point) -> bool {
        self.is_same(other)
    }
}

impl Eq for Point {
    ghost laws = { same_point_equivalence };
}
