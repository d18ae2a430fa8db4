//! Closed rectangles of the plane.
ghost use Rattle.std.specs.Prelude.{◌≡◌, true};
ghost use Rattle.mob_frac.specs.Formula.{IsFormula, expansion_parts};
ghost use Rattle.mob_stbox.specs.Areas.{is_area, areas_meet, area_over, area_cover, area_between, IsAreaOver, same_area};
ghost use Rattle.mob_stbox.specs.Expansion.{moved_area};

use mob_frac::{Frac, Overflow};
use mob_plane::{Point, greater, smaller};

/// A closed rectangle of the plane, by its smallest and its greatest coordinates. Its sides belong
/// to it. Any four numbers are allowed here; in a `StBox`, no smallest coordinate is above its
/// greatest.
#[derive(Clone, Copy, Debug, Drop)]
pub struct Area {
    /// The coordinate of its west side.
    pub xmin: Frac,
    /// The coordinate of its east side.
    pub xmax: Frac,
    /// The coordinate of its south side.
    pub ymin: Frac,
    /// The coordinate of its north side.
    pub ymax: Frac,
}

impl Area {
    /// The bounding box of two points, which are opposite corners of it. They may be either pair of
    /// opposite corners.
    pub fn between(a: &Point, b: &Point) -> Area
        ensures value { result ≡ area_between a.now b.now }
        ensures area { is_area result ≡ true }
        ensures least { IsAreaOver a.now b.now result }
    {
        Area {
            xmin: smaller(&a.x, &b.x),
            xmax: greater(&a.x, &b.x),
            ymin: smaller(&a.y, &b.y),
            ymax: greater(&a.y, &b.y),
        }
    }

    // Whether no smallest coordinate is above its greatest.
    pub(crate) fn is_area(&self) -> bool
        ensures value { result ≡ is_area self.now }
    {
        !self.xmax.is_before(&self.xmin) && !self.ymax.is_before(&self.ymin)
    }

    // Whether the two share a point, if both are areas.
    pub(crate) fn meets(&self, other: &Area) -> bool
        ensures value { result ≡ areas_meet self.now other.now }
    {
        !other.xmax.is_before(&self.xmin)
            && !self.xmax.is_before(&other.xmin)
            && (!other.ymax.is_before(&self.ymin) && !self.ymax.is_before(&other.ymin))
    }

    // Whether the other lies in this one.
    pub(crate) fn is_over(&self, other: &Area) -> bool
        ensures value { result ≡ area_over self.now other.now }
    {
        !other.xmin.is_before(&self.xmin)
            && !self.xmax.is_before(&other.xmax)
            && (!other.ymin.is_before(&self.ymin) && !self.ymax.is_before(&other.ymax))
    }

    // The smallest area that contains both.
    pub(crate) fn cover(&self, other: &Area) -> Area
        ensures value { result ≡ area_cover self.now other.now }
    {
        Area {
            xmin: smaller(&self.xmin, &other.xmin),
            xmax: greater(&self.xmax, &other.xmax),
            ymin: smaller(&self.ymin, &other.ymin),
            ymax: greater(&self.ymax, &other.ymax),
        }
    }

    // Each side moved outward by `d`, or inward if `d` is below 0.
    pub(crate) fn moved(&self, d: &Frac) -> Result<Area, Overflow>
        ensures value { IsFormula (expansion_parts self.now.xmin self.now.xmax self.now.ymin self.now.ymax d.now) (moved_area self.now d.now) result }
    {
        let xmin = self.xmin.sub(d)?;
        let xmax = self.xmax.add(d)?;
        let ymin = self.ymin.sub(d)?;
        let ymax = self.ymax.add(d)?;
        Ok(Area {
            xmin,
            xmax,
            ymin,
            ymax,
        })
    }

    // Whether the two have the same sides.
    pub(crate) fn is_same(&self, other: &Area) -> bool
        ensures value { result ≡ same_area self.now other.now }
    {
        self.xmin.is_same(&other.xmin)
            && self.xmax.is_same(&other.xmax)
            && (self.ymin.is_same(&other.ymin) && self.ymax.is_same(&other.ymax))
    }
}
