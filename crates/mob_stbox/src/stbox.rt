//! Boxes of the plane and of time, and their operations.
ghost use Rattle.std.specs.Prelude.{◌≡◌, ◌↔◌, true, IsTrue, IsNone, IfSome, MatchOption, Option, Some, None};
ghost use Rattle.std.specs.Cmp.{partial_equiv_from_equiv};
ghost use Rattle.mob_frac.specs.Formula.{IsFormula};
ghost use Rattle.mob_stbox.specs.Areas.{is_area};
ghost use Rattle.mob_stbox.specs.Boxes.{BoxOf, NoBox, is_box, is_whole, origin, BoxesMeet, BoxContains, IsCover, overlaps, contains, cover, same_box};
ghost use Rattle.mob_stbox.specs.SameBoxes.{same_box_equivalence};
ghost use Rattle.mob_stbox.specs.Expansion.{box_over, expanded, parts_of_expansion};

use crate::area::Area;
use crate::dimension::{
    is_same_space, is_same_time, is_shared, is_space_over, is_time_over, space_cover, spaces_meet,
    time_cover, times_meet,
};
use mob_frac::{Frac, Overflow};
use mob_span::Span;
use std::marker::Model;

/// A box: a closed rectangle of the plane, a span of time, or both. No smallest coordinate is above
/// its greatest, and each end of the span is included or not. Contracts see it as the record of the
/// two. It is MobilityDB's `stbox` without a third dimension of space.
#[derive(Clone, Copy)]
pub struct StBox {
    space: Option<Area>,
    time: Option<Span>,
}

impl Model for StBox {
    ghost use Rattle.std.specs.Prelude.{◌≡◌, true};
    ghost use Rattle.mob_stbox.specs.Boxes.{BoxOf, is_box};

    ghost Value = { BoxOf };

    ghost view = { λ b. record { space = b.space; time = b.time } };

    ghost invariant = { λ b. is_box (record { space = b.space; time = b.time }) ≡ true };

    ghost inverse = { λ b. record { space = b.space; time = b.time } };
}

// The box with this area and this time, if the area has a point.
fn with_space(area: Area, time: Option<Span>) -> Option<StBox>
    ensures value { result ≡ box_over area time }
{
    if area.is_area() {
        Some(StBox {
            space: Some(area),
            time,
        })
    } else {
        None
    }
}

impl StBox {
    /// The box with these dimensions. `None` exactly if both are missing or a smallest coordinate
    /// is above its greatest.
    pub fn new(space: Option<Area>, time: Option<Span>) -> Option<StBox>
        ensures none { IsNone result ↔ NoBox space time }
        ensures value { IfSome result (λ b. b ≡ record { space = space; time = time }) }
    {
        match space {
            None => match time {
                None => None,
                Some(span) => Some(StBox {
                    space: None,
                    time: Some(span),
                }),
            },
            Some(area) => {
                if !area.is_area() {
                    return None;
                }
                Some(StBox {
                    space: Some(area),
                    time,
                })
            }
        }
    }

    /// The rectangle, if the box has space.
    pub fn space(&self) -> Option<&Area>
        ensures value { MatchOption result (self.now.space ≡ None) (λ a. self.now.space ≡ Some a.now) }
        ensures sides { IfSome result (λ a. is_area a.now ≡ true) }
    {
        self.space.as_ref()
    }

    /// The span of time, if the box has one.
    pub fn time(&self) -> Option<&Span>
        ensures value { MatchOption result (self.now.time ≡ None) (λ s. self.now.time ≡ Some s.now) }
    {
        self.time.as_ref()
    }
}

impl StBox {
    /// Whether the two share at least one dimension and, on every dimension that both have, a
    /// value: a point of the plane, an instant. Boxes whose sides touch share the points of those
    /// sides.
    #[tactic(auto, unfolding(crate::specs::Boxes::overlaps))]
    pub fn overlaps(&self, other: &StBox) -> bool
        ensures exact { IsTrue result ↔ BoxesMeet self.now other.now }
        ensures test { result ≡ overlaps self.now other.now }
    {
        is_shared(&self.space, &other.space, &self.time, &other.time)
            && (spaces_meet(&self.space, &other.space) && times_meet(&self.time, &other.time))
    }

    /// Whether the other has every dimension of this box and lies in it on each.
    #[tactic(auto, unfolding(crate::specs::Boxes::contains))]
    pub fn contains(&self, other: &StBox) -> bool
        ensures exact { IsTrue result ↔ BoxContains self.now other.now }
        ensures test { result ≡ contains self.now other.now }
    {
        is_space_over(&self.space, &other.space) && is_time_over(&self.time, &other.time)
    }

    /// The smallest box that contains both, which have space and time.
    #[tactic(auto, unfolding(crate::specs::Boxes::cover, crate::specs::Boxes::is_whole))]
    pub fn cover(&self, other: &StBox) -> StBox
        requires first { is_whole self.now ≡ true }
        requires second { is_whole other.now ≡ true }
        ensures least { IsCover self.now other.now result }
        ensures value { result ≡ cover self.now other.now }
    {
        StBox {
            space: space_cover(&self.space, &other.space),
            time: time_cover(&self.time, &other.time),
        }
    }

    /// The box with each side of its rectangle moved outward by `d`, or inward if `d` is below 0,
    /// and its time unchanged. It is `Overflow` exactly if the box has space and a new coordinate
    /// does not fit. It is `None` exactly if the box has no space, or each new coordinate fits and
    /// no rectangle is left. This is MobilityDB's `expandSpace`.
    pub fn expand(&self, d: &Frac) -> Result<Option<StBox>, Overflow>
        ensures value { IsFormula (parts_of_expansion self.now d.now) (expanded self.now d.now) result }
    {
        match &self.space {
            None => Ok(None),
            Some(area) => Ok(with_space(area.moved(d)?, self.time)),
        }
    }

    /// Whether both boxes are equal: they have the same dimensions, the same sides and the same
    /// span.
    #[tactic(auto, unfolding(crate::specs::Boxes::same_box))]
    pub fn same(&self, other: &StBox) -> bool
        ensures exact { IsTrue result ↔ (self.now ≡ other.now) }
        ensures test { result ≡ same_box self.now other.now }
    {
        is_same_space(&self.space, &other.space) && is_same_time(&self.time, &other.time)
    }
}

impl PartialEq for StBox {
    ghost eq = { same_box };

    ghost laws = { partial_equiv_from_equiv same_box_equivalence };

    fn eq(&self, other: &StBox) -> bool {
        self.same(other)
    }
}

impl Eq for StBox {
    ghost laws = { same_box_equivalence };
}

impl Default for StBox {
    ghost is_default = { λ b. b ≡ origin };

    /// The point 0 0 at any time. It is a placeholder to fill arrays with.
    fn default() -> StBox {
        let zero = Frac::zero();
        StBox {
            space: Some(Area {
                xmin: zero,
                xmax: zero,
                ymin: zero,
                ymax: zero,
            }),
            time: None,
        }
    }
}
