//! The part of a moving point inside a closed rectangle.

ghost use Rattle.mob_slice.specs.declared.formula.Formula.TheVariants.{F2};
ghost use Rattle.mob_slice.specs.Entries.{IsMadeBy};
ghost use Rattle.std.specs.Prelude.{◌≡◌, true, false, ◌++◌, IfOk};
ghost use Rattle.mob_frac.specs.Formula.{AllFit, IsFormula};
ghost use Rattle.mob_span.specs.Neighbours.{is_inside};
ghost use Rattle.mob_slice.specs.Slices.{IsSound};
ghost use Rattle.mob_slice.specs.Sides.{at_ends, HasValues};
ghost use Rattle.mob_slice.specs.Cut.{slice_value, slice_parts};
ghost use Rattle.mob_slice.specs.Lines.{plane_value_of, plane_parts_of};
ghost use Rattle.mob_stbox.specs.Areas.{in_area};
ghost use Rattle.mob_clip.specs.Areas.{area_parts, sides_of, area_ends, in_area_by, entries_of_area, ends_of_sides};
ghost use Rattle.mob_clip.specs.Pieces.{IsKeptInPlane};

use mob_cells::{Ends, Test, kept};
use mob_frac::{Frac, Overflow};
use mob_list::fault::Fault;
use mob_plane::Point;
use mob_slice::{Course, Formula, PlaneLine, Slice};
use mob_span::Span;
use mob_stbox::Area;
use std::alloc::{AllocError, Global};
use std::cmp::Ordering;

/// The differences of a point to the four sides.
#[derive(Clone, Copy, Drop)]
pub struct Sides {
    left: Frac,
    right: Frac,
    low: Frac,
    high: Frac,
}

// The differences to the sides. It is `Overflow` exactly if one does not fit.
fn to_sides(area: &Area, p: &Point) -> Result<Sides, Overflow>
    ensures value { IsFormula (area_parts area.now p.now) (sides_of area.now p.now) result }
{
    let left = p.x.sub(&area.xmin)?;
    let right = p.x.sub(&area.xmax)?;
    let low = p.y.sub(&area.ymin)?;
    let high = p.y.sub(&area.ymax)?;
    Ok(Sides {
        left,
        right,
        low,
        high,
    })
}

// The linear functions whose signs say whether a point on the segment from `p` to `q` is in the
// area.
fn functions(alloc: Global, area: &Area, p: &Point, q: &Point) -> Result<Vec<Ends>, Fault<Formula>>
    ensures functions { IsMadeBy F2 (area_parts area.now p.now ++ area_parts area.now q.now) (λ v. v.items ≡ area_ends area.now p.now q.now) result }
{
    let Ok(from) = to_sides(area, p) else {
        return Err(Fault::Because(Formula::F2));
    };
    let Ok(to) = to_sides(area, q) else {
        return Err(Fault::Because(Formula::F2));
    };
    Ok(functions_of(alloc, &from, &to)?)
}

// The four linear functions with these differences at the two ends.
fn functions_of(alloc: Global, from: &Sides, to: &Sides) -> Result<Vec<Ends>, AllocError>
    ensures functions { IfOk result (λ v. v.items ≡ ends_of_sides from.now to.now) }
{
    let functions = [
        Ends {
            at_lower: from.left,
            at_upper: to.left,
        },
        Ends {
            at_lower: from.right,
            at_upper: to.right,
        },
        Ends {
            at_lower: from.low,
            at_upper: to.low,
        },
        Ends {
            at_lower: from.high,
            at_upper: to.high,
        },
    ];
    Ok(Vec::from_array(alloc, functions)?)
}

// Whether a point is in the area, by the signs of its differences to the sides.
#[derive(Clone, Copy)]
struct InArea {}

impl Test for InArea {
    ghost keeps = { λ test signs. in_area_by signs };

    fn keeps(&self, signs: &[Ordering]) -> bool {
        match signs {
            [left, right, low, high] => {
                *left != Ordering::Less
                    && *right != Ordering::Greater
                    && *low != Ordering::Less
                    && *high != Ordering::Greater
            }
            _ => false,
        }
    }
}

/// The part of a slice on a piece of its span, given as a slice too, on which being in the area has
/// the wanted result.
///
/// The fault names the formula of the first entry that does not fit: F2, the differences to the
/// sides at the ends of the piece, then F3, their roots, then F1 at these roots.
pub fn in_area_on(
    alloc: Global,
    slice: &Slice<PlaneLine>,
    part: &Slice<PlaneLine>,
    area: &Area,
    want: bool,
) -> Result<Vec<Slice<PlaneLine>>, Fault<Formula>>
    requires holds { IsSound (λ c. c.from) (λ c. c.to) slice.now × (is_inside slice.now.span part.now.span ≡ true) }
    requires ends { AllFit (at_ends (slice_parts plane_parts_of slice.now) part.now.span) }
    requires part { HasValues plane_value_of (λ c. c.from) (λ c. c.to) (slice_value plane_value_of slice.now) part.now.span part.now }
    ensures kept { IsKeptInPlane want (λ t p. in_area area.now p) slice.now part.now.span (entries_of_area area.now slice.now part.now.span) result }
{
    let functions = functions(alloc, area, &part.course.from, &part.course.to)?;
    kept(alloc, slice, &part.span, functions, &InArea {}, want)
}
