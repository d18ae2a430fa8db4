//! The part of a moving point inside a polygon.

ghost use Rattle.std.specs.Prelude.{◌↔◌, true, false, IsTrue, IfOk};
ghost use Rattle.std.specs.List.{flat_map};
ghost use Rattle.mob_slice.specs.Slices.{IsSound};
ghost use Rattle.mob_slice.specs.Entries.{IsJudged};
ghost use Rattle.mob_slice.specs.Lines.{plane_value_of};
ghost use Rattle.mob_cells.specs.Restricted.{IsRestricted};
ghost use Rattle.mob_plane.specs.Membership.{inside};
ghost use Rattle.mob_clip.specs.Polygons.{is_inside_edges, entries_of_edges, entries_of_polygon, IsEverInside};
ghost use Rattle.mob_clip.specs.Pieces.{IsKeptInPlane};

use crate::edges::edges_of;
use crate::membership::membership;
use crate::pieces::kept_on;
use crate::roots::placed_on;
use mob_cells::{Restriction, restricted};
use mob_lift::normal::normal;
use mob_list::fault::Fault;
use mob_plane::{Point, Polygon};
use mob_slice::{Formula, Moving, PlaneLine, Slice};
use std::alloc::Global;

// The part of a slice on which being inside the edges has the wanted result.
fn edges_on(
    alloc: Global,
    slice: &Slice<PlaneLine>,
    edges: &[(Point, Point)],
    want: bool,
) -> Result<Vec<Slice<PlaneLine>>, Fault<Formula>>
    requires sound { IsSound (λ c. c.from) (λ c. c.to) slice.now }
    ensures kept { IsKeptInPlane want (λ t p. is_inside_edges edges.now p) slice.now slice.now.span (entries_of_edges edges.now slice.now) result }
{
    let placed = placed_on(alloc, slice, edges)?;
    let steps = membership(alloc, &slice.span, placed.as_slice())?;
    kept_on(alloc, slice, &steps, want)
}

// The condition that a position is inside the polygon of the edges.
#[derive(Drop)]
struct ToEdges<'a> {
    edges: &'a [(Point, Point)],
}

impl<'a> Restriction<PlaneLine> for ToEdges<'a> {
    ghost meets = { λ by t p. is_inside_edges by.edges.now p };

    ghost entries = { λ by s. entries_of_edges by.edges.now s };

    fn on_slice(
        &self,
        alloc: Global,
        slice: &Slice<PlaneLine>,
        want: bool,
    ) -> Result<Vec<Slice<PlaneLine>>, Fault<Formula>> {
        edges_on(alloc, slice, self.edges, want)
    }
}

// The restriction to the instants at which being inside the polygon of the edges has the wanted
// result.
fn to_edges(
    alloc: Global,
    a: &Moving<PlaneLine>,
    edges: &[(Point, Point)],
    want: bool,
) -> Result<Option<Moving<PlaneLine>>, Fault<Formula>>
    ensures value { IfOk result (λ r. IsRestricted plane_value_of want (λ t x. is_inside_edges edges.now x) a.now r) }
    ensures first { IsJudged (flat_map (entries_of_edges edges.now) a.now) result }
{
    let by = ToEdges { edges };
    let slices = restricted::<PlaneLine, ToEdges<'_>>(alloc, a.slices(), &by, want)?;
    Ok(normal(alloc, slices)?)
}

// The restriction to the instants at which being inside the polygon has the wanted result.
fn to_polygon(
    alloc: Global,
    a: &Moving<PlaneLine>,
    p: &Polygon,
    want: bool,
) -> Result<Option<Moving<PlaneLine>>, Fault<Formula>>
    ensures value { IfOk result (λ r. IsRestricted plane_value_of want (λ t x. inside p.now x) a.now r) }
    ensures first { IsJudged (flat_map (entries_of_polygon p.now) a.now) result }
{
    let edges = edges_of(alloc, p.rings())?;
    to_edges(alloc, a, edges.as_slice(), want)
}

/// The moving point at the instants at which it is inside the polygon or on its boundary
/// (MobilityDB's `atGeometry`). `None` exactly if no such instant exists.
///
/// The fault names the formula of the first entry that has a part that does not fit: on each slice
/// F2, the differences of the positions at its two ends to the points of the rings, then F4, their
/// turns from the edges, then F3, the roots of all of these, then F1 at these roots, whatever is
/// kept there.
pub fn at_polygon(
    alloc: Global,
    a: &Moving<PlaneLine>,
    p: &Polygon,
) -> Result<Option<Moving<PlaneLine>>, Fault<Formula>>
    ensures value { IfOk result (λ r. IsRestricted plane_value_of true (λ t x. inside p.now x) a.now r) }
    ensures first { IsJudged (flat_map (entries_of_polygon p.now) a.now) result }
{
    to_polygon(alloc, a, p, true)
}

/// The moving point at the instants at which it is outside the polygon and not on its boundary
/// (MobilityDB's `minusGeometry`). `None` exactly if no such instant exists.
///
/// The fault is that of `at_polygon`: the formulas are the same, whatever is kept.
pub fn minus_polygon(
    alloc: Global,
    a: &Moving<PlaneLine>,
    p: &Polygon,
) -> Result<Option<Moving<PlaneLine>>, Fault<Formula>>
    ensures value { IfOk result (λ r. IsRestricted plane_value_of false (λ t x. inside p.now x) a.now r) }
    ensures first { IsJudged (flat_map (entries_of_polygon p.now) a.now) result }
{
    to_polygon(alloc, a, p, false)
}

/// Whether the moving point is inside the polygon or on its boundary at some rational instant at
/// which it is defined (MobilityDB's `eIntersects`).
///
/// The fault is that of `at_polygon`: the formulas of all slices are checked, even after an instant
/// that settles the answer.
pub fn ever_inside(
    alloc: Global,
    a: &Moving<PlaneLine>,
    p: &Polygon,
) -> Result<bool, Fault<Formula>>
    ensures value { IfOk result (λ b. IsTrue b ↔ IsEverInside p.now a.now) }
    ensures first { IsJudged (flat_map (entries_of_polygon p.now) a.now) result }
{
    match at_polygon(alloc, a, p) {
        Ok(Some(left)) => {
            // The clause of `slices` says that a slice exists, and so an instant.
            let _slices = left.slices();
            Ok(true)
        }
        Ok(None) => Ok(false),
        Err(fault) => Err(fault),
    }
}
