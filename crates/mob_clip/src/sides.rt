//! The linear functions whose signs give the position of a point on a segment relative to edges.

ghost use Rattle.mob_slice.specs.Entries.{IsMadeBy};
ghost use Rattle.std.specs.Prelude.{◌≡◌, map};
ghost use Rattle.std.specs.List.{AllByRecursion, flat_map};
ghost use Rattle.mob_frac.specs.Formula.{IsFormula};
ghost use Rattle.mob_clip.specs.Sides.{point_parts, to_point, beside_parts, beside, turning_parts, turning, turned_by, turned_parts, with_turn, IsBeside};
ghost use Rattle.mob_clip.specs.Known.{IsKnown};
ghost use Rattle.mob_slice.specs.declared.formula.Formula.TheVariants.{F2, F4};

use mob_cells::Ends;
use mob_frac::{Frac, Overflow};
use mob_list::fault::Fault;
use mob_plane::Point;
use mob_slice::Formula;
use std::alloc::Global;

/// The differences of a point moving along a segment to another point, by coordinate.
#[derive(Clone, Copy, Drop)]
pub struct ToPoint {
    /// The difference to the east.
    pub x: Ends,
    /// The difference to the north.
    pub y: Ends,
}

/// An edge with the differences to its two ends.
#[derive(Clone, Copy, Drop)]
pub struct BesideEdge {
    /// The edge.
    pub edge: (Point, Point),
    /// The differences to its first end.
    pub to_a: ToPoint,
    /// The differences to its second end.
    pub to_b: ToPoint,
}

/// The linear functions of an edge.
#[derive(Clone, Copy, Drop)]
pub struct EdgeEnds {
    /// The turn.
    pub turn: Ends,
    /// The difference in x to the first end.
    pub x_a: Ends,
    /// The difference in x to the second end.
    pub x_b: Ends,
    /// The difference in y to the first end.
    pub y_a: Ends,
    /// The difference in y to the second end.
    pub y_b: Ends,
}

// The differences to the point `v` along the segment from `p` to `q`.
fn to_point(p: &Point, q: &Point, v: &Point) -> Result<ToPoint, Overflow>
    ensures value { IsFormula (point_parts p.now q.now v.now) (to_point p.now q.now v.now) result }
{
    let x0 = p.x.sub(&v.x)?;
    let x1 = q.x.sub(&v.x)?;
    let y0 = p.y.sub(&v.y)?;
    let y1 = q.y.sub(&v.y)?;
    Ok(ToPoint {
        x: Ends {
            at_lower: x0,
            at_upper: x1,
        },
        y: Ends {
            at_lower: y0,
            at_upper: y1,
        },
    })
}

// The cross product of two vectors.
fn turned_by(along: &Frac, rise: &Frac, across: &Frac, up: &Frac) -> Result<Frac, Overflow>
    ensures value { IsFormula (turned_parts along.now rise.now across.now up.now) (turned_by along.now rise.now across.now up.now) result }
{
    let left = along.mul(up)?;
    let right = rise.mul(across)?;
    left.sub(&right)
}

// The turns of `p` and of `q` from an edge, by their differences to its first end.
fn turning(p: &Point, q: &Point, beside: &BesideEdge) -> Result<Ends, Overflow>
    requires known { IsBeside p.now q.now beside.now }
    ensures value { IsFormula (turning_parts p.now q.now beside.now.edge) (turning p.now q.now beside.now.edge) result }
{
    let along = beside.edge.1.x.sub(&beside.edge.0.x)?;
    let rise = beside.edge.1.y.sub(&beside.edge.0.y)?;
    let to = &beside.to_a;
    let at_lower = turned_by(&along, &rise, &to.x.at_lower, &to.y.at_lower)?;
    let at_upper = turned_by(&along, &rise, &to.x.at_upper, &to.y.at_upper)?;
    Ok(Ends { at_lower, at_upper })
}

// A point with the differences to it.
#[derive(Clone, Copy, Drop)]
struct Known {
    point: Point,
    to: ToPoint,
}

// The differences to a point, which are known if it is the end of the edge before.
fn to_start(p: &Point, q: &Point, v: &Point, known: &Option<Known>) -> Result<ToPoint, Overflow>
    requires known { IsKnown p.now q.now known.now }
    ensures value { IsFormula (point_parts p.now q.now v.now) (to_point p.now q.now v.now) result }
{
    match known {
        Some(last) => {
            if last.point.is_same(v) {
                return Ok(last.to);
            }
            to_point(p, q, v)
        }
        None => to_point(p, q, v),
    }
}

// An edge with the differences to its ends.
fn with_differences(
    p: &Point,
    q: &Point,
    edge: &(Point, Point),
    known: &Option<Known>,
) -> Result<BesideEdge, Overflow>
    requires known { IsKnown p.now q.now known.now }
    ensures value { IsFormula (beside_parts p.now q.now edge.now) (beside p.now q.now edge.now) result }
{
    let to_a = to_start(p, q, &edge.0, known)?;
    let to_b = to_point(p, q, &edge.1)?;
    Ok(BesideEdge {
        edge: *edge,
        to_a,
        to_b,
    })
}

/// The edges with the differences to their ends, along the segment from `p` to `q`. If an edge
/// begins at the end of the one before, it reuses the differences to it. The fault is F2, exactly
/// if a difference does not fit, or out of memory.
pub fn besides(
    alloc: Global,
    edges: &[(Point, Point)],
    p: &Point,
    q: &Point,
) -> Result<Vec<BesideEdge>, Fault<Formula>>
    ensures made { IsMadeBy F2 (flat_map (beside_parts p.now q.now) edges.now) (λ v. v.items ≡ map (beside p.now q.now) edges.now) result }
{
    let mut out = Vec::new(alloc);
    let mut known = None;
    for edge in edges {
        let next = match with_differences(p, q, edge, &known) {
            Ok(next) => next,
            Err(_) => {
                return Err(Fault::Because(Formula::F2));
            }
        };
        known = Some(Known {
            point: edge.1,
            to: next.to_b,
        });
        out.push(next)?;
    }
    Ok(out)
}

/// The functions of each edge, along the segment from `p` to `q`. The fault is F4, exactly if a
/// part of a turn does not fit, or out of memory.
pub fn turned(
    alloc: Global,
    edges: &[BesideEdge],
    p: &Point,
    q: &Point,
) -> Result<Vec<EdgeEnds>, Fault<Formula>>
    requires known { AllByRecursion (IsBeside p.now q.now) edges.now }
    ensures made { IsMadeBy F4 (flat_map (λ b. turning_parts p.now q.now b.edge) edges.now) (λ v. v.items ≡ map (with_turn p.now q.now) edges.now) result }
{
    let mut out = Vec::new(alloc);
    for beside in edges {
        let turn = match turning(p, q, beside) {
            Ok(turn) => turn,
            Err(_) => {
                return Err(Fault::Because(Formula::F4));
            }
        };
        let next = EdgeEnds {
            turn,
            x_a: beside.to_a.x,
            x_b: beside.to_b.x,
            y_a: beside.to_a.y,
            y_b: beside.to_b.y,
        };
        out.push(next)?;
    }
    Ok(out)
}
