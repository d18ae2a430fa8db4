//! The roots of the functions of edges on a slice.

ghost use Rattle.std.specs.Prelude.{◌≡◌, [], ◌∷◌, ◌++◌, map, None, Some, IfOk, OnOk, MatchResult};
ghost use Rattle.std.specs.List.{AllByRecursion, flat_map};
ghost use Rattle.mob_frac.specs.Formula.{AllFit};
ghost use Rattle.mob_slice.specs.Slices.{IsSound};
ghost use Rattle.mob_slice.specs.Computed.{IsComputed};
ghost use Rattle.mob_slice.specs.Cut.{slice_parts};
ghost use Rattle.mob_slice.specs.Lines.{plane_parts_of};
ghost use Rattle.mob_list.specs.Faults.{OnCause};
ghost use Rattle.mob_slice.specs.Entries.{IsFirst, IsPartFault, IsMadeBy};
ghost use Rattle.mob_slice.specs.declared.formula.Formula.TheVariants.{F1, F3};
ghost use Rattle.mob_cells.specs.Roots.{IsLevel, root_parts, roots_parts, as_list};
ghost use Rattle.mob_clip.specs.Roots.{place, place_edge, listed_ends, edge_roots, IsBetweenEnds, IsPlacedEdge, parts_at_roots, ArePlacedOn};
ghost use Rattle.mob_clip.specs.Polygons.{entries_of_edges};

use crate::sides::{EdgeEnds, besides, turned};
use mob_cells::{Ends, Placed, root};
use mob_frac::Frac;
use mob_list::fault::Fault;
use mob_plane::Point;
use mob_slice::{Formula, PlaneLine, Slice, limit};
use mob_span::Span;
use std::alloc::{AllocError, Global};

/// The linear functions of an edge, each with its root.
#[derive(Clone, Copy, Drop)]
pub struct EdgePlaced {
    /// The turn.
    pub turn: Placed,
    /// The difference in x to the first end.
    pub x_a: Placed,
    /// The difference in x to the second end.
    pub x_b: Placed,
    /// The difference in y to the first end.
    pub y_a: Placed,
    /// The difference in y to the second end.
    pub y_b: Placed,
}

// A function with its root.
fn place(span: &Span, f: &Ends) -> Result<Placed, Formula>
    requires level { IsLevel span.now f.now }
    ensures value { IsComputed F3 (root_parts span.now f.now) (place span.now f.now) result }
{
    let root = root(span, f)?;
    Ok(Placed { ends: *f, root })
}

// The functions of an edge with their roots.
fn place_edge(span: &Span, edge: &EdgeEnds) -> Result<EdgePlaced, Formula>
    requires level { AllByRecursion (IsLevel span.now) (listed_ends edge.now) }
    ensures value { IsComputed F3 (roots_parts span.now (listed_ends edge.now)) (place_edge span.now edge.now) result }
{
    let turn = place(span, &edge.turn)?;
    let x_a = place(span, &edge.x_a)?;
    let x_b = place(span, &edge.x_b)?;
    let y_a = place(span, &edge.y_a)?;
    let y_b = place(span, &edge.y_b)?;
    Ok(EdgePlaced {
        turn,
        x_a,
        x_b,
        y_a,
        y_b,
    })
}

// Appends the functions of an edge with their roots.
fn push_placed(
    out: &mut Vec<EdgePlaced>,
    span: &Span,
    edge: &EdgeEnds,
) -> Result<(), Fault<Formula>>
    requires level { AllByRecursion (IsLevel span.now) (listed_ends edge.now) }
    ensures pushed { IsMadeBy F3 (roots_parts span.now (listed_ends edge.now)) (λ _. out.new.items ≡ out.old.items ++ place_edge span.now edge.now ∷ []) result }
{
    // This names the types of the appended item for the proof.
    let _types: (Option<Placed>, Frac) = (None, edge.turn.at_lower);
    let next = match place_edge(span, edge) {
        Ok(next) => next,
        Err(passed) => {
            return Err(Fault::Because(passed));
        }
    };
    out.push(next)?;
    Ok(())
}

// The functions of all edges with their roots.
fn placed(alloc: Global, span: &Span, edges: &[EdgeEnds]) -> Result<Vec<EdgePlaced>, Fault<Formula>>
    requires level { AllByRecursion (λ g. AllByRecursion (IsLevel span.now) (listed_ends g)) edges.now }
    ensures made { IsMadeBy F3 (flat_map (λ g. roots_parts span.now (listed_ends g)) edges.now) (λ v. v.items ≡ map (place_edge span.now) edges.now) result }
{
    // A method call gives the proof the invariant of a span.
    let _lower = span.lower();
    let mut out = Vec::new(alloc);
    for edge in edges {
        push_placed(&mut out, span, edge)?;
    }
    Ok(out)
}

// Appends a root, if it exists.
fn push_root(out: &mut Vec<Frac>, root: &Option<Frac>) -> Result<(), AllocError>
    ensures pushed { OnOk result (out.new.items ≡ out.old.items ++ as_list root.now) }
{
    if let Some(r) = root {
        out.push(*r)?;
    }
    Ok(())
}

// Appends the roots of an edge.
fn push_roots(out: &mut Vec<Frac>, edge: &EdgePlaced) -> Result<(), AllocError>
    ensures pushed { OnOk result (out.new.items ≡ out.old.items ++ edge_roots edge.now) }
{
    push_root(out, &edge.turn.root)?;
    push_root(out, &edge.x_a.root)?;
    push_root(out, &edge.x_b.root)?;
    push_root(out, &edge.y_a.root)?;
    push_root(out, &edge.y_b.root)
}

// The roots of all edges.
fn roots_of(alloc: Global, edges: &[EdgePlaced]) -> Result<Vec<Frac>, AllocError>
    ensures roots { IfOk result (λ v. v.items ≡ flat_map edge_roots edges.now) }
{
    let mut out = Vec::new(alloc);
    for edge in edges {
        push_roots(&mut out, edge)?;
    }
    Ok(out)
}

// Whether the position at an instant fits.
fn fits_at(alloc: Global, slice: &Slice<PlaneLine>, r: &Frac) -> Result<(), Fault<Formula>>
    requires within { IsBetweenEnds slice.now.span r.now }
    ensures fits { MatchResult result (λ _. AllFit (slice_parts plane_parts_of slice.now r.now)) (IsPartFault F1 (slice_parts plane_parts_of slice.now r.now)) }
{
    match limit::<PlaneLine>(alloc, slice, r) {
        Ok(_) => Ok(()),
        Err(Fault::Because(formula)) => Err(Fault::Because(formula)),
        Err(Fault::NoMemory) => Err(Fault::NoMemory),
    }
}

// Whether the positions at all roots fit.
fn all_fit(alloc: Global, slice: &Slice<PlaneLine>, roots: &[Frac]) -> Result<(), Fault<Formula>>
    requires within { AllByRecursion (IsBetweenEnds slice.now.span) roots.now }
    ensures fits { MatchResult result (λ _. AllFit (flat_map (slice_parts plane_parts_of slice.now) roots.now)) (IsPartFault F1 (flat_map (slice_parts plane_parts_of slice.now) roots.now)) }
{
    for r in roots {
        fits_at(alloc, slice, r)?;
    }
    Ok(())
}

// Whether the positions at the roots of all edges fit.
fn roots_fit(
    alloc: Global,
    slice: &Slice<PlaneLine>,
    edges: &[EdgePlaced],
) -> Result<(), Fault<Formula>>
    requires placed { AllByRecursion (IsPlacedEdge slice.now.span) edges.now }
    ensures fits { MatchResult result (λ _. AllFit (parts_at_roots slice.now edges.now)) (IsPartFault F1 (parts_at_roots slice.now edges.now)) }
{
    let roots = roots_of(alloc, edges)?;
    all_fit(alloc, slice, roots.as_slice())
}

/// The functions of all edges with their roots on a slice, if every entry of a restriction by these
/// edges fits. The fault names the formula of the first entry that does not fit.
pub fn placed_on(
    alloc: Global,
    slice: &Slice<PlaneLine>,
    edges: &[(Point, Point)],
) -> Result<Vec<EdgePlaced>, Fault<Formula>>
    requires sound { IsSound (λ c. c.from) (λ c. c.to) slice.now }
    ensures placed { MatchResult result (λ v. ArePlacedOn slice.now edges.now v.items) (OnCause (λ g. IsFirst (entries_of_edges edges.now slice.now) (Some g))) }
{
    let p = &slice.course.from;
    let q = &slice.course.to;
    let besides = besides(alloc, edges, p, q)?;
    let turned = turned(alloc, besides.as_slice(), p, q)?;
    let placed = placed(alloc, &slice.span, turned.as_slice())?;
    roots_fit(alloc, slice, placed.as_slice())?;
    Ok(placed)
}
