//! Whether a moving point is inside a polygon, edge by edge.

ghost use Rattle.std.specs.Prelude.{◌≡◌, true, [], None, Some, map, List, IfOk};
ghost use Rattle.std.specs.List.{AllByRecursion};
ghost use Rattle.mob_ratio.specs.Ratio.{Ratio};
ghost use Rattle.mob_ratio.specs.Sign.{sign_of};
ghost use Rattle.mob_frac.specs.Formula.{AllFit};
ghost use Rattle.mob_span.specs.Span.{has};
ghost use Rattle.mob_cells.specs.Roots.{function_at};
ghost use Rattle.mob_cells.specs.Cells.{IsPlaced};
ghost use Rattle.mob_clip.specs.Roots.{IsPlacedEdge, FitsRoot, CutsFit};
ghost use Rattle.mob_clip.specs.Timelines.{timeline_at, ChangesFit, WhereEndsFit};
ghost use Rattle.mob_clip.specs.Signs.{changing_sign, known_sign, known_signs, one_known, ends_change, tally_both, tally_all, edge_tally, tally_change, signs_on, signs_beside, FitsChange, known_at};

use crate::roots::EdgePlaced;
use crate::timeline::{Change, Mix, Timeline, merged};
use mob_cells::{Placed, sign_of};
use mob_frac::Frac;
use mob_plane::{EdgeSigns, Tally, with_edge};
use mob_span::Span;
use std::alloc::{AllocError, Global};
use std::cmp::Ordering;

/// The sign of a linear function on a span: before and after the only instant at which it is 0, or
/// one sign if no such instant exists.
#[derive(Clone, Copy, Drop)]
pub struct SignChange {
    /// The sign before it.
    pub first: Ordering,
    /// The instant.
    pub at: Option<Frac>,
    /// The sign after it.
    pub after: Ordering,
}

/// One of the signs of an edge.
#[derive(Clone, Copy, PartialEq, Eq)]
pub enum EdgeSign {
    /// The sign of the turn.
    Turn,
    /// The sign of the difference in x to the first end.
    XA,
    /// The sign of the difference in x to the second end.
    XB,
    /// The sign of the difference in y to the first end.
    YA,
    /// The sign of the difference in y to the second end.
    YB,
}

impl Mix for EdgeSigns {
    ghost mix = { known_signs };

    fn mix(&self, other: &EdgeSigns) -> EdgeSigns {
        EdgeSigns {
            turn: known_sign(self.turn, other.turn),
            x_a: known_sign(self.x_a, other.x_a),
            x_b: known_sign(self.x_b, other.x_b),
            y_a: known_sign(self.y_a, other.y_a),
            y_b: known_sign(self.y_b, other.y_b),
        }
    }
}

impl Mix for Tally {
    ghost mix = { tally_both };

    fn mix(&self, other: &Tally) -> Tally {
        Tally {
            on: self.on || other.on,
            odd: self.odd != other.odd,
        }
    }
}

// One of two signs, at least one of which is Equal.
fn known_sign(a: Ordering, b: Ordering) -> Ordering
    ensures value { result ≡ known_sign a b }
{
    match a {
        Ordering::Less => Ordering::Less,
        Ordering::Equal => b,
        Ordering::Greater => Ordering::Greater,
    }
}

// The sign of a function that has no root strictly inside the span and has these signs at its ends.
fn without_root(span: &Span, lower: Ordering, upper: Ordering) -> SignChange
    ensures change { result ≡ ends_change span.now lower upper }
{
    if lower.is_ne() {
        if upper.is_ne() {
            return SignChange {
                first: lower,
                at: None,
                after: lower,
            };
        }
        return SignChange {
            first: lower,
            at: Some(*span.upper()),
            after: lower,
        };
    }
    if upper.is_ne() {
        return SignChange {
            first: upper,
            at: Some(*span.lower()),
            after: upper,
        };
    }
    SignChange {
        first: Ordering::Equal,
        at: None,
        after: Ordering::Equal,
    }
}

// The sign of a function on a span.
fn change_of(span: &Span, placed: &Placed) -> SignChange
    requires placed { IsPlaced span.now placed.now }
    ensures signs { (t : Ratio) → has span.now t ≡ true → changing_sign result t ≡ sign_of (function_at span.now placed.now.ends t) }
    ensures fits { (parts : Ratio → List Ratio) → AllFit (parts span.now.lower) → AllFit (parts span.now.upper) → FitsRoot parts placed.now → FitsChange parts result }
{
    let lower = sign_of(&placed.ends.at_lower);
    let upper = sign_of(&placed.ends.at_upper);
    match placed.root {
        Some(r) => SignChange {
            first: lower,
            at: Some(r),
            after: upper,
        },
        None => without_root(span, lower, upper),
    }
}

// The signs of an edge, one of which is known.
fn one_known(which: EdgeSign, sign: Ordering) -> EdgeSigns
    ensures value { result ≡ one_known which sign }
{
    let none = EdgeSigns {
        turn: Ordering::Equal,
        x_a: Ordering::Equal,
        x_b: Ordering::Equal,
        y_a: Ordering::Equal,
        y_b: Ordering::Equal,
    };
    match which {
        EdgeSign::Turn => EdgeSigns { turn: sign, ..none },
        EdgeSign::XA => EdgeSigns { x_a: sign, ..none },
        EdgeSign::XB => EdgeSigns { x_b: sign, ..none },
        EdgeSign::YA => EdgeSigns { y_a: sign, ..none },
        EdgeSign::YB => EdgeSigns { y_b: sign, ..none },
    }
}

// The sign of one function as a timeline.
fn one_sign(
    alloc: Global,
    change: &SignChange,
    which: EdgeSign,
) -> Result<Timeline<EdgeSigns>, AllocError>
    ensures values { IfOk result (λ s. (t : Ratio) → timeline_at s t ≡ one_known which (changing_sign change.now t)) }
    ensures fit { IfOk result (λ s. (parts : Ratio → List Ratio) → FitsChange parts change.now → ChangesFit parts s.changes.items) }
{
    let mut changes = Vec::new(alloc);
    if let Some(at) = change.at {
        changes.push(Change {
            at,
            there: one_known(which, Ordering::Equal),
            after: one_known(which, change.after),
        })?;
    }
    Ok(Timeline {
        first: one_known(which, change.first),
        changes,
    })
}

// The signs of two functions.
fn two_signs(
    alloc: Global,
    span: &Span,
    a: &Placed,
    first: EdgeSign,
    b: &Placed,
    second: EdgeSign,
) -> Result<Timeline<EdgeSigns>, AllocError>
    requires placed_a { IsPlaced span.now a.now }
    requires placed_b { IsPlaced span.now b.now }
    ensures values { IfOk result (λ s. (t : Ratio) → has span.now t ≡ true → timeline_at s t ≡ known_signs (known_at span.now first a.now.ends t) (known_at span.now second b.now.ends t)) }
    ensures fit { IfOk result (λ s. WhereEndsFit span.now (λ parts. FitsRoot parts a.now → FitsRoot parts b.now → ChangesFit parts s.changes.items)) }
{
    let left = one_sign(alloc, &change_of(span, a), first)?;
    let right = one_sign(alloc, &change_of(span, b), second)?;
    merged(alloc, &left, &right)
}

// The signs of the differences to both ends of an edge.
fn end_signs(
    alloc: Global,
    span: &Span,
    edge: &EdgePlaced,
) -> Result<Timeline<EdgeSigns>, AllocError>
    requires placed { IsPlacedEdge span.now edge.now }
    ensures values { IfOk result (λ s. (t : Ratio) → has span.now t ≡ true → timeline_at s t ≡ signs_beside span.now t edge.now) }
    ensures fit { IfOk result (λ s. WhereEndsFit span.now (λ parts. CutsFit parts edge.now → ChangesFit parts s.changes.items)) }
{
    let xs = two_signs(
        alloc,
        span,
        &edge.x_a,
        EdgeSign::XA,
        &edge.x_b,
        EdgeSign::XB,
    )?;
    let ys = two_signs(
        alloc,
        span,
        &edge.y_a,
        EdgeSign::YA,
        &edge.y_b,
        EdgeSign::YB,
    )?;
    merged(alloc, &xs, &ys)
}

// The signs of an edge.
fn edge_signs(
    alloc: Global,
    span: &Span,
    edge: &EdgePlaced,
) -> Result<Timeline<EdgeSigns>, AllocError>
    requires placed { IsPlacedEdge span.now edge.now }
    ensures values { IfOk result (λ s. (t : Ratio) → has span.now t ≡ true → timeline_at s t ≡ signs_on span.now t edge.now) }
    ensures fit { IfOk result (λ s. WhereEndsFit span.now (λ parts. CutsFit parts edge.now → ChangesFit parts s.changes.items)) }
{
    let turn = one_sign(alloc, &change_of(span, &edge.turn), EdgeSign::Turn)?;
    let ends = end_signs(alloc, span, edge)?;
    merged(alloc, &turn, &ends)
}

// The tally of a point by one edge.
fn edge_tally(signs: &EdgeSigns) -> Tally
    ensures value { result ≡ edge_tally signs.now }
{
    with_edge(
        Tally {
            on: false,
            odd: false,
        },
        signs,
    )
}

// The tally of a point by one edge, at each change of the edge's signs.
fn tallied(alloc: Global, signs: &Timeline<EdgeSigns>) -> Result<Timeline<Tally>, AllocError>
    ensures tallied { IfOk result (λ s. (s.first ≡ edge_tally signs.now.first) × (s.changes.items ≡ map tally_change signs.now.changes.items)) }
{
    let mut changes = Vec::new(alloc);
    let all = signs.changes.as_slice();
    for change in all {
        changes.push(Change {
            at: change.at,
            there: edge_tally(&change.there),
            after: edge_tally(&change.after),
        })?;
    }
    Ok(Timeline {
        first: edge_tally(&signs.first),
        changes,
    })
}

// The tally of a point by one edge, on a span.
fn edge_steps(alloc: Global, span: &Span, edge: &EdgePlaced) -> Result<Timeline<Tally>, AllocError>
    requires placed { IsPlacedEdge span.now edge.now }
    ensures values { IfOk result (λ s. (t : Ratio) → has span.now t ≡ true → timeline_at s t ≡ edge_tally (signs_on span.now t edge.now)) }
    ensures fit { IfOk result (λ s. WhereEndsFit span.now (λ parts. CutsFit parts edge.now → ChangesFit parts s.changes.items)) }
{
    let signs = edge_signs(alloc, span, edge)?;
    tallied(alloc, &signs)
}

// The tally of a point by each edge.
fn each_edge(
    alloc: Global,
    span: &Span,
    edges: &[EdgePlaced],
) -> Result<Vec<Timeline<Tally>>, AllocError>
    requires placed { AllByRecursion (IsPlacedEdge span.now) edges.now }
    ensures values { IfOk result (λ v. (t : Ratio) → has span.now t ≡ true → map (λ s. timeline_at s t) v.items ≡ map (λ g. edge_tally (signs_on span.now t g)) edges.now) }
    ensures fit { IfOk result (λ v. WhereEndsFit span.now (λ parts. AllByRecursion (CutsFit parts) edges.now → AllByRecursion (λ s. ChangesFit parts s.changes.items) v.items)) }
{
    // A method call gives the proof the invariant of a span.
    let _lower = span.lower();
    let mut out = Vec::new(alloc);
    for edge in edges {
        let next = edge_steps(alloc, span, edge)?;
        out.push(next)?;
    }
    Ok(out)
}

// The tally of no edges.
fn nothing(alloc: Global) -> Timeline<Tally>
    ensures nothing { (result.first ≡ tally_all []) × (result.changes.items ≡ []) }
{
    Timeline {
        first: Tally {
            on: false,
            odd: false,
        },
        changes: Vec::new(alloc),
    }
}

// The tally of a point by all edges. Halves are merged recursively, so each change is visited once
// for each level of halves above it.
fn together(alloc: Global, edges: &[Timeline<Tally>]) -> Result<Timeline<Tally>, AllocError>
    ensures values { IfOk result (λ s. (t : Ratio) → timeline_at s t ≡ tally_all (map (λ e. timeline_at e t) edges.now)) }
    ensures fit { IfOk result (λ s. (parts : Ratio → List Ratio) → AllByRecursion (λ e. ChangesFit parts e.changes.items) edges.now → ChangesFit parts s.changes.items) }
{
    match edges {
        [] => Ok(nothing(alloc)),
        [edge] => merged(alloc, edge, &nothing(alloc)),
        _ => {
            let (front, back) = edges.split_at(edges.len() / 2);
            let left = together(alloc, front)?;
            let right = together(alloc, back)?;
            merged(alloc, &left, &right)
        }
    }
}

/// The tally of a moving point on a span by all edges: whether it lies on one, and whether the
/// number of edges that cross its height to the right of it is odd. Changes are at roots of the
/// functions of the edges, or at ends of the span. The only error is a failed allocation.
pub fn membership(
    alloc: Global,
    span: &Span,
    edges: &[EdgePlaced],
) -> Result<Timeline<Tally>, AllocError>
    requires placed { AllByRecursion (IsPlacedEdge span.now) edges.now }
    ensures values { IfOk result (λ s. (t : Ratio) → has span.now t ≡ true → timeline_at s t ≡ tally_all (map (λ g. edge_tally (signs_on span.now t g)) edges.now)) }
    ensures fit { IfOk result (λ s. WhereEndsFit span.now (λ parts. AllByRecursion (CutsFit parts) edges.now → ChangesFit parts s.changes.items)) }
{
    let each = each_edge(alloc, span, edges)?;
    together(alloc, each.as_slice())
}
