//! The part of a moving point inside a box.

ghost use Rattle.std.specs.Prelude.{◌≡◌, true, false, ◌&&◌, Option, Some, None, MatchResult, IfOk};
ghost use Rattle.std.specs.List.{flat_map};
ghost use Rattle.mob_frac.specs.Formula.{AllFit};
ghost use Rattle.mob_span.specs.Span.{has};
ghost use Rattle.mob_span.specs.Neighbours.{is_inside};
ghost use Rattle.mob_slice.specs.Slices.{IsSound};
ghost use Rattle.mob_slice.specs.Sides.{at_ends, HasValues};
ghost use Rattle.mob_slice.specs.Cut.{slice_value, slice_parts};
ghost use Rattle.mob_slice.specs.Entries.{IsJudged};
ghost use Rattle.mob_slice.specs.Lines.{plane_value_of, plane_parts_of};
ghost use Rattle.mob_cells.specs.Restricted.{IsRestricted};
ghost use Rattle.mob_stbox.specs.Boxes.{in_box, in_space};
ghost use Rattle.mob_clip.specs.Boxes.{entries_of_space, entries_of_box, entries_in_time, AreAround, front_span, back_span};
ghost use Rattle.mob_clip.specs.Pieces.{some_span, IsKeptInPlane};

use crate::areas::in_area_on;
use crate::pieces::piece_on;
use mob_cells::{Restriction, append, listed_if, restricted};
use mob_lift::normal::normal;
use mob_list::fault::Fault;
use mob_slice::{Formula, Moving, PlaneLine, Slice, cut};
use mob_span::{Span, same_bool};
use mob_stbox::{Area, StBox};
use std::alloc::Global;

// The part of a slice on a piece of its span on which being in the space has the wanted result.
fn in_space_on(
    alloc: Global,
    slice: &Slice<PlaneLine>,
    part: Slice<PlaneLine>,
    space: &Option<Area>,
    want: bool,
) -> Result<Vec<Slice<PlaneLine>>, Fault<Formula>>
    requires holds { IsSound (λ c. c.from) (λ c. c.to) slice.now × (is_inside slice.now.span part.span ≡ true) }
    requires ends { AllFit (at_ends (slice_parts plane_parts_of slice.now) part.span) }
    requires part { HasValues plane_value_of (λ c. c.from) (λ c. c.to) (slice_value plane_value_of slice.now) part.span part }
    ensures kept { IsKeptInPlane want (λ t p. in_space space.now p) slice.now part.span (entries_of_space space.now slice.now part.span) result }
{
    match space {
        Some(area) => in_area_on(alloc, slice, &part, area, want),
        None => listed_if(alloc, part, want),
    }
}

// The part of a span before a piece of it.
fn front(span: &Span, part: &Span) -> Option<Span>
    ensures span { result ≡ some_span (front_span span.now part.now) }
{
    Span::new(
        *span.lower(),
        *part.lower(),
        span.lower_inc(),
        !part.lower_inc(),
    )
}

// The part of a span after a piece of it.
fn back(span: &Span, part: &Span) -> Option<Span>
    ensures span { result ≡ some_span (back_span span.now part.now) }
{
    Span::new(
        *part.upper(),
        *span.upper(),
        !part.upper_inc(),
        span.upper_inc(),
    )
}

// The kept parts of a slice: the given slices on a piece of it, and the parts around that piece,
// which lie outside the time.
fn around(
    alloc: Global,
    slice: &Slice<PlaneLine>,
    part: &Span,
    middle: Vec<Slice<PlaneLine>>,
    want: bool,
) -> Result<Vec<Slice<PlaneLine>>, Fault<Formula>>
    requires holds { IsSound (λ c. c.from) (λ c. c.to) slice.now × (is_inside slice.now.span part.now ≡ true) }
    requires ends { AllFit (at_ends (slice_parts plane_parts_of slice.now) part.now) }
    ensures around { MatchResult result (λ v. AreAround slice.now want part.now middle.items v.items) (λ e. e ≡ Fault.NoMemory) }
{
    // A method call gives the proof the invariant of a span.
    let _ = part.lower();
    let outside = same_bool(want, false);
    let mut out = piece_on(alloc, slice, front(&slice.span, part), outside)?;
    let more = piece_on(alloc, slice, back(&slice.span, part), outside)?;
    append(&mut out, middle)?;
    append(&mut out, more)?;
    Ok(out)
}

// The kept parts of a slice, by a span of time and the space.
fn in_time_on(
    alloc: Global,
    slice: &Slice<PlaneLine>,
    time: &Span,
    space: &Option<Area>,
    want: bool,
) -> Result<Vec<Slice<PlaneLine>>, Fault<Formula>>
    requires sound { IsSound (λ c. c.from) (λ c. c.to) slice.now }
    ensures kept { IsKeptInPlane want (λ t p. in_space space.now p && has time.now t) slice.now slice.now.span (entries_in_time (Some time.now) space.now slice.now) result }
{
    let shared = match slice.span.meet(time) {
        Some(shared) => shared,
        None => return piece_on(alloc, slice, Some(slice.span), same_bool(want, false)),
    };
    let part = cut(alloc, slice, &shared)?;
    let middle = in_space_on(alloc, slice, part, space, want)?;
    around(alloc, slice, &shared, middle, want)
}

// Copies the slice. It does not allocate.
fn whole(slice: &Slice<PlaneLine>) -> Slice<PlaneLine>
    requires sound { IsSound (λ c. c.from) (λ c. c.to) slice.now }
    ensures whole { HasValues plane_value_of (λ c. c.from) (λ c. c.to) (slice_value plane_value_of slice.now) slice.now.span result }
{
    Slice {
        span: slice.span,
        course: slice.course,
    }
}

// The rectangle of a box, if it has space.
fn space_of(b: &StBox) -> Option<Area>
    ensures space { result ≡ b.now.space }
{
    match b.space() {
        Some(area) => Some(*area),
        None => None,
    }
}

// The condition that a position and its instant are in a box.
#[derive(Drop)]
struct ToBox<'a> {
    to: &'a StBox,
}

impl<'a> Restriction<PlaneLine> for ToBox<'a> {
    ghost meets = { λ by. in_box by.to.now };

    ghost entries = { λ by. entries_of_box by.to.now };

    fn on_slice(
        &self,
        alloc: Global,
        slice: &Slice<PlaneLine>,
        want: bool,
    ) -> Result<Vec<Slice<PlaneLine>>, Fault<Formula>> {
        let space = space_of(self.to);
        match self.to.time() {
            Some(time) => in_time_on(alloc, slice, time, &space, want),
            None => in_space_on(alloc, slice, whole(slice), &space, want),
        }
    }
}

// The restriction to the instants at which being in the box has the wanted result.
fn to_box(
    alloc: Global,
    a: &Moving<PlaneLine>,
    b: &StBox,
    want: bool,
) -> Result<Option<Moving<PlaneLine>>, Fault<Formula>>
    ensures value { IfOk result (λ r. IsRestricted plane_value_of want (in_box b.now) a.now r) }
    ensures first { IsJudged (flat_map (entries_of_box b.now) a.now) result }
{
    let slices = restricted::<PlaneLine, ToBox<'_>>(alloc, a.slices(), &ToBox { to: b }, want)?;
    Ok(normal(alloc, slices)?)
}

/// The moving point at the instants at which it is in the box. `None` exactly if no such instant
/// exists.
///
/// The fault names the formula of the first entry that has a part that does not fit: on each slice
/// that shares an instant with the time of the box, F1 at the ends of their intersection, then F2,
/// the differences to the sides there, then F3, their roots, then F1 at these roots.
pub fn at_box(
    alloc: Global,
    a: &Moving<PlaneLine>,
    b: &StBox,
) -> Result<Option<Moving<PlaneLine>>, Fault<Formula>>
    ensures value { IfOk result (λ r. IsRestricted plane_value_of true (in_box b.now) a.now r) }
    ensures first { IsJudged (flat_map (entries_of_box b.now) a.now) result }
{
    to_box(alloc, a, b, true)
}

/// The moving point at the instants at which it is not in the box. `None` exactly if no such
/// instant exists.
///
/// The fault is that of `at_box`: the formulas are the same, whatever is kept.
pub fn minus_box(
    alloc: Global,
    a: &Moving<PlaneLine>,
    b: &StBox,
) -> Result<Option<Moving<PlaneLine>>, Fault<Formula>>
    ensures value { IfOk result (λ r. IsRestricted plane_value_of false (in_box b.now) a.now r) }
    ensures first { IsJudged (flat_map (entries_of_box b.now) a.now) result }
{
    to_box(alloc, a, b, false)
}
