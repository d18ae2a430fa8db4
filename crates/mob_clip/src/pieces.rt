//! The parts of a slice kept on pieces of its span, and between the changes of a walk.

ghost use Rattle.std.specs.Prelude.{◌≡◌, ◌++◌, List, true, false, MatchResult};
ghost use Rattle.mob_frac.specs.Formula.{AllFit};
ghost use Rattle.mob_span.specs.Flags.{same_bool};
ghost use Rattle.mob_slice.specs.Slices.{IsSound};
ghost use Rattle.mob_slice.specs.Cut.{slice_parts};
ghost use Rattle.mob_slice.specs.Lines.{plane_parts_of};
ghost use Rattle.mob_slice.specs.declared.slice.Slice.{Slice as SliceOf};
ghost use Rattle.mob_slice.specs.declared.line.PlaneLine.{PlaneLine as PlaneLineOf};
ghost use Rattle.mob_clip.specs.Timelines.{timeline_at, ChangesFit};
ghost use Rattle.mob_clip.specs.Pieces.{is_known_in, some_span, left_span, right_span, IsOnSlice, AreAllOrNothing, IsPushedBefore, AreKeptInPlane};

use crate::timeline::Timeline;
use mob_cells::{append, listed_if};
use mob_frac::Frac;
use mob_list::fault::Fault;
use mob_plane::{Tally, is_in};
use mob_slice::{Formula, PlaneLine, Slice, cut};
use mob_span::{Span, same_bool};
use std::alloc::Global;

/// All of a slice on a piece of its span, or nothing. The only error is a failed allocation.
pub fn piece_on(
    alloc: Global,
    slice: &Slice<PlaneLine>,
    piece: Option<Span>,
    keeps: bool,
) -> Result<Vec<Slice<PlaneLine>>, Fault<Formula>>
    requires sound { IsSound (λ c. c.from) (λ c. c.to) slice.now }
    requires holds { IsOnSlice slice.now piece }
    ensures whole { MatchResult result (λ v. AreAllOrNothing slice.now keeps piece v.items) (λ e. e ≡ Fault.NoMemory) }
{
    let span = match piece {
        Some(span) => span,
        None => return Ok(Vec::new(alloc)),
    };
    let part = cut(alloc, slice, &span)?;
    listed_if(alloc, part, keeps)
}

// The part of a span before an instant, including it if `included` is true.
fn left_of(span: &Span, r: &Frac, included: bool) -> Option<Span>
    ensures span { result ≡ some_span (left_span span.now r.now included) }
{
    if span.upper().is_before(r) {
        return Some(*span);
    }
    let upper_inc = included && (r.is_before(span.upper()) || span.upper_inc());
    Span::new(*span.lower(), *r, span.lower_inc(), upper_inc)
}

// The part of a span after an instant, including it if the part before does not.
fn right_of(span: &Span, r: &Frac, included: bool) -> Option<Span>
    ensures span { result ≡ some_span (right_span span.now r.now included) }
{
    if r.is_before(span.lower()) {
        return Some(*span);
    }
    let lower_inc = !included && (span.lower().is_before(r) || span.lower_inc());
    Span::new(*r, *span.upper(), lower_inc, span.upper_inc())
}

// Appends the part of the slice on the piece before `r`, if it is kept, and returns the rest of the
// piece.
fn push_before(
    alloc: Global,
    slice: &Slice<PlaneLine>,
    out: &mut Vec<Slice<PlaneLine>>,
    piece: Option<Span>,
    r: &Frac,
    included: bool,
    keeps: bool,
) -> Result<Option<Span>, Fault<Formula>>
    requires sound { IsSound (λ c. c.from) (λ c. c.to) slice.now }
    requires holds { IsOnSlice slice.now piece }
    requires fits { AllFit (slice_parts plane_parts_of slice.now r.now) }
    ensures pushed { MatchResult result (IsPushedBefore slice.now keeps piece r.now included out.old.items out.new.items) (λ e. e ≡ Fault.NoMemory) }
{
    let span = match piece {
        Some(span) => span,
        None => return Ok(None),
    };
    let more = piece_on(alloc, slice, left_of(&span, r, included), keeps)?;
    append(out, more)?;
    Ok(right_of(&span, r, included))
}

// Appends the part of a slice on a last piece, if it is kept.
fn finish(
    alloc: Global,
    slice: &Slice<PlaneLine>,
    out: Vec<Slice<PlaneLine>>,
    piece: Option<Span>,
    keeps: bool,
) -> Result<Vec<Slice<PlaneLine>>, Fault<Formula>>
    requires sound { IsSound (λ c. c.from) (λ c. c.to) slice.now }
    requires holds { IsOnSlice slice.now piece }
    ensures all { MatchResult result (λ all. (v : List (SliceOf PlaneLineOf)) × (all.items ≡ out.items ++ v) × AreAllOrNothing slice.now keeps piece v) (λ e. e ≡ Fault.NoMemory) }
{
    let mut all = out;
    let more = piece_on(alloc, slice, piece, keeps)?;
    append(&mut all, more)?;
    Ok(all)
}

// Whether a point with this tally is kept.
fn is_kept(want: bool, tally: &Tally) -> bool
    ensures value { result ≡ same_bool want (is_known_in tally.now) }
{
    same_bool(want, is_in(tally))
}

/// The parts of a slice on which its tally by all edges has the wanted result: with the slice's own
/// values there, and none elsewhere. The only error is a failed allocation.
pub fn kept_on(
    alloc: Global,
    slice: &Slice<PlaneLine>,
    steps: &Timeline<Tally>,
    want: bool,
) -> Result<Vec<Slice<PlaneLine>>, Fault<Formula>>
    requires sound { IsSound (λ c. c.from) (λ c. c.to) slice.now }
    requires fit { ChangesFit (slice_parts plane_parts_of slice.now) steps.now.changes.items }
    ensures kept { MatchResult result (λ v. AreKeptInPlane want (λ t p. is_known_in (timeline_at steps.now t)) slice.now slice.now.span v.items) (λ e. e ≡ Fault.NoMemory) }
{
    let mut out = Vec::new(alloc);
    let mut rest = Some(slice.span);
    let mut now = steps.first;
    let changes = steps.changes.as_slice();
    for change in changes {
        let front = is_kept(want, &now);
        let after = push_before(alloc, slice, &mut out, rest, &change.at, false, front)?;
        let there = is_kept(want, &change.there);
        rest = push_before(alloc, slice, &mut out, after, &change.at, true, there)?;
        now = change.after;
    }
    finish(alloc, slice, out, rest, is_kept(want, &now))
}
