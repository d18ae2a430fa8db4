//! Restriction to the instants of a set, or to all others.
ghost use Rattle.std.specs.Prelude.{true, false, IfOk};
ghost use Rattle.std.specs.List.{flat_map};
ghost use Rattle.mob_span.specs.Meets.{shared_pieces};
ghost use Rattle.mob_span.specs.Pieces.{PiecesAreClear};
ghost use Rattle.mob_span.specs.Sets.{in_some};
ghost use Rattle.mob_span.specs.Walk.{met_of};
ghost use Rattle.mob_slice.specs.Parts.{HoldsMet};
ghost use Rattle.mob_slice.specs.Cut.{slice_value};
ghost use Rattle.mob_slice.specs.Entries.{IsJudged};
ghost use Rattle.mob_lift.specs.Given.{IsGiven};
ghost use Rattle.mob_cells.specs.Restricted.{IsRestricted, AreRestricted};
ghost use Rattle.mob_restrict.specs.Cuts.{entry_of_cut};

use mob_lift::normal::normal;
use mob_lift::{lift, listed};
use mob_list::fault::Fault;
use mob_slice::{Course, Formula, Moving, Slice, cut};
use mob_span::{Met, SharedPieces, Span, SpanSet, remainders, whole};
use std::alloc::Global;

// A slice at the instants that it shares with a span.
fn on_met<C: Course + Drop>(
    alloc: Global,
    met: &Met<'_, Slice<C>, Span>,
) -> Result<Vec<Slice<C>>, Fault<Formula>>
where
    C::Base: Drop,
    requires holds { HoldsMet C.start_of C.end_of (met_of met.now) }
    ensures given { IsGiven C.value_of C.start_of C.end_of (λ v. v.items) (slice_value C.value_of met.now.left.now) met.now.span (entry_of_cut C.parts_of (met_of met.now)) result }
{
    let slice = cut(alloc, met.left, &met.span)?;
    listed(alloc, slice)
}

// The slices of a temporal value at the instants of spans that are in order.
fn within<C: Course + Drop>(
    alloc: Global,
    a: &Moving<C>,
    spans: &[Span],
) -> Result<Vec<Slice<C>>, Fault<Formula>>
where
    C::Base: Drop,
    requires order { PiecesAreClear (λ r. r) spans.now }
    ensures slices { IfOk result (λ all. AreRestricted C.value_of C.start_of C.end_of true (λ t x. in_some spans.now t) a.now all.items) }
    ensures first { IsJudged (flat_map (entry_of_cut C.parts_of) (shared_pieces (λ s. s.span) (λ r. r) a.now spans.now)) result }
{
    lift(
        alloc,
        SharedPieces::new(a.slices(), spans),
        |met: &Met<'_, Slice<C>, Span>| -> Result<Vec<Slice<C>>, Fault<Formula>>
            requires holds { HoldsMet C.start_of C.end_of (met_of met.now) }
            ensures given { IsGiven C.value_of C.start_of C.end_of (λ v. v.items) (slice_value C.value_of met.now.left.now) met.now.span (entry_of_cut C.parts_of (met_of met.now)) result }
        { on_met::<C>(alloc, met) },
    )
}

// Its slices at the instants of a set.
fn inside<C: Course + Drop>(
    alloc: Global,
    a: &Moving<C>,
    when: &SpanSet,
) -> Result<Vec<Slice<C>>, Fault<Formula>>
where
    C::Base: Drop,
    ensures slices { IfOk result (λ all. AreRestricted C.value_of C.start_of C.end_of true (λ t x. in_some when.now t) a.now all.items) }
    ensures first { IsJudged (flat_map (entry_of_cut C.parts_of) (shared_pieces (λ s. s.span) (λ r. r) a.now when.now)) result }
{
    within(alloc, a, when.spans())
}

// Its slices at the instants that are not in the set: those in the remainders of its time.
fn outside<C: Course + Drop>(
    alloc: Global,
    a: &Moving<C>,
    when: &SpanSet,
) -> Result<Vec<Slice<C>>, Fault<Formula>>
where
    C::Base: Drop,
    ensures slices { IfOk result (λ all. AreRestricted C.value_of C.start_of C.end_of false (λ t x. in_some when.now t) a.now all.items) }
    ensures first { IsJudged (flat_map (entry_of_cut C.parts_of) (shared_pieces (λ s. s.span) (λ r. r) a.now when.now)) result }
{
    let slices = a.slices();
    let spans = when.spans();
    let Some(time) = whole(slices) else {
        return Ok(Vec::new(alloc));
    };
    // A method call gives the proof the invariant of a span.
    let _ = time.lower();
    let left = remainders(alloc, &time, spans)?;
    within(alloc, a, left.as_slice())
}

/// The temporal value at the instants of the set (MobilityDB's `atTime`). `None` exactly if no
/// instant is left.
///
/// The fault is F1, exactly if a part of it does not fit at an end of the intersection of a slice
/// and a span of the set, or out of memory.
pub fn at_time<C: Course + Drop>(
    alloc: Global,
    a: &Moving<C>,
    when: &SpanSet,
) -> Result<Option<Moving<C>>, Fault<Formula>>
where
    C::Base: Drop,
    ensures value { IfOk result (λ r. IsRestricted C.value_of true (λ t x. in_some when.now t) a.now r) }
    ensures first { IsJudged (flat_map (entry_of_cut C.parts_of) (shared_pieces (λ s. s.span) (λ r. r) a.now when.now)) result }
{
    let slices = inside(alloc, a, when)?;
    Ok(normal(alloc, slices)?)
}

/// The temporal value at the instants that are not in the set (MobilityDB's `minusTime`). `None`
/// exactly if no instant is left.
///
/// The fault is F1, exactly if it is for `at_time`, since both cut at the same instants, or out of
/// memory.
pub fn minus_time<C: Course + Drop>(
    alloc: Global,
    a: &Moving<C>,
    when: &SpanSet,
) -> Result<Option<Moving<C>>, Fault<Formula>>
where
    C::Base: Drop,
    ensures value { IfOk result (λ r. IsRestricted C.value_of false (λ t x. in_some when.now t) a.now r) }
    ensures first { IsJudged (flat_map (entry_of_cut C.parts_of) (shared_pieces (λ s. s.span) (λ r. r) a.now when.now)) result }
{
    let slices = outside(alloc, a, when)?;
    Ok(normal(alloc, slices)?)
}
