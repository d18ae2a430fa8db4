//! The results of a comparison at each instant of a span, and the parts of a slice to keep by them.
//! A span is cut at the instant at which the results change, so that this instant has to fit.
ghost use Rattle.std.specs.List.{AllByRecursion};
ghost use Rattle.std.specs.Prelude.{◌≡◌, ◌∷◌, [], true, false, IfOk, IfSome, Some};
ghost use Rattle.mob_slice.specs.Cut.{slice_value};
ghost use Rattle.mob_slice.specs.Entries.{IsMadeBy};
ghost use Rattle.mob_slice.specs.Modes.{entry_given};
ghost use Rattle.mob_slice.specs.OnPiece.{AreKeptOn, IsKeptBy};
ghost use Rattle.mob_slice.specs.Operands.{steady_value, steady_limit};
ghost use Rattle.mob_slice.specs.Sides.{HasValues};
ghost use Rattle.mob_slice.specs.Slices.{IsSound};
ghost use Rattle.mob_slice.specs.declared.formula.Formula.TheVariants.{Given};
ghost use Rattle.mob_span.specs.Neighbours.{is_inside};
ghost use Rattle.mob_cells.specs.Cells.{AreCells};
ghost use Rattle.mob_cells.specs.Turnings.{IsCellBetween, IsHeldInside, IsTurnInside, by_cut, kept_turned, turn_numbers, turning_at, turned_on};

use crate::cutting::cells_at;
use crate::keeping::append;
use crate::numbers::given;
use crate::turning::{Turn, Turning};
use mob_frac::Frac;
use mob_list::fault::Fault;
use mob_slice::{Course, Formula, Slice, Steady};
use mob_span::{Span, same_bool};
use std::alloc::{AllocError, Global};

// The instants at which the span is cut: that at which the result changes, if it does.
//
// The fault is `Given`, exactly if it does not fit, or out of memory.
fn turning_cuts(alloc: Global, turning: &Turning) -> Result<Vec<Frac>, Fault<Formula>>
    ensures made { IsMadeBy Given (turn_numbers turning.now.turn) (λ v. v.items ≡ turn_numbers turning.now.turn) result }
{
    match &turning.turn {
        Some(turn) => one_cut(alloc, turn),
        None => Ok(Vec::new(alloc)),
    }
}

// The instant at which the result changes, as a list.
fn one_cut(alloc: Global, turn: &Turn) -> Result<Vec<Frac>, Fault<Formula>>
    ensures made { IsMadeBy Given (turn.now.at ∷ []) (λ v. v.items ≡ turn.now.at ∷ []) result }
{
    let at = given(alloc, &turn.at)?;
    let mut cuts = Vec::new(alloc);
    cuts.push(at)?;
    Ok(cuts)
}

// The result on a cell, by how it lies to the cut.
fn by_cut(first: bool, turn: &Turn, at: &Frac, cell: &Span) -> bool
    ensures value { result ≡ by_cut first turn.now at.now cell.now }
{
    if cell.lower().is_before(at) {
        return first;
    }
    if at.is_before(cell.upper()) {
        return turn.after;
    }
    turn.there
}

// The result on a cell of the span.
fn turned_on(span: &Span, turning: &Turning, cuts: &[Frac], cell: &Span) -> bool
    ensures value { result ≡ turned_on span.now turning.now cuts.now cell.now }
{
    if cell.upper().is_same(span.lower()) {
        return turning.at_lower;
    }
    if cell.lower().is_same(span.upper()) {
        return turning.at_upper;
    }
    match &turning.turn {
        Some(turn) => match cuts {
            [at] => by_cut(turning.first, turn, at, cell),
            _ => turning.first,
        },
        None => turning.first,
    }
}

// The result on a cell, as a slice.
fn flag_between(span: &Span, turning: &Turning, cuts: &[Frac], cell: &Span) -> Slice<Steady<bool>>
    requires cuts { cuts.now ≡ turn_numbers turning.now.turn }
    requires cell { IsCellBetween span.now cuts.now cell.now }
    ensures flag { AreKeptOn steady_value steady_limit steady_limit (λ t. Some (turning_at span.now turning.now t)) cell.now (result ∷ []) }
{
    // A method call gives the proof the invariant of a span.
    let _ = cell.lower();
    let value = turned_on(span, turning, cuts, cell);
    Slice {
        span: *cell,
        course: Steady { value },
    }
}

// The results on the cells of the span.
fn flags_between(
    alloc: Global,
    span: &Span,
    turning: &Turning,
    cuts: &[Frac],
    cells: &[Span],
) -> Result<Vec<Slice<Steady<bool>>>, AllocError>
    requires cuts { cuts.now ≡ turn_numbers turning.now.turn }
    requires between { AllByRecursion (IsCellBetween span.now cuts.now) cells.now }
    requires whole { AreCells span.now cells.now }
    ensures flags { IfOk result (λ v. AreKeptOn steady_value steady_limit steady_limit (λ t. Some (turning_at span.now turning.now t)) span.now v.items) }
{
    let mut out = Vec::new(alloc);
    for cell in cells {
        out.push(flag_between(span, turning, cuts, cell))?;
    }
    Ok(out)
}

// The results at each instant of the span.
fn flags_at(
    alloc: Global,
    span: &Span,
    turning: &Turning,
    cuts: &[Frac],
) -> Result<Vec<Slice<Steady<bool>>>, AllocError>
    requires cuts { cuts.now ≡ turn_numbers turning.now.turn }
    requires inside { IsTurnInside span.now turning.now.turn }
    ensures flags { IfOk result (λ v. AreKeptOn steady_value steady_limit steady_limit (λ t. Some (turning_at span.now turning.now t)) span.now v.items) }
{
    // A method call gives the proof the invariant of a span.
    let _lower = span.lower();
    let cells = cells_at(alloc, span, cuts)?;
    let flags = flags_between(alloc, span, turning, cuts, cells.as_slice())?;
    Ok(flags)
}

/// The results at each instant of the span.
///
/// The fault is `Given`, exactly if the instant at which they change does not fit, or out of memory.
pub fn flagged_wide(
    alloc: Global,
    span: &Span,
    turning: &Turning,
) -> Result<Vec<Slice<Steady<bool>>>, Fault<Formula>>
    requires inside { IsTurnInside span.now turning.now.turn }
    ensures flags { IsKeptBy steady_value steady_limit steady_limit (λ v. v.items) (λ t. Some (turning_at span.now turning.now t)) span.now (entry_given (turn_numbers turning.now.turn)) result }
{
    let cuts = turning_cuts(alloc, turning)?;
    let flags = flags_at(alloc, span, turning, cuts.as_slice())?;
    Ok(flags)
}

// The limit of a slice at an end of a cell: at an instant inside its span it is `x`.
fn held<C: Course>(
    alloc: Global,
    slice: &Slice<C>,
    t: &Frac,
    x: &C::Base,
) -> Result<C::Base, AllocError>
    requires sound { IsSound C.start_of C.end_of slice.now }
    requires inside { IsHeldInside C.value_of slice.now x.now t.now }
    ensures value { IfOk result (λ v. v ≡ slice_value C.value_of slice.now t.now) }
{
    if t.is_same(slice.span.lower()) {
        return C::copy_base(alloc, slice.course.start());
    }
    if t.is_same(slice.span.upper()) {
        return C::copy_base(alloc, slice.course.end());
    }
    C::copy_base(alloc, x)
}

// The part of a slice on a cell of its span.
fn part_on<C: Course>(
    alloc: Global,
    slice: &Slice<C>,
    x: &C::Base,
    cell: &Span,
) -> Result<Slice<C>, AllocError>
where
    C::Base: Drop,
    requires moves { C.STEADY ≡ false }
    requires sound { IsSound C.start_of C.end_of slice.now }
    requires within { is_inside slice.now.span cell.now ≡ true }
    requires lower { IsHeldInside C.value_of slice.now x.now cell.now.lower }
    requires upper { IsHeldInside C.value_of slice.now x.now cell.now.upper }
    ensures part { IfOk result (HasValues C.value_of C.start_of C.end_of (slice_value C.value_of slice.now) cell.now) }
{
    let from = held::<C>(alloc, slice, cell.lower(), x)?;
    let to = held::<C>(alloc, slice, cell.upper(), x)?;
    Ok(Slice {
        span: *cell,
        course: C::of(from, to),
    })
}

// The part of a slice on a cell, if the result there is the wanted one.
fn kept_on_cell<C: Course + Drop>(
    alloc: Global,
    slice: &Slice<C>,
    turning: &Turning,
    cuts: &[Frac],
    x: &C::Base,
    cell: &Span,
    want: bool,
) -> Result<Vec<Slice<C>>, AllocError>
where
    C::Base: Drop,
    requires moves { C.STEADY ≡ false }
    requires sound { IsSound C.start_of C.end_of slice.now }
    requires cuts { cuts.now ≡ turn_numbers turning.now.turn }
    requires held { IfSome turning.now.turn (λ c. slice_value C.value_of slice.now c.at ≡ x.now) }
    requires cell { IsCellBetween slice.now.span cuts.now cell.now }
    ensures kept { IfOk result (λ v. AreKeptOn C.value_of C.start_of C.end_of (kept_turned C.value_of want turning.now slice.now) cell.now v.items) }
{
    let flag = turned_on(&slice.span, turning, cuts, cell);
    if !same_bool(want, flag) {
        return Ok(Vec::new(alloc));
    }
    let part = part_on::<C>(alloc, slice, x, cell)?;
    let mut parts = Vec::new(alloc);
    parts.push(part)?;
    Ok(parts)
}

// The parts of a slice on the cells on which the result is the wanted one.
fn kept_between<C: Course + Drop>(
    alloc: Global,
    slice: &Slice<C>,
    turning: &Turning,
    cuts: &[Frac],
    x: &C::Base,
    cells: &[Span],
    want: bool,
) -> Result<Vec<Slice<C>>, AllocError>
where
    C::Base: Drop,
    requires moves { C.STEADY ≡ false }
    requires sound { IsSound C.start_of C.end_of slice.now }
    requires cuts { cuts.now ≡ turn_numbers turning.now.turn }
    requires held { IfSome turning.now.turn (λ c. slice_value C.value_of slice.now c.at ≡ x.now) }
    requires between { AllByRecursion (IsCellBetween slice.now.span cuts.now) cells.now }
    requires whole { AreCells slice.now.span cells.now }
    ensures kept { IfOk result (λ v. AreKeptOn C.value_of C.start_of C.end_of (kept_turned C.value_of want turning.now slice.now) slice.now.span v.items) }
{
    let mut out = Vec::new(alloc);
    for cell in cells {
        let more = kept_on_cell::<C>(alloc, slice, turning, cuts, x, cell, want)?;
        append(&mut out, more)?;
    }
    Ok(out)
}

// The parts of a slice at the instants at which the result is the wanted one.
fn kept_at<C: Course + Drop>(
    alloc: Global,
    slice: &Slice<C>,
    turning: &Turning,
    cuts: &[Frac],
    x: &C::Base,
    want: bool,
) -> Result<Vec<Slice<C>>, AllocError>
where
    C::Base: Drop,
    requires moves { C.STEADY ≡ false }
    requires sound { IsSound C.start_of C.end_of slice.now }
    requires cuts { cuts.now ≡ turn_numbers turning.now.turn }
    requires inside { IsTurnInside slice.now.span turning.now.turn }
    requires held { IfSome turning.now.turn (λ c. slice_value C.value_of slice.now c.at ≡ x.now) }
    ensures kept { IfOk result (λ v. AreKeptOn C.value_of C.start_of C.end_of (kept_turned C.value_of want turning.now slice.now) slice.now.span v.items) }
{
    let cells = cells_at(alloc, &slice.span, cuts)?;
    let parts = kept_between::<C>(alloc, slice, turning, cuts, x, cells.as_slice(), want)?;
    Ok(parts)
}

/// The parts of a slice at the instants at which the result is the wanted one. It has the slice's
/// own values there, and none elsewhere. At the instant at which the result changes its value is
/// `x`.
///
/// The fault is `Given`, exactly if that instant does not fit, or out of memory.
pub fn kept_wide<C: Course + Drop>(
    alloc: Global,
    slice: &Slice<C>,
    turning: &Turning,
    x: &C::Base,
    want: bool,
) -> Result<Vec<Slice<C>>, Fault<Formula>>
where
    C::Base: Drop,
    requires moves { C.STEADY ≡ false }
    requires sound { IsSound C.start_of C.end_of slice.now }
    requires inside { IsTurnInside slice.now.span turning.now.turn }
    requires held { IfSome turning.now.turn (λ c. slice_value C.value_of slice.now c.at ≡ x.now) }
    ensures kept { IsKeptBy C.value_of C.start_of C.end_of (λ v. v.items) (kept_turned C.value_of want turning.now slice.now) slice.now.span (entry_given (turn_numbers turning.now.turn)) result }
{
    let cuts = turning_cuts(alloc, turning)?;
    let parts = kept_at::<C>(alloc, slice, turning, cuts.as_slice(), x, want)?;
    Ok(parts)
}
