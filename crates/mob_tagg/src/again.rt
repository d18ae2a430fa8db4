//! Reuses the results at the end of a piece for the piece that begins there.

ghost use Rattle.std.specs.Prelude.{◌≡◌, true, IfSome};
ghost use Rattle.mob_ratio.specs.Order.{up_to};
ghost use Rattle.mob_frac.specs.Formula.{AllFit, sum_parts};
ghost use Rattle.mob_slice.specs.Cut.{slice_value, slice_parts};
ghost use Rattle.mob_slice.specs.Look.{IsLooked};
ghost use Rattle.mob_tagg.specs.Last.{IsLast};
ghost use Rattle.mob_tagg.specs.Sums.{IsSumOf};

use mob_arith::Summed;
use mob_frac::Frac;
use mob_lift::walks::{Found, limit_found};
use mob_list::fault::Fault;
use mob_slice::{Course, Formula, Slice, limit};
use std::alloc::Global;
use std::cell::Cell;
use std::marker::Model;

/// The end of a piece of two values: the first value on the piece, the second value at its end, and
/// a course that ends with their sum.
#[derive(Drop)]
pub struct PieceEnds<C: Course> {
    pub(crate) left: Slice<C>,
    pub(crate) found: Found<C>,
    pub(crate) sum: C,
}

/// The last piece.
#[derive(Drop)]
pub struct LastPiece<C: Summed> {
    ends: PieceEnds<C>,
}

impl<C: Summed> Model for LastPiece<C> {
    ghost use Rattle.mob_tagg.specs.declared.again.PieceEnds.{PieceEnds as ends_of};
    ghost use Rattle.mob_tagg.specs.Last.{IsLast};

    ghost Value = { ends_of C C.Base };

    ghost view = { λ l. l.ends };

    ghost invariant = { λ l. IsLast C.end_of C.number C.added l.ends };
}

impl<C: Summed> LastPiece<C> {
    /// The piece, whose sum is right.
    pub fn new(ends: PieceEnds<C>) -> Self
        requires last { IsLast C.end_of C.number C.added ends }
    {
        LastPiece { ends }
    }

    fn ends(&self) -> &PieceEnds<C>
        ensures last { IsLast C.end_of C.number C.added result.now }
    {
        &self.ends
    }
}

/// The value of a slice at an instant, as `limit` returns it, after a piece or none.
pub fn limit_again<C: Summed + Drop>(
    alloc: Global,
    slice: &Slice<C>,
    t: &Frac,
    last: &Option<LastPiece<C>>,
) -> Result<C::Base, Fault<Formula>>
where
    C::Base: Drop,
    requires after { up_to slice.now.span.lower t.now ≡ true }
    requires until { up_to t.now slice.now.span.upper ≡ true }
    ensures value { IsLooked C.copy_allocates (slice_parts C.parts_of slice.now t.now) (slice_value C.value_of slice.now t.now) result }
{
    match last {
        Some(last) => limit_found(alloc, slice, t, &last.ends().found),
        None => limit(alloc, slice, t),
    }
}

/// The sum of two values. The fault is F2, exactly if a part of F2 does not fit.
pub fn summed<C: Summed>(x: &C::Base, y: &C::Base) -> Result<C::Base, Fault<Formula>>
    ensures sum { IsSumOf C.added C.number x.now y.now result }
{
    match C::sum(x, y) {
        Ok(sum) => Ok(sum),
        Err(passed) => Err(Fault::Because(passed)),
    }
}

// The sum of two values, which may be that at the end of the last piece.
fn summed_from<C: Summed>(
    alloc: Global,
    x: &C::Base,
    y: &C::Base,
    ends: &PieceEnds<C>,
) -> Result<C::Base, Fault<Formula>>
where
    requires last { IsLast C.end_of C.number C.added ends.now }
    ensures sum { IsSumOf C.added C.number x.now y.now result }
{
    if !C::same(x, ends.left.course.end()) {
        return summed::<C>(x, y);
    }
    if !C::same(y, ends.found.value().end()) {
        return summed::<C>(x, y);
    }
    Ok(C::copy_base(alloc, ends.sum.end())?)
}

/// The sum of two values, after a piece or none. The fault is F2, exactly if a part of F2 does not
/// fit.
pub fn summed_again<C: Summed>(
    alloc: Global,
    x: &C::Base,
    y: &C::Base,
    last: &Option<LastPiece<C>>,
) -> Result<C::Base, Fault<Formula>>
    ensures sum { IsSumOf C.added C.number x.now y.now result }
{
    match last {
        Some(last) => summed_from(alloc, x, y, last.ends()),
        None => summed::<C>(x, y),
    }
}

// A course with these limits.
fn limits_copied<C: Course>(alloc: Global, start: &C::Base, end: &C::Base) -> Option<C>
where
    C::Base: Drop,
    requires possible { C.can_make start.now end.now }
    ensures start { IfSome result (λ c. C.start_of c ≡ start.now) }
    ensures end { IfSome result (λ c. C.end_of c ≡ end.now) }
{
    let Ok(from) = C::copy_base(alloc, start) else {
        return None;
    };
    let Ok(to) = C::copy_base(alloc, end) else {
        return None;
    };
    Some(C::of(from, to))
}

/// Keeps a piece for the next one. If an allocation fails, nothing is kept.
pub fn keep<C: Summed + Drop>(
    alloc: Global,
    memo: &Cell<Option<LastPiece<C>>>,
    of: &Slice<C>,
    left: Slice<C>,
    right: Slice<C>,
    to: &C::Base,
)
where
    C::Base: Drop,
    requires second { C.end_of right.course ≡ slice_value C.value_of of.now right.span.upper }
    requires second_fits { AllFit (slice_parts C.parts_of of.now right.span.upper) }
    requires sum { to.now ≡ C.added (C.end_of left.course) (C.end_of right.course) }
    requires sum_fits { AllFit (sum_parts (C.number (C.end_of left.course)) (C.number (C.end_of right.course))) }
{
    let Some(course) = limits_copied::<C>(alloc, of.course.start(), of.course.end()) else {
        return;
    };
    let Some(sum) = limits_copied::<C>(alloc, to, to) else {
        return;
    };
    let copy = Slice {
        span: of.span,
        course,
    };
    let Slice {
        span,
        course: value,
    } = right;
    let found = Found::new(copy, *span.upper(), value);
    // This drops the piece kept before.
    let _old = memo.replace(Some(LastPiece::new(PieceEnds { left, found, sum })));
}
