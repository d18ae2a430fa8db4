//! Makes the slices of a sequence.
ghost use Rattle.std.specs.Prelude.{◌≡◌, ◌++◌, ◌∷◌, [], Bool, IfOk, option_map, cond, true, false};
ghost use Rattle.mob_slice.specs.CourseOf.{course_of};
ghost use Rattle.mob_literal.specs.Slices.{made};

use mob_slice::{BaseValue, Course, Slice};
use mob_span::Span;
use mob_written::written::Written;
use std::alloc::{AllocError, Global};

/// The slices of the sequence with these instants and brackets. Under step interpolation each value
/// lasts until the next instant; otherwise a course leads from it to the next value. `None` exactly
/// if the sequence is unsound: an instant is not later than the one before it, a sequence of one
/// instant excludes an end, or the last course of a sequence without its upper end does not reach
/// its last value. An error means that an allocation failed.
pub fn slices_of<C: Course + Drop>(
    alloc: Global,
    step: bool,
    lower_inc: bool,
    instants: Vec<Written<C::Base>>,
    upper_inc: bool,
) -> Result<Option<Vec<Slice<C>>>, AllocError>
where
    C::Base: BaseValue + Drop,
    requires moves { step ≡ false → C.STEADY ≡ false }
    ensures made { IfOk result (λ o. option_map (λ slices. slices.items) o ≡ made (course_of C.Course C.Base.is_same) step false lower_inc instants.items upper_inc) }
{
    let mut slices = Vec::new(alloc);
    let mut rest = instants.into_iter();
    let Some(mut last) = rest.next() else {
        return Ok(Some(slices));
    };
    let mut included = lower_inc;
    let mut level = false;
    for next in rest {
        let Some(span) = Span::new(last.instant, next.instant, included, false) else {
            return Ok(None);
        };
        level = arrives(step, &last.value, &next.value);
        let course = drawn::<C>(alloc, step, last, &next.value)?;
        slices.push(Slice { span, course })?;
        last = next;
        included = true;
    }
    closed(alloc, slices, level, included, last, upper_inc)
}

/// The slices up to the last written instant, with one for that instant if the sequence includes
/// its upper end. `None` exactly if the sequence is unsound. `level` says whether the last slice
/// ends with the value of that instant, and `included` whether the slice for that instant may
/// include it.
fn closed<C: Course + Drop>(
    alloc: Global,
    slices: Vec<Slice<C>>,
    level: bool,
    included: bool,
    last: Written<C::Base>,
    upper_inc: bool,
) -> Result<Option<Vec<Slice<C>>>, AllocError>
where
    C::Base: BaseValue + Drop,
    ensures made { IfOk result (λ o. (step : Bool) → option_map (λ all. all.items) o ≡ option_map (λ more. slices.items ++ more) (made (course_of C.Course C.Base.is_same) step level included (last ∷ []) upper_inc)) }
{
    if !upper_inc {
        if level {
            return Ok(Some(slices));
        }
        return Ok(None);
    }
    let Some(span) = Span::new(last.instant, last.instant, included, true) else {
        return Ok(None);
    };
    let course = alone::<C>(alloc, last)?;
    let mut all = slices;
    all.push(Slice { span, course })?;
    Ok(Some(all))
}

/// Whether the course from a value to the next one ends with the next one.
fn arrives<B: BaseValue>(step: bool, value: &B, next: &B) -> bool
    ensures exact { result ≡ cond step (B.is_same value.now next.now) true }
{
    if step { value.same(next) } else { true }
}

/// The constant course with the value of a written instant.
fn alone<C: Course>(alloc: Global, written: Written<C::Base>) -> Result<C, AllocError>
where
    C::Base: BaseValue + Drop,
    ensures made { IfOk result (λ course. course ≡ C.make written.value written.value) }
{
    let Written { value, instant: _ } = written;
    let end = value.copy(alloc)?;
    Ok(C::of(value, end))
}

/// The course from a written instant to the next value; under step interpolation it is constant.
fn drawn<C: Course>(
    alloc: Global,
    step: bool,
    written: Written<C::Base>,
    next: &C::Base,
) -> Result<C, AllocError>
where
    C::Base: BaseValue + Drop,
    requires moves { step ≡ false → C.STEADY ≡ false }
    ensures made { IfOk result (λ course. course ≡ cond step (C.make written.value written.value) (C.make written.value next.now)) }
{
    if step {
        return alone::<C>(alloc, written);
    }
    let Written { value, instant: _ } = written;
    let end = next.copy(alloc)?;
    Ok(C::of(value, end))
}
