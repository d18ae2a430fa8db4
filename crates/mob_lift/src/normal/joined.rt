//! The normal form of two neighbouring slices.
ghost use Rattle.std.specs.Prelude.{◌≡◌, ◌≢◌, true, false, IsTrue, [], ◌∷◌, IfOk};
ghost use Rattle.mob_ratio.specs.Order.{before};
ghost use Rattle.mob_span.specs.Neighbours.{without_upper, with_lower};
ghost use Rattle.mob_slice.specs.Slices.{IsSound, IsClearOf};
ghost use Rattle.mob_lift.specs.Joined.{IsJoin, done_of, last_of};

use mob_slice::{Course, Slice};
use std::alloc::{AllocError, Global};

/// The normal form of two neighbouring slices.
#[derive(Drop)]
pub enum Merged<C> {
    /// One slice, if they are one course.
    One(Slice<C>),
    /// Two slices, the first of which later slices cannot change.
    Two(Slice<C>, Slice<C>),
}

/// The normal form of two neighbouring slices: one slice if they meet and are one course, and
/// otherwise two. If both would give the shared instant the same value, the second one has it. The
/// only error is a failed allocation.
pub fn join<C: Course + Drop>(
    alloc: Global,
    first: Slice<C>,
    second: Slice<C>,
) -> Result<Merged<C>, AllocError>
where
    C::Base: Drop,
    requires first_sound { IsSound C.start_of C.end_of first }
    requires second_sound { IsSound C.start_of C.end_of second }
    requires clear { IsClearOf first second }
    ensures joined { IfOk result (λ j. IsJoin C.value_of C.start_of C.end_of C.is_continued first second (done_of j) (last_of j)) }
{
    if !first.span.meets(&second.span) {
        return Ok(Merged::Two(first, second));
    }
    if first
        .course
        .continues(&first.span, &second.course, &second.span)
    {
        let from = C::copy_base(alloc, first.course.start())?;
        let to = C::copy_base(alloc, second.course.end())?;
        return Ok(Merged::One(Slice {
            span: first.span.joined(&second.span),
            course: C::of(from, to),
        }));
    }
    if first.span.upper_inc()
        && first.span.is_long()
        && C::same(first.course.end(), second.course.start())
    {
        return Ok(moved(first, second));
    }
    Ok(Merged::Two(first, second))
}

/// Whether two neighbours are already normal.
pub fn stay<C: Course>(left: &Slice<C>, right: &Slice<C>) -> bool
    requires left_sound { IsSound C.start_of C.end_of left.now }
    requires right_sound { IsSound C.start_of C.end_of right.now }
    requires clear { IsClearOf left.now right.now }
    ensures stay { result ≡ true → IsJoin C.value_of C.start_of C.end_of C.is_continued left.now right.now (left.now ∷ []) right.now }
{
    if !left.span.meets(&right.span) {
        return true;
    }
    if left
        .course
        .continues(&left.span, &right.course, &right.span)
    {
        return false;
    }
    !is_double(left, right)
}

// Whether the first includes the instant at which it meets the second, with the value that the
// second has there.
fn is_double<C: Course>(first: &Slice<C>, second: &Slice<C>) -> bool
    ensures double { result ≡ false → IsTrue first.now.span.upper_inc → before first.now.span.lower first.now.span.upper ≡ true → C.end_of first.now.course ≢ C.start_of second.now.course }
{
    if !first.span.upper_inc() {
        return false;
    }
    if !first.span.is_long() {
        return false;
    }
    C::same(first.course.end(), second.course.start())
}

// The two slices, with the shared instant moved to the second.
fn moved<C: Drop>(first: Slice<C>, second: Slice<C>) -> Merged<C>
    requires first_long { before first.span.lower first.span.upper ≡ true }
    requires second_long { before second.span.lower second.span.upper ≡ true }
    ensures moved { result ≡ Merged.Two (record { span = without_upper first.span; course = first.course }) (record { span = with_lower second.span; course = second.course }) }
{
    let Slice { span, course } = first;
    let Slice {
        span: next_span,
        course: next,
    } = second;
    Merged::Two(
        Slice {
            span: span.without_upper(),
            course,
        },
        Slice {
            span: next_span.with_lower(),
            course: next,
        },
    )
}
