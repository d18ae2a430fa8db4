//! Equality of slices as functions.
ghost use Rattle.std.specs.Prelude.{◌≡◌, true};
ghost use Rattle.mob_lift.specs.Alike.{AreAlike};

use mob_slice::{Course, Slice};

/// Whether two slices have the same course, on spans with the same ends.
///
/// Neighbouring pieces share an instant, and usually a slice: then the values computed at the end
/// of the first piece are known at the start of the second.
pub fn are_alike<C: Course>(a: &Slice<C>, b: &Slice<C>) -> bool
    ensures alike { result ≡ true → AreAlike a.now b.now }
{
    if !a.span.lower().is_same(b.span.lower()) {
        return false;
    }
    if !a.span.upper().is_same(b.span.upper()) {
        return false;
    }
    if !C::same(a.course.start(), b.course.start()) {
        return false;
    }
    C::same(a.course.end(), b.course.end())
}
