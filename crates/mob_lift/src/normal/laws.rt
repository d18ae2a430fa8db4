//! Laws of normal values, for every course. No code runs here.

ghost use Rattle.mob_lift.specs.OneNormal.{OneNormal};

use mob_slice::Course;

/// A function has one normal value: two normal lists of slices that have the same value at every
/// rational instant are the same list.
pub fn one_normal_value<C: Course>()
    ensures unique { OneNormal C.value_of C.start_of C.end_of C.is_continued }
{}
