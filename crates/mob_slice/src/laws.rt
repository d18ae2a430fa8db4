//! Laws of courses, temporal values and lists of formulas. No code runs here.

ghost use Rattle.mob_slice.specs.Entries.{OneFirst};
ghost use Rattle.mob_slice.specs.Instants.{OneSliceAt};
ghost use Rattle.mob_slice.specs.Lines.{NumbersAreStraight, PointsAreStraight};
ghost use Rattle.mob_slice.specs.Wholes.{ContinuesAsOne, TwoInstantsFix};

use crate::{
    Course, Formula, Gaps, Line, Moving, One, Operand, Pair, Piece, PlaneLine, Rel, Side, Slice,
    Steady,
};
use mob_list::fault::Fault;
use mob_list::laws::crosses_threads;
use std::marker::{Send, Sync};

/// Two courses on neighbouring spans are one exactly if some course on both spans has the values of
/// each on its own. One of the spans may be a single instant, on which a course has equal limits,
/// as in every slice.
pub fn one_course<C: Course>()
    ensures one { ContinuesAsOne C.value_of C.start_of C.end_of C.is_continued }
{}

/// Two courses on one span that have the same values at two instants are equal on it.
pub fn two_instants<C: Course>()
    ensures fixed { TwoInstantsFix C.value_of }
{}

/// Lines are straight at every instant, for numbers and, by coordinate, for points. The value times
/// the whole duration is the sum of the two limits, each times the time to the other end.
pub fn lines_are_straight()
    ensures numbers { NumbersAreStraight }
    ensures points { PointsAreStraight }
{}

/// The slice at an instant is the only slice of a temporal value whose span has the instant.
pub fn one_slice_at<C: Course>()
    ensures one { OneSliceAt C.start_of C.end_of }
{}

/// A list of entries has at most one first formula that overflows.
pub fn one_first()
    ensures one { OneFirst }
{}

/// Slices and temporal values may cross threads if their course may.
pub fn slices_cross_threads<C: Course + Send + Sync>() {
    crosses_threads::<Slice<C>>();
    crosses_threads::<Moving<C>>();
}

/// Operands and the pieces of walks may cross threads if the values of the course may too.
pub fn operands_cross_threads<'a, C: Course + Send + Sync + 'a>()
where
    C::Base: Send + Sync + 'a,
{
    crosses_threads::<Operand<'a, C>>();
    crosses_threads::<One<'a, C>>();
    crosses_threads::<Pair<'a, C, C>>();
    crosses_threads::<Side<'a, C>>();
    crosses_threads::<Piece<'a, C, C>>();
}

/// Relations, gaps, formulas and faults may cross threads.
pub fn faults_cross_threads() {
    crosses_threads::<Rel>();
    crosses_threads::<Gaps>();
    crosses_threads::<Formula>();
    crosses_threads::<Fault<Formula>>();
}

/// Steady courses may cross threads if their values may.
pub fn steady_courses_cross_threads<B: Send + Sync>() {
    crosses_threads::<Steady<B>>();
}

/// Lines, and slices and temporal values of them, may cross threads.
pub fn lines_cross_threads() {
    crosses_threads::<Line>();
    crosses_threads::<PlaneLine>();
    slices_cross_threads::<Line>();
    slices_cross_threads::<PlaneLine>();
}
