//! Laws of values: their boxes, and that they cross threads. No code runs here.

ghost use Rattle.std.specs.Prelude.{◌≡◌, List};
ghost use Rattle.mob_slice.specs.CourseOf.{plane_course};
ghost use Rattle.mob_slice.specs.Slices.{IsNormal};
ghost use Rattle.mob_slice.specs.declared.line.PlaneLine.{PlaneLine};
ghost use Rattle.mob_slice.specs.declared.slice.Slice.{Slice};
ghost use Rattle.mob_stbox.specs.Boxes.{BoxOf};
ghost use Rattle.mob_value.specs.ValueBoxes.{HasBox, HasPositions, IsBoxOf, value_box};
ghost use Rattle.mob_value.specs.declared.value.Value.{Value};
ghost use Rattle.mob_value.specs.declared.value.Value.TheVariants.{MovingPoint as PointValue};

use crate::{Store, Table, Value};
use mob_list::laws::crosses_threads;

/// A moving point has at most one box.
pub fn one_value_box()
    ensures one { (slices : List (Slice PlaneLine)) (b c : BoxOf) → IsBoxOf slices b → IsBoxOf slices c → b ≡ c }
{}

/// A moving point has a box: the cover of the boxes of its slices, in normal form, is the least
/// one.
pub fn value_boxes_are_least()
    ensures least { (slices : List (Slice PlaneLine)) → IsNormal plane_course.start plane_course.end plane_course.continues slices → IsBoxOf slices (value_box slices) }
{}

/// The box of a moving point contains its position at each instant at which it is defined.
pub fn boxes_have_positions()
    ensures all { (slices : List (Slice PlaneLine)) (b : BoxOf) → HasBox (PointValue slices) b → HasPositions slices b }
{}

/// A value has at most one box.
pub fn one_own_box()
    ensures one { (value : Value) (b c : BoxOf) → HasBox value b → HasBox value c → b ≡ c }
{}

/// Values, tables and stores cross threads.
pub fn values_cross_threads() {
    crosses_threads::<Value>();
    crosses_threads::<Table>();
    crosses_threads::<Store>();
}
