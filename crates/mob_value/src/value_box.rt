//! Computes the bounding boxes of values.
ghost use Rattle.std.specs.Prelude.{◌≡◌, true, Some, None};
ghost use Rattle.mob_stbox.specs.Boxes.{is_whole};
ghost use Rattle.mob_value.specs.ValueBoxes.{IsBoxOf, OnBox, slice_box as box_of_slice, covered, value_box};

use crate::value::Value;
use mob_slice::{Moving, PlaneLine, Slice};
use mob_stbox::{Area, StBox};

// The bounding box of one slice.
#[tactic(auto, unfolding(mob_stbox::specs::Boxes::is_whole))]
fn slice_box(slice: &Slice<PlaneLine>) -> StBox
    ensures value { result ≡ box_of_slice slice.now }
    ensures whole { is_whole result ≡ true }
{
    let area = Area::between(&slice.course.from, &slice.course.to);
    match StBox::new(Some(area), Some(slice.span)) {
        Some(found) => found,
        None => unreachable!(),
    }
}

// The least box that contains a box and those of the slices.
fn cover_all(first: StBox, slices: &[Slice<PlaneLine>]) -> StBox
    requires whole { is_whole first ≡ true }
    ensures value { result ≡ covered first slices.now }
{
    let mut over = first;
    for slice in slices {
        over = over.cover(&slice_box(slice));
    }
    over
}

/// The bounding box of a moving point: the least closed rectangle that contains all its positions,
/// and the least span that contains each instant at which it is defined. It takes no memory.
pub fn box_of(moving: &Moving<PlaneLine>) -> StBox
    ensures least { IsBoxOf moving.now result }
    ensures value { result ≡ value_box moving.now }
{
    let slices = moving.slices();
    match slices {
        [first, ..] => cover_all(slice_box(first), slices),
        [] => unreachable!(),
    }
}

/// The box of a value: an stbox is its own, and a moving point has its bounding box. Other values
/// have none.
pub fn box_of_value(value: &Value) -> Option<StBox>
    ensures own { OnBox value.now (λ b. result ≡ Some b) (result ≡ None) }
{
    match value {
        Value::Box(area) => Some(*area.get()),
        Value::MovingPoint(moving) => Some(box_of(moving)),
        _ => None,
    }
}
