//! The remembered boxes of operands of `&&` that name at most one table.
//!
//! The box of a moving point takes a pass over its slices. The first evaluation that needs the box
//! of such an operand on a row keeps it, and later ones reuse it.
ghost use Rattle.std.specs.Prelude.{◌≡◌, ◌∷◌, [], Ok, Some, None, IfSome};
ghost use Rattle.mob_typed.specs.Trees.{typed_of};
ghost use Rattle.mob_value.specs.ValueBoxes.{OnBox};
ghost use Rattle.mob_clip.specs.Sql.Boxes.{IsOverlap};
ghost use Rattle.mob_meaning.specs.Evaluation.{EvaluatesTo, OperandsEvaluateTo};
ghost use Rattle.mob_eval.specs.Views.{scene_of};
ghost use Rattle.mob_eval.specs.SoFar.{trees};
ghost use Rattle.mob_eval.specs.Remembered.{AllFit, Fits, IsBoxTold};

use crate::memory::remembered::Remembering;
use crate::memory::{Memory, box_memo_of};
use crate::scene::View;
use mob_clip::sql::boxes::{overlap, overlap_of};
use mob_outcome::memos::{Memo, has_room};
use mob_stbox::StBox;
use mob_typed::TExpr;
use mob_value::{Value, box_of_value};
use std::alloc::Global;
use std::marker::{Model, PhantomData};
use std::mem::size_of;

/// The box of the operand at a place in the script: on a row of the table at a place of FROM, or on
/// each tuple if it names no place.
#[derive(Drop)]
pub struct OwnBox {
    at: u32,
    place: Option<u32>,
    row: u32,
    area: StBox,
}

// A box that is right on each tuple with its row.
#[derive(Drop)]
pub struct ToldBox<K: Remembering> {
    own: OwnBox,
    by: PhantomData<K>,
}

impl<K: Remembering> Model for ToldBox<K> {
    ghost use Rattle.mob_eval.specs.declared.memory.own_box.OwnBox.{OwnBox as own_box_of};
    ghost use Rattle.mob_eval.specs.Remembered.{IsBoxTold};

    ghost Value = { own_box_of };

    ghost view = { λ t. t.own };

    ghost invariant = { λ t. IsBoxTold K.recollection t.own.at t.own.place t.own.row t.own.area };
}

impl<K: Remembering> ToldBox<K> {
    // The box, if it belongs to the operand and row of a memo.
    fn area_for(&self, memo: &Memo<'_, ToldBox<K>>) -> Option<StBox>
        ensures told { IfSome result (IsBoxTold K.recollection memo.now.at memo.now.place memo.now.row) }
    {
        let own = &self.own;
        if memo.is_at(own.at, own.place, own.row) {
            Some(own.area)
        } else {
            None
        }
    }
}

// The box in a memo, if there is one.
fn kept_box<K: Remembering>(memo: &Memo<'_, ToldBox<K>>) -> Option<StBox>
    ensures told { IfSome result (IsBoxTold K.recollection memo.now.at memo.now.place memo.now.row) }
{
    match memo.kept.get() {
        Some(told) => told.area_for(memo),
        None => None,
    }
}

// Keeps a box in a memo if it is empty and memory allows.
fn keep<K: Remembering>(alloc: Global, memo: &Memo<'_, ToldBox<K>>, area: StBox)
    requires told { IsBoxTold K.recollection memo.now.at memo.now.place memo.now.row area }
{
    if !has_room(memo.taken, size_of::<OwnBox>() as u64) {
        return;
    }
    let told = ToldBox {
        own: OwnBox {
            at: memo.at,
            place: memo.place,
            row: memo.row,
            area,
        },
        by: PhantomData,
    };
    let Ok(boxed) = Box::new(alloc, told) else {
        return;
    };
    // Another worker may have been first; then its box stays.
    let _set = memo.kept.set(boxed);
}

// The box of an operand's value, if it has one; from the memory if it is there.
fn box_with<'a, K: Remembering>(
    alloc: Global,
    operand: &TExpr,
    value: &Value,
    view: &View<'a>,
    memory: Option<&'a Memory<K>>,
) -> Option<StBox>
    requires fits { Fits K.recollection (scene_of view.now) (typed_of operand.now) }
    requires value { EvaluatesTo (scene_of view.now) operand.now (Ok value.now) }
    ensures own { OnBox value.now (λ b. result ≡ Some b) (result ≡ None) }
{
    let Some(memo) = box_memo_of(alloc, memory, operand.place, view.tuple) else {
        return box_of_value(value);
    };
    if let Some(area) = kept_box(&memo) {
        return Some(area);
    }
    let Some(area) = box_of_value(value) else {
        return None;
    };
    keep(alloc, &memo, area);
    Some(area)
}

/// `&&` with a memory, which gives the boxes of its operands.
pub fn overlap_with<'a, K: Remembering>(
    alloc: Global,
    operands: &[TExpr],
    left: &Value,
    right: &Value,
    view: &View<'a>,
    memory: Option<&'a Memory<K>>,
) -> Value
    requires fits { AllFit K.recollection (scene_of view.now) (trees operands.now) }
    requires given { OperandsEvaluateTo (scene_of view.now) None (trees operands.now) (Ok (left.now ∷ right.now ∷ [])) }
    ensures value { IsOverlap left.now right.now result }
{
    match operands {
        [one, other] => {
            let one = box_with(alloc, one, left, view, memory);
            let other = box_with(alloc, other, right, view, memory);
            overlap_of(one, other)
        }
        _ => overlap(left, right),
    }
}
