//! The remembered covers of operands of eDwithin and nearestApproachSquared that name at most one
//! table. They serve with `--wide` alone: without it each piece that two points share has parts.
//!
//! The covers of a moving point take a pass over its slices. The first evaluation that needs the
//! covers of such an operand on a row keeps them, and later ones reuse them.
ghost use Rattle.std.specs.Prelude.{◌≡◌, ◌∷◌, [], Ok, None, IfSome};
ghost use Rattle.mob_typed.specs.Trees.{typed_of};
ghost use Rattle.mob_slice.specs.Entries.{IsFirst};
ghost use Rattle.mob_value.specs.Outcomes.{IsOutcome};
ghost use Rattle.mob_value.specs.declared.value.Value.TheVariants.{MovingPoint as MovingPointOf};
ghost use Rattle.mob_legs.specs.Covers.{AreCoversOf};
ghost use Rattle.mob_near.specs.Sql.Entries.{approach_entries, within_entries};
ghost use Rattle.mob_near.specs.Sql.Nearness.{IsEverWithin, IsNearestApproach};
ghost use Rattle.mob_meaning.specs.Evaluation.{EvaluatesTo, OperandsEvaluateTo};
ghost use Rattle.mob_eval.specs.Views.{scene_of};
ghost use Rattle.mob_eval.specs.SoFar.{trees};
ghost use Rattle.mob_eval.specs.Remembered.{AllFit, Fits, HasCovers, IsCoversTold, IsTold};

use crate::memory::remembered::Remembering;
use crate::memory::{Memory, covers_memo_of};
use crate::scene::View;
use mob_legs::{Cover, Covers, covers_of};
use mob_list::fault::Fault;
use mob_near::sql::nearness::{nearest_approach, within};
use mob_near::{approach_covered, ever_within_covered};
use mob_outcome::memos::{Memo, has_room};
use mob_slice::{Formula, Mode, Moving, PlaneLine};
use mob_typed::TExpr;
use mob_value::Value;
use mob_value::kinds::{known, plain_number};
use std::alloc::Global;
use std::marker::{Model, PhantomData};
use std::mem::size_of;

/// The covers of the operand at a place in the script: on a row of the table at a place of FROM, or
/// on each tuple if it names no place.
#[derive(Drop)]
pub struct OwnCovers {
    at: u32,
    place: Option<u32>,
    row: u32,
    covers: Covers,
}

// Covers that are right on each tuple with their row.
#[derive(Drop)]
pub struct ToldCovers<K: Remembering> {
    own: OwnCovers,
    by: PhantomData<K>,
}

impl<K: Remembering> Model for ToldCovers<K> {
    ghost use Rattle.mob_eval.specs.declared.memory.own_covers.OwnCovers.{OwnCovers as own_covers_of};
    ghost use Rattle.mob_eval.specs.Remembered.{IsCoversTold};

    ghost Value = { own_covers_of };

    ghost view = { λ t. t.own };

    ghost invariant = { λ t. IsCoversTold K.recollection t.own.at t.own.place t.own.row t.own.covers };
}

impl<K: Remembering> ToldCovers<K> {
    // The covers, if they belong to the operand and row of a memo.
    fn covers_for<'a>(&'a self, memo: &Memo<'_, ToldCovers<K>>) -> Option<&'a Covers>
        ensures told { IfSome result (λ c. IsCoversTold K.recollection memo.now.at memo.now.place memo.now.row c.now) }
    {
        let own = &self.own;
        if memo.is_at(own.at, own.place, own.row) {
            Some(&own.covers)
        } else {
            None
        }
    }
}

// The covers in a memo, if there are any.
fn kept_covers<'a, K: Remembering>(memo: &Memo<'a, ToldCovers<K>>) -> Option<&'a Covers>
    ensures told { IfSome result (λ c. IsCoversTold K.recollection memo.now.at memo.now.place memo.now.row c.now) }
{
    match memo.kept.get() {
        Some(told) => told.covers_for(memo),
        None => None,
    }
}

// About how many bytes the covers of a moving point take. There is one for 16 slices.
fn bytes_for(moving: &Moving<PlaneLine>) -> u64 {
    let covers = moving.slices().len().div_ceil(16) as u64;
    (size_of::<OwnCovers>() as u64).saturating_add(covers.saturating_mul(size_of::<Cover>() as u64))
}

// Keeps covers in a memo if it is empty.
fn keep<K: Remembering>(alloc: Global, memo: &Memo<'_, ToldCovers<K>>, covers: Covers)
    requires told { IsCoversTold K.recollection memo.now.at memo.now.place memo.now.row covers }
{
    let told = ToldCovers {
        own: OwnCovers {
            at: memo.at,
            place: memo.place,
            row: memo.row,
            covers,
        },
        by: PhantomData,
    };
    let Ok(boxed) = Box::new(alloc, told) else {
        return;
    };
    // Another worker may have been first; then its covers stay.
    let _set = memo.kept.set(boxed);
}

// Makes the covers of an operand's value, if it is a moving point, and keeps them in a memo, if
// memory allows.
fn fill<K: Remembering>(alloc: Global, memo: &Memo<'_, ToldCovers<K>>, value: &Value)
    requires told { IsTold K.recollection memo.now.at memo.now.place memo.now.row (Ok value.now) }
{
    let Value::MovingPoint(moving) = value else {
        return;
    };
    if !has_room(memo.taken, bytes_for(moving)) {
        return;
    }
    let Ok(covers) = covers_of(alloc, moving) else {
        return;
    };
    keep(alloc, memo, covers);
}

// The covers of an operand's value, if they are remembered. The first call on a row makes them.
fn covers_with<'a, K: Remembering>(
    alloc: Global,
    operand: &TExpr,
    value: &Value,
    view: &View<'a>,
    memory: Option<&'a Memory<K>>,
) -> Option<&'a Covers>
    requires fits { Fits K.recollection (scene_of view.now) (typed_of operand.now) }
    requires value { EvaluatesTo (scene_of view.now) operand.now (Ok value.now) }
    ensures own { IfSome result (λ c. HasCovers value.now c.now) }
{
    let Some(memo) = covers_memo_of(alloc, memory, operand.place, view.tuple) else {
        return None;
    };
    if memo.kept.get().is_none() {
        fill(alloc, &memo, value);
    }
    kept_covers(&memo)
}

// The moving point that has these covers.
fn moving_of<'v>(value: &'v Value, covers: &Covers) -> &'v Moving<PlaneLine>
    requires covers { HasCovers value.now covers.now }
    ensures moving { value.now ≡ MovingPointOf result.now }
    ensures covers { AreCoversOf result.now covers.now }
{
    match value {
        Value::MovingPoint(moving) => moving,
        _ => unreachable!(),
    }
}

// eDwithin: in the wide mode by the covers of its operands, if both are remembered.
fn within_by(
    alloc: Global,
    mode: Mode,
    left: &Value,
    over_left: Option<&Covers>,
    right: &Value,
    over_right: Option<&Covers>,
    distance: &Value,
) -> Result<Value, Fault<Formula>>
    requires left { IfSome over_left (λ c. HasCovers left.now c.now) }
    requires right { IfSome over_right (λ c. HasCovers right.now c.now) }
    ensures outcome { IsOutcome (IsEverWithin left.now right.now distance.now) (IsFirst (within_entries mode left.now right.now distance.now)) result }
{
    let Mode::Wide = mode else {
        return within(alloc, mode, left, right, distance);
    };
    let Some(over_a) = over_left else {
        return within(alloc, mode, left, right, distance);
    };
    let Some(over_b) = over_right else {
        return within(alloc, mode, left, right, distance);
    };
    let Value::Number(d) = distance else {
        return within(alloc, mode, left, right, distance);
    };
    let a = moving_of(left, over_a);
    let b = moving_of(right, over_b);
    match ever_within_covered(alloc, a, over_a, b, over_b, d) {
        Ok(near) => Ok(known(near)),
        Err(_) => Err(Fault::NoMemory),
    }
}

/// eDwithin with a memory, which gives the covers of its operands in the wide mode.
pub fn within_with<'a, K: Remembering>(
    alloc: Global,
    operands: &[TExpr],
    left: &Value,
    right: &Value,
    distance: &Value,
    view: &View<'a>,
    memory: Option<&'a Memory<K>>,
) -> Result<Value, Fault<Formula>>
    requires fits { AllFit K.recollection (scene_of view.now) (trees operands.now) }
    requires given { OperandsEvaluateTo (scene_of view.now) None (trees operands.now) (Ok (left.now ∷ right.now ∷ distance.now ∷ [])) }
    ensures outcome { IsOutcome (IsEverWithin left.now right.now distance.now) (IsFirst (within_entries view.now.terms.now.mode left.now right.now distance.now)) result }
{
    let mode = view.terms.mode;
    match operands {
        [one, other, _] => {
            let over_left = covers_with(alloc, one, left, view, memory);
            let over_right = covers_with(alloc, other, right, view, memory);
            within_by(alloc, mode, left, over_left, right, over_right, distance)
        }
        _ => within(alloc, mode, left, right, distance),
    }
}

// nearestApproachSquared: in the wide mode by the covers of its operands, if both are remembered.
fn approach_by(
    alloc: Global,
    mode: Mode,
    left: &Value,
    over_left: Option<&Covers>,
    right: &Value,
    over_right: Option<&Covers>,
) -> Result<Value, Fault<Formula>>
    requires left { IfSome over_left (λ c. HasCovers left.now c.now) }
    requires right { IfSome over_right (λ c. HasCovers right.now c.now) }
    ensures outcome { IsOutcome (IsNearestApproach left.now right.now) (IsFirst (approach_entries mode left.now right.now)) result }
{
    let Mode::Wide = mode else {
        return nearest_approach(alloc, mode, left, right);
    };
    let Some(over_a) = over_left else {
        return nearest_approach(alloc, mode, left, right);
    };
    let Some(over_b) = over_right else {
        return nearest_approach(alloc, mode, left, right);
    };
    let a = moving_of(left, over_a);
    let b = moving_of(right, over_b);
    match approach_covered(alloc, a, over_a, b, over_b) {
        Ok(square) => Ok(plain_number(square)),
        Err(fault) => Err(fault),
    }
}

/// nearestApproachSquared with a memory, which gives the covers of its operands in the wide mode.
pub fn approach_with<'a, K: Remembering>(
    alloc: Global,
    operands: &[TExpr],
    left: &Value,
    right: &Value,
    view: &View<'a>,
    memory: Option<&'a Memory<K>>,
) -> Result<Value, Fault<Formula>>
    requires fits { AllFit K.recollection (scene_of view.now) (trees operands.now) }
    requires given { OperandsEvaluateTo (scene_of view.now) None (trees operands.now) (Ok (left.now ∷ right.now ∷ [])) }
    ensures outcome { IsOutcome (IsNearestApproach left.now right.now) (IsFirst (approach_entries view.now.terms.now.mode left.now right.now)) result }
{
    let mode = view.terms.mode;
    match operands {
        [one, other] => {
            let over_left = covers_with(alloc, one, left, view, memory);
            let over_right = covers_with(alloc, other, right, view, memory);
            approach_by(alloc, mode, left, over_left, right, over_right)
        }
        _ => nearest_approach(alloc, mode, left, right),
    }
}
