//! The memos that keep the outcomes of operators.
//!
//! An operator that reads only the row of one place of FROM, such as a trip cut to a polygon, gives
//! on each tuple with that row the same value or the same fault. The first evaluation of it on a
//! row keeps its outcome, and each later one, by any worker, reuses it.
ghost use Rattle.std.specs.Prelude.{◌≡◌, ℕ, true, IfSome, Option, Result};
ghost use Rattle.mob_slice.specs.declared.formula.Formula.{Formula as formula_of};
ghost use Rattle.mob_value.specs.declared.value.Value.{Value as value_of};
ghost use Rattle.mob_outcome.specs.Faults.{Says};

use crate::fault::EvalFault;
use mob_list::fault::Fault;
use mob_slice::Formula;
use mob_value::Value;
use mob_value::held::Held;
use mob_value::weights::weight;
use once_cell::race::OnceBox;
use std::alloc::Global;
use std::marker::{Model, PhantomData};
use std::sync::atomic::{AtomicU64, Ordering};

/// The outcomes that may be kept: which outcome, by the place of an operator in the script, the
/// place of FROM that it names, and the number of the row there.
pub trait Telling {
    ghost tells: { ℕ → Option ℕ → ℕ → Result value_of (ℕ × formula_of) → Type 0 };
}

/// The outcome of the operator at a place in the script: on a row of the table at a place of FROM,
/// or on each tuple if it names no place.
#[derive(Drop)]
pub struct Answer {
    at: u32,
    place: Option<u32>,
    row: u32,
    outcome: Result<Value, (u32, Formula)>,
}

// An answer that is right on each tuple with its row.
#[derive(Drop)]
pub struct Told<K: Telling> {
    answer: Answer,
    by: PhantomData<K>,
}

impl<K: Telling> Model for Told<K> {
    ghost use Rattle.mob_outcome.specs.declared.memos.Answer.{Answer as answer_of};

    ghost Value = { answer_of };

    ghost view = { λ t. t.answer };

    ghost invariant = { λ t. K.tells t.answer.at t.answer.place t.answer.row t.answer.outcome };
}

/// The memo of an operator on a row: it keeps the operator's outcome, or its box.
#[derive(Drop)]
pub struct Memo<'a, T> {
    /// The place of the operator in the script.
    pub at: u32,
    /// The place of FROM that it names, if it names one.
    pub place: Option<u32>,
    /// The number of the row there.
    pub row: u32,
    /// What is kept, once there is something.
    pub kept: &'a OnceBox<T>,
    /// About how many bytes all memos of the query have taken.
    pub taken: &'a AtomicU64,
}

// About how many bytes the answers of a query may take. Beyond this nothing more is kept.
const MOST_BYTES: u64 = 1 << 28;

/// Whether there is room for `bytes` more bytes. If so, they are counted as taken.
pub fn has_room(taken: &AtomicU64, bytes: u64) -> bool {
    if taken.load(Ordering::SeqCst) >= MOST_BYTES {
        return false;
    }
    taken.fetch_add(bytes, Ordering::SeqCst) < MOST_BYTES
}

fn same_place(one: Option<u32>, other: Option<u32>) -> bool
    ensures same { result ≡ true → one ≡ other }
{
    match (one, other) {
        (Some(a), Some(b)) => a == b,
        (None, None) => true,
        _ => false,
    }
}

impl<K: Telling> Told<K> {
    // Its outcome.
    fn outcome(self) -> Result<Value, (u32, Formula)>
        ensures outcome { result ≡ self.outcome }
        ensures told { K.tells self.at self.place self.row result }
    {
        let Told { answer, by: _ } = self;
        let Answer {
            at: _,
            place: _,
            row: _,
            outcome,
        } = answer;
        outcome
    }
}

// A kept outcome, as evaluation gives it, with its value lent.
fn lent<'a, K: Telling>(told: &'a Told<K>) -> Result<Held<'a>, EvalFault>
    ensures value { Says (λ r. r ≡ told.now.outcome) result }
    ensures told { Says (K.tells told.now.at told.now.place told.now.row) result }
{
    match &told.answer.outcome {
        Ok(value) => Ok(Held::Stored(value)),
        Err(fault) => Err(Fault::Because(*fault)),
    }
}

// An outcome that the caller owns, as evaluation gives it, with its value held.
fn handed<'a>(outcome: Result<Value, (u32, Formula)>) -> Result<Held<'a>, EvalFault>
    ensures value { Says (λ r. r ≡ outcome) result }
{
    match outcome {
        Ok(value) => Ok(Held::Made(value)),
        Err(fault) => Err(Fault::Because(fault)),
    }
}

impl<'a, T> Memo<'a, T> {
    /// Whether this is the memo of the operator at a place in the script, on a row of the table at
    /// a place of FROM.
    pub fn is_at(&self, at: u32, place: Option<u32>, row: u32) -> bool
        ensures same { result ≡ true → (at ≡ self.now.at) × (place ≡ self.now.place) × (row ≡ self.now.row) }
    {
        if at != self.at {
            return false;
        }
        if !same_place(place, self.place) {
            return false;
        }
        row == self.row
    }
}

impl<K: Telling> Told<K> {
    // Whether it belongs to the operator and row of a memo.
    fn is_of(&self, memo: &Memo<'_, Told<K>>) -> bool
        ensures same { result ≡ true → (self.now.at ≡ memo.now.at) × (self.now.place ≡ memo.now.place) × (self.now.row ≡ memo.now.row) }
    {
        let answer = &self.answer;
        memo.is_at(answer.at, answer.place, answer.row)
    }
}

impl<'a, K: Telling> Memo<'a, Told<K>> {
    /// The outcome in the memo, if there is one.
    pub fn told(&self) -> Option<Result<Held<'a>, EvalFault>>
        ensures told { IfSome result (Says (K.tells self.now.at self.now.place self.now.row)) }
    {
        match self.kept.get() {
            Some(told) => {
                if told.is_of(self) {
                    Some(lent(told))
                } else {
                    None
                }
            }
            None => None,
        }
    }

    // Keeps an outcome, unless another worker was first. If an allocation fails, the outcome is
    // returned.
    fn keep(
        &self,
        alloc: Global,
        outcome: Result<Value, (u32, Formula)>,
    ) -> Result<Held<'a>, EvalFault>
        requires told { K.tells self.now.at self.now.place self.now.row outcome }
        ensures told { Says (K.tells self.now.at self.now.place self.now.row) result }
    {
        let told = Told {
            answer: Answer {
                at: self.at,
                place: self.place,
                row: self.row,
                outcome,
            },
            by: PhantomData,
        };
        let boxed = match Box::new(alloc, told) {
            Ok(boxed) => boxed,
            Err(refused) => return handed(refused.value.outcome()),
        };
        let mut note = self.kept.note();
        match self.kept.set_as(boxed, &mut note) {
            Ok(()) => match self.kept.get_as(&mut note) {
                Some(told) => lent(told),
                None => unreachable!(),
            },
            Err(back) => handed(Box::into_inner(back).outcome()),
        }
    }

    // Keeps a value if there is room for it.
    fn keep_value(&self, alloc: Global, value: Value) -> Result<Held<'a>, EvalFault>
        requires told { K.tells self.now.at self.now.place self.now.row (Ok value) }
        ensures told { Says (K.tells self.now.at self.now.place self.now.row) result }
    {
        if has_room(self.taken, weight(&value)) {
            self.keep(alloc, Ok(value))
        } else {
            Ok(Held::Made(value))
        }
    }

    /// Keeps the outcome of an evaluation, and returns it. A stored value is lent unchanged. A
    /// failed allocation of the evaluation is returned and not kept.
    pub fn kept(
        &self,
        alloc: Global,
        outcome: Result<Held<'a>, EvalFault>,
    ) -> Result<Held<'a>, EvalFault>
        requires told { Says (K.tells self.now.at self.now.place self.now.row) outcome }
        ensures told { Says (K.tells self.now.at self.now.place self.now.row) result }
    {
        match outcome {
            Ok(Held::Made(value)) => self.keep_value(alloc, value),
            Ok(Held::Stored(value)) => Ok(Held::Stored(value)),
            Err(Fault::Because(fault)) => self.keep(alloc, Err(fault)),
            Err(Fault::NoMemory) => Err(Fault::NoMemory),
        }
    }
}
