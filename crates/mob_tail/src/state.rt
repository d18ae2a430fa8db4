//! The state of an aggregate of the values so far.
ghost use Rattle.std.specs.Prelude.{◌≡◌, OnOk, IfOk, IfErr, false};
ghost use Rattle.mob_ratio.specs.Ratio.{Ratio};
ghost use Rattle.mob_slice.specs.Slices.{value_at};
ghost use Rattle.mob_tagg.specs.Gathered.{united_parts};
ghost use Rattle.mob_tagg.specs.United.{united_by};
ghost use Rattle.mob_value.specs.declared.value.Value.TheVariants.{MovingBool};
ghost use Rattle.mob_tail.specs.Aggregated.{leaves_out, truths_of};
ghost use Rattle.mob_tail.specs.Made.{made_in};
ghost use Rattle.mob_tail.specs.States.{AreTruthsWith, IsKeptIn, IsStartState, IsStateWith};

use crate::adding::{aggregate_in, leaves_out, ones_on, put};
use mob_frac::Frac;
use mob_list::fault::Fault;
use mob_list::items::Items;
use mob_operators::AggKind;
use mob_slice::{Course, Formula, Moving, Steady};
use mob_tagg::{Conjunctions, Counts, Disjunctions, Part, Uniting, gathered, with_value};
use mob_typed::Agg;
use mob_value::Value;
use mob_value::kinds::{bool_or_null, int_or_null};
use std::alloc::{AllocError, Global};
use std::mem;
use std::mem::drop;

/// The state of an aggregate of the values so far.
///
/// A count, a conjunction or a disjunction over time is kept in parts, each made of some of the
/// values. So a new value is not combined with the long aggregate of all values before it.
#[derive(Drop)]
pub enum State {
    /// The aggregate itself.
    Whole(Value),
    /// The parts of a count over time.
    Counts(Items<Part<Steady<Frac>>>),
    /// The parts of a conjunction.
    All(Items<Part<Steady<bool>>>),
    /// The parts of a disjunction.
    Any(Items<Part<Steady<bool>>>),
}

/// The aggregate of no value.
pub fn nothing_yet(alloc: Global, kind: AggKind) -> State
    ensures start { IsStartState kind result }
{
    match kind {
        AggKind::CountAll => State::Whole(Value::Number(Frac::zero())),
        AggKind::Count => State::Whole(Value::Number(Frac::zero())),
        AggKind::Sum => State::Whole(Value::Null),
        AggKind::TCount => State::Counts(Items::new(alloc)),
        AggKind::TSum => State::Whole(Value::Null),
        AggKind::TAnd => State::All(Items::new(alloc)),
        AggKind::TOr => State::Any(Items::new(alloc)),
    }
}

// Adds one more value to parts.
fn part_in<C: Course + Drop, U: Uniting<C>>(
    alloc: Global,
    parts: &mut Items<Part<C>>,
    value: Moving<C>,
) -> Result<(), Fault<Formula>>
    ensures more { OnOk result ((t : Ratio) → united_parts U.op C.value_of parts.new t ≡ united_by U.op (united_parts U.op C.value_of parts.old t) (value_at C.value_of value t)) }
    ensures memory { IfErr result (λ e. e ≡ Fault.NoMemory) }
{
    let before = mem::replace(parts, Items::new(alloc));
    let more = with_value::<C, U>(alloc, before.into_vec(), 1, value)?;
    put(parts, Items::from_vec(more));
    Ok(())
}

// Adds one more value to a count over time.
fn counts_in(
    alloc: Global,
    parts: &mut Items<Part<Steady<Frac>>>,
    value: &Value,
) -> Result<(), Fault<Formula>>
    ensures with { (ty : _) → IsStateWith false AggKind.TCount ty (State.Counts parts.old) value.now (made_in result (State.Counts parts.new)) }
{
    match ones_on(alloc, value) {
        Ok(Some(ones)) => part_in::<Steady<Frac>, Counts>(alloc, parts, ones),
        Ok(None) => Ok(()),
        Err(_) => Err(Fault::NoMemory),
    }
}

// A copy of the slices of a tbool; `None` for other values.
fn truths_copy(alloc: Global, value: &Value) -> Result<Option<Moving<Steady<bool>>>, AllocError>
    ensures copy { IfOk result (λ o. o ≡ truths_of value.now) }
{
    match value.copy(alloc)? {
        Value::MovingBool(moving) => Ok(Some(moving)),
        other => {
            drop(other);
            Ok(None)
        }
    }
}

// Adds one more value to a conjunction or a disjunction over time.
fn truths_in<U: Uniting<Steady<bool>>>(
    alloc: Global,
    parts: &mut Items<Part<Steady<bool>>>,
    value: &Value,
) -> Result<(), Fault<Formula>>
    ensures more { OnOk result (AreTruthsWith U.op parts.old (truths_of value.now) parts.new) }
    ensures memory { IfErr result (λ e. e ≡ Fault.NoMemory) }
{
    match truths_copy(alloc, value) {
        Ok(Some(moving)) => {
            // The clause of `slices` says that they are normal.
            let _ = moving.slices();
            part_in::<Steady<bool>, U>(alloc, parts, moving)
        }
        Ok(None) => Ok(()),
        Err(_) => Err(Fault::NoMemory),
    }
}

/// Adds one more value to an aggregate whose state without it is `state`.
///
/// The fault is the formula that overflows: F2 of `+` for a count or a sum, and for a sum over time
/// the first formula of `+` at each instant. NULL is ignored, except by `count(*)`. `NoMemory`
/// comes if an allocation fails.
pub fn state_in(
    alloc: Global,
    agg: Agg,
    state: &mut State,
    value: &Value,
) -> Result<(), Fault<Formula>>
    ensures with { IsStateWith (leaves_out agg.kind value.now) agg.kind agg.ty state.old value.now (made_in result state.new) }
{
    if leaves_out(agg.kind, value) {
        return Ok(());
    }
    match state {
        State::Whole(before) => aggregate_in(alloc, agg, before, value),
        State::Counts(parts) => counts_in(alloc, parts, value),
        State::All(parts) => truths_in::<Conjunctions>(alloc, parts, value),
        State::Any(parts) => truths_in::<Disjunctions>(alloc, parts, value),
    }
}

/// The aggregate of a state. The only error is a failed allocation.
pub fn value_of(alloc: Global, state: State) -> Result<Value, AllocError>
    ensures value { (kind : _) (r : _) → IsKeptIn kind state r → IfOk result (λ v. v ≡ r) }
{
    match state {
        State::Whole(value) => Ok(value),
        State::Counts(parts) => match gathered::<Steady<Frac>, Counts>(
            alloc,
            parts.into_vec(),
            None,
        ) {
            Ok(all) => Ok(int_or_null(all)),
            Err(_) => Err(AllocError),
        },
        State::All(parts) => match gathered::<Steady<bool>, Conjunctions>(
            alloc,
            parts.into_vec(),
            None,
        ) {
            Ok(all) => Ok(bool_or_null(all)),
            Err(_) => Err(AllocError),
        },
        State::Any(parts) => match gathered::<Steady<bool>, Disjunctions>(
            alloc,
            parts.into_vec(),
            None,
        ) {
            Ok(all) => Ok(bool_or_null(all)),
            Err(_) => Err(AllocError),
        },
    }
}
