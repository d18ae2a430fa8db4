//! The values of the columns of the answer for each group, tuple by tuple.
ghost use Rattle.std.specs.Prelude.{◌≡◌, Ok, Err, Some, IfOk, IfErr, is_none, ◌++◌, ◌∷◌, [], length};
ghost use Rattle.std.specs.List.{AllByRecursion, AllZip};
ghost use Rattle.mob_typed.specs.Trees.{typed_of};
ghost use Rattle.mob_eval.specs.Views.{scene_of};
ghost use Rattle.mob_list.specs.Faults.{OnCause};
ghost use Rattle.mob_value.specs.Held.{held};
ghost use Rattle.mob_tail.specs.Aggregated.{leaves_out};
ghost use Rattle.mob_tail.specs.Groups.{column_on};
ghost use Rattle.mob_tail.specs.States.{IsStateWith};
ghost use Rattle.mob_tail.specs.GroupSteps.{column_seen, IsAggregateOn, IsColumnWith, IsMemoWith, FailsInMemos, first_of, IsStart, IsStartMemo, IsStartGroup, IsMemoKept};

use crate::adding::put;
use crate::columns::{Column, argument_on, column_on};
use crate::state::{State, nothing_yet, state_in, value_of};
use mob_eval::{Held, View};
use mob_list::fault::{Fault, fault_at};
use mob_outcome::fault::EvalFault;
use mob_tuples::Tuple;
use mob_typed::{Agg, TExpr};
use mob_value::Value;
use std::alloc::{AllocError, Global};
use std::mem::drop;

/// A column of the answer, with the state of its value for one group.
#[derive(Drop)]
pub struct GroupMemo<'a> {
    pub column: Column<'a>,
    pub state: State,
}

/// A group so far: its first tuple, if it has one, and the columns of the answer with the states of
/// their values.
#[derive(Drop)]
pub struct Group<'a> {
    pub first: Option<Tuple>,
    pub memos: Vec<GroupMemo<'a>>,
}

// Adds the argument of an aggregate on one more tuple.
fn argument_in(
    alloc: Global,
    agg: Agg,
    argument: Held<'_>,
    state: &mut State,
) -> Result<(), EvalFault>
    ensures value { IfOk result (λ _. IsStateWith (leaves_out agg.kind (held argument.entry)) agg.kind agg.ty state.old (held argument.entry) (Ok state.new)) }
    ensures fault { IfErr result (OnCause (λ f. (f.0 ≡ agg.place) × IsStateWith (leaves_out agg.kind (held argument.entry)) agg.kind agg.ty state.old (held argument.entry) (Err (Fault.Because f.1)))) }
{
    let more = state_in(alloc, agg, state, argument.get());
    drop(argument);
    match more {
        Ok(()) => Ok(()),
        Err(fault) => Err(fault_at(agg.place, fault)),
    }
}

// Adds one more tuple to an aggregate.
fn aggregate_on(
    alloc: Global,
    agg: Agg,
    e: &TExpr,
    view: &View<'_>,
    state: &mut State,
) -> Result<(), EvalFault>
    ensures value { IfOk result (λ _. IsAggregateOn (scene_of view.now) (typed_of e.now) agg state.old (Ok state.new)) }
    ensures fault { IfErr result (OnCause (λ f. IsAggregateOn (scene_of view.now) (typed_of e.now) agg state.old (Err f))) }
{
    let argument = argument_on(alloc, agg.kind, e, view)?;
    argument_in(alloc, agg, argument, state)
}

// Replaces the state of a column by its value on a tuple.
fn plain_on(alloc: Global, e: &TExpr, view: &View<'_>, state: &mut State) -> Result<(), EvalFault>
    ensures value { IfOk result (λ _. state.new ≡ State.Whole (column_on (scene_of view.now) (typed_of e.now))) }
    ensures memory { IfErr result (λ e. e ≡ Fault.NoMemory) }
{
    let held = column_on(alloc, e, view)?;
    let value = held.own(alloc)?;
    put(state, State::Whole(value));
    Ok(())
}

// Adds one more tuple, the first of its group or a later one, to a memo.
fn memo_with(
    alloc: Global,
    memo: &mut GroupMemo<'_>,
    view: &View<'_>,
    is_first: bool,
) -> Result<(), EvalFault>
    ensures with { IfOk result (λ _. IsMemoWith (scene_of view.now) is_first memo.old memo.new) }
    ensures fault { IfErr result (OnCause (λ f. IsColumnWith (scene_of view.now) (column_seen memo.old.column) memo.old.state is_first (Err f))) }
{
    let column = memo.column;
    match column.agg {
        Some(agg) => aggregate_on(alloc, agg, column.expression, view, &mut memo.state),
        None => {
            if is_first {
                plain_on(alloc, column.expression, view, &mut memo.state)
            } else {
                Ok(())
            }
        }
    }
}

// Adds one more tuple to each memo, or returns the first fault.
fn memos_with(
    alloc: Global,
    memos: &mut Vec<GroupMemo<'_>>,
    view: &View<'_>,
    is_first: bool,
) -> Result<(), EvalFault>
    ensures with { IfOk result (λ _. AllZip (IsMemoWith (scene_of view.now) is_first) memos.old.items memos.new.items) }
    ensures fault { IfErr result (OnCause (λ f. FailsInMemos (scene_of view.now) is_first memos.old.items f)) }
{
    for number in 0..memos.len() {
        memo_with(alloc, &mut memos[number], view, is_first)?;
    }
    Ok(())
}

// The first tuple of a group with one more tuple.
fn first_with(first: &Option<Tuple>, tuple: &Tuple) -> Tuple
    ensures first { (group : _) → first.now ≡ first_of group → Some result ≡ first_of (group ++ tuple.now ∷ []) }
{
    match first {
        Some(first) => first.copy(),
        None => tuple.copy(),
    }
}

/// Adds one more tuple to a group, or returns the first fault.
pub fn group_with(
    alloc: Global,
    group: &mut Group<'_>,
    tuple: &Tuple,
    view: &View<'_>,
) -> Result<(), EvalFault>
    ensures first { (tuples : _) → group.old.first ≡ first_of tuples → group.new.first ≡ first_of (tuples ++ tuple.now ∷ []) }
    ensures with { IfOk result (λ _. AllZip (IsMemoWith (scene_of view.now) (is_none group.old.first)) group.old.memos.items group.new.memos.items) }
    ensures fault { IfErr result (OnCause (λ f. FailsInMemos (scene_of view.now) (is_none group.old.first) group.old.memos.items f)) }
{
    let is_first = group.first.is_none();
    group.first = Some(first_with(&group.first, tuple));
    memos_with(alloc, &mut group.memos, view, is_first)
}

// The state of a column for a group without tuples.
fn start_of(alloc: Global, column: &Column<'_>) -> State
    ensures start { IsStart (column_seen column.now) result }
{
    match column.agg {
        Some(agg) => nothing_yet(alloc, agg.kind),
        None => State::Whole(Value::Null),
    }
}

// The memos of a group without tuples.
fn no_memos<'a>(alloc: Global, columns: &[Column<'a>]) -> Result<Vec<GroupMemo<'a>>, AllocError>
    ensures start { IfOk result (λ memos. AllZip IsStartMemo columns.now memos.items) }
{
    let mut memos = Vec::with_capacity(alloc, columns.len())?;
    for column in columns {
        memos.push(GroupMemo {
            column: *column,
            state: start_of(alloc, column),
        })?;
    }
    Ok(memos)
}

/// `count` groups without tuples.
pub fn no_groups<'a>(
    alloc: Global,
    columns: &[Column<'a>],
    count: usize,
) -> Result<Vec<Group<'a>>, AllocError>
    ensures start { IfOk result (λ groups. AllByRecursion (IsStartGroup columns.now) groups.items) }
    ensures count { IfOk result (λ groups. length groups.items ≡ count) }
{
    let mut groups = Vec::with_capacity(alloc, count)?;
    for _ in 0..count {
        let memos = no_memos(alloc, columns)?;
        groups.push(Group { first: None, memos })?;
    }
    Ok(groups)
}

/// The values of the columns of a group.
pub fn values_of(alloc: Global, memos: Vec<GroupMemo<'_>>) -> Result<Vec<Value>, AllocError>
    ensures values { (all : _) → AllZip IsMemoKept all memos.entry.items → IfOk result (λ values. values.items ≡ all) }
{
    let mut values = Vec::with_capacity(alloc, memos.len())?;
    for memo in memos {
        values.push(value_of(alloc, memo.state)?)?;
    }
    Ok(values)
}
