//! The rows of the kept tuples: the values of their fields and of their keys.
ghost use Rattle.std.specs.Prelude.{◌≡◌, ◌++◌, List, Ok, Err, IfOk, IfErr, MatchResult, map};
ghost use Rattle.std.specs.List.{AllByRecursion};
ghost use Rattle.mob_typed.specs.Selects.{select_seen};
ghost use Rattle.mob_meaning.specs.Scene.{scene};
ghost use Rattle.mob_eval.specs.Views.{scene_of};
ghost use Rattle.mob_value.specs.declared.value.Value.{Value as ValueOf};
ghost use Rattle.mob_value.specs.Held.{held};
ghost use Rattle.mob_list.specs.Faults.{OnCause};
ghost use Rattle.mob_eval.specs.Remembered.{Fits, root_seen};
ghost use Rattle.mob_meaning.specs.Evaluation.{TreeEvaluatesTo};
ghost use Rattle.mob_typed.specs.Trees.{typed_of};
ghost use Rattle.mob_arrange.specs.RowValues.{row_value};
ghost use Rattle.mob_tail.specs.AnswerRows.{answer_row};
ghost use Rattle.mob_tail.specs.IsMadeOfEach.{IsMadeOfEach};
ghost use Rattle.mob_tail.specs.Answers.{IsRowOf, IsTupleRow};
ghost use Rattle.mob_tail.specs.Evaluated.{AreEvaluated};
ghost use Rattle.mob_tail.specs.Recalling.{AnswerFits, SelectFits, item_trees, order_trees};

use mob_arrange::{Row, RowValue};
use mob_eval::{Held, Memory, QueryFault, Remembering, View, fault_on, value_with};
use mob_list::fault::Fault;
use mob_list::items::Items;
use mob_meaning::Terms;
use mob_outcome::fault::EvalFault;
use mob_tuples::Tuple;
use mob_typed::{TExpr, TypedSelect};
use mob_value::Store;
use std::alloc::Global;

// A value, lent or made.
fn lent<'a>(alloc: Global, found: Held<'a>) -> Result<RowValue<'a>, EvalFault>
    ensures value { MatchResult result (λ v. row_value v ≡ held found.entry) (λ e. e ≡ Fault.NoMemory) }
{
    match found {
        Held::Stored(value) => Ok(RowValue::Stored(value)),
        Held::Made(value) => Ok(RowValue::made(alloc, value)?),
    }
}

// The value of an expression. A stored or remembered value is not copied.
fn value_of<'a, K: Remembering>(
    alloc: Global,
    e: &TExpr,
    view: &View<'a>,
    memory: Option<&'a Memory<K>>,
) -> Result<RowValue<'a>, EvalFault>
    requires fits { Fits K.recollection (scene_of view.now) (typed_of e.now) }
    ensures value { IfOk result (λ v. TreeEvaluatesTo (scene_of view.now) (typed_of e.now) (Ok (row_value v))) }
    ensures fault { IfErr result (OnCause (λ f. TreeEvaluatesTo (scene_of view.now) (typed_of e.now) (Err f))) }
{
    let found = value_with(alloc, e, view, memory)?;
    lent(alloc, found)
}

// The values of several expressions, in order, or the first fault.
fn values_on<'a, K: Remembering>(
    alloc: Global,
    roots: &[&TExpr],
    view: &View<'a>,
    memory: Option<&'a Memory<K>>,
) -> Result<Items<RowValue<'a>>, EvalFault>
    requires fit { AllByRecursion (Fits K.recollection (scene_of view.now)) (map root_seen roots.now) }
    ensures values { IfOk result (λ vs. IsMadeOfEach (TreeEvaluatesTo (scene_of view.now)) (map root_seen roots.now) (Ok (map row_value vs))) }
    ensures fault { IfErr result (OnCause (λ f. IsMadeOfEach (TreeEvaluatesTo (scene_of view.now)) (map root_seen roots.now) (Err f))) }
{
    let Ok(mut made) = Vec::with_capacity(alloc, roots.len()) else {
        return Err(Fault::NoMemory);
    };
    for root in roots {
        let value = match value_of(alloc, *root, view, memory) {
            Ok(value) => value,
            Err(fault) => return Err(fault),
        };
        if made.push(value).is_err() {
            return Err(Fault::NoMemory);
        }
    }
    Ok(Items::from_vec(made))
}

// The row of these fields, with the values of the keys before them.
fn row_before<'a, K: Remembering>(
    alloc: Global,
    keys: &[&TExpr],
    view: &View<'a>,
    memory: Option<&'a Memory<K>>,
    fields: Items<RowValue<'a>>,
) -> Result<Row<'a>, EvalFault>
    requires fit { AllByRecursion (Fits K.recollection (scene_of view.now)) (map root_seen keys.now) }
    ensures row { IfOk result (λ row. (front : List ValueOf) × IsMadeOfEach (TreeEvaluatesTo (scene_of view.now)) (map root_seen keys.now) (Ok front) × (row ≡ front ++ map row_value fields.entry)) }
    ensures fault { IfErr result (OnCause (λ f. IsMadeOfEach (TreeEvaluatesTo (scene_of view.now)) (map root_seen keys.now) (Err f))) }
{
    match values_on(alloc, keys, view, memory) {
        Ok(front) => Ok(Row::new(front, fields)?),
        Err(fault) => Err(fault),
    }
}

// The values of the items, and those of the keys before them.
fn row_on<'a, K: Remembering>(
    alloc: Global,
    items: &[&TExpr],
    keys: &[&TExpr],
    view: &View<'a>,
    memory: Option<&'a Memory<K>>,
) -> Result<Row<'a>, EvalFault>
    requires fit { AllByRecursion (Fits K.recollection (scene_of view.now)) (map root_seen items.now) }
    requires fit_too { AllByRecursion (Fits K.recollection (scene_of view.now)) (map root_seen keys.now) }
    ensures row { IfOk result (λ row. AreEvaluated (scene_of view.now) (map root_seen items.now) (map root_seen keys.now) (Ok row)) }
    ensures fault { IfErr result (OnCause (λ f. AreEvaluated (scene_of view.now) (map root_seen items.now) (map root_seen keys.now) (Err f))) }
{
    let fields = values_on(alloc, items, view, memory)?;
    row_before(alloc, keys, view, memory, fields)
}

// The row of a tuple.
fn row_of<'a, K: Remembering>(
    alloc: Global,
    select: &'a TypedSelect,
    items: &[&TExpr],
    keys: &[&TExpr],
    store: &'a Store,
    tuple: &'a [u32],
    terms: &'a Terms,
    memory: Option<&'a Memory<K>>,
) -> Result<Row<'a>, EvalFault>
    requires items { map root_seen items.now ≡ item_trees (select_seen select.now) }
    requires keys { map root_seen keys.now ≡ order_trees (select_seen select.now) }
    requires fits { SelectFits K.recollection (select_seen select.now) (scene store.now select.now.from tuple.now terms.now) }
    ensures row { IfOk result (λ row. IsRowOf (select_seen select.now) (scene store.now select.now.from tuple.now terms.now) (Ok (answer_row (select_seen select.now) terms.now.epoch row))) }
    ensures fault { IfErr result (OnCause (λ f. IsRowOf (select_seen select.now) (scene store.now select.now.from tuple.now terms.now) (Err f))) }
{
    let view = View {
        store,
        from: select.from.as_slice(),
        tuple,
        terms,
    };
    row_on(alloc, items, keys, &view, memory)
}

/// The rows of these tuples, in order, or the first fault. On each tuple the expressions of the
/// select list are evaluated, then those of the keys. A memory gives the outcomes of operators that
/// it has. Values in the store or in the memory are not copied.
pub fn rows_on<'a, K: Remembering>(
    alloc: Global,
    select: &'a TypedSelect,
    items: &[&TExpr],
    keys: &[&TExpr],
    store: &'a Store,
    kept: &'a [Tuple],
    terms: &'a Terms,
    memory: Option<&'a Memory<K>>,
) -> Result<Vec<Row<'a>>, QueryFault>
    requires items { map root_seen items.now ≡ item_trees (select_seen select.now) }
    requires keys { map root_seen keys.now ≡ order_trees (select_seen select.now) }
    requires fits { AnswerFits K.recollection (select_seen select.now) store.now terms.now }
    ensures rows { IfOk result (λ rows. IsMadeOfEach (IsTupleRow (select_seen select.now) store.now terms.now) kept.now (Ok (map (answer_row (select_seen select.now) terms.now.epoch) rows.items))) }
    ensures fault { IfErr result (OnCause (λ f. IsMadeOfEach (IsTupleRow (select_seen select.now) store.now terms.now) kept.now (Err f))) }
{
    let Ok(mut rows) = Vec::with_capacity(alloc, kept.len()) else {
        return Err(Fault::NoMemory);
    };
    for tuple in kept {
        let row = match row_of(
            alloc,
            select,
            items,
            keys,
            store,
            tuple.as_slice(),
            terms,
            memory,
        ) {
            Ok(row) => row,
            Err(fault) => return Err(fault_on(tuple, fault)),
        };
        if rows.push(row).is_err() {
            return Err(Fault::NoMemory);
        }
    }
    Ok(rows)
}
