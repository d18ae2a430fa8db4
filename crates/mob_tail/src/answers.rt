//! The answer of a query.
ghost use Rattle.std.specs.Prelude.{◌≡◌, ◌++◌, Ok, Err, IfOk, IfErr, map};
ghost use Rattle.mob_typed.specs.Selects.{select_seen, output_of, key_seen};
ghost use Rattle.mob_list.specs.Faults.{OnCause};
ghost use Rattle.mob_arrange.specs.RowsText.{IsTextOfArranged};
ghost use Rattle.mob_tail.specs.AnswerRows.{falls_of, answer_row};
ghost use Rattle.mob_tail.specs.AnswerTexts.{answer_names, IsAnswerText};
ghost use Rattle.mob_tail.specs.Answers.{IsPlainAnswer, IsAnswerOnKept};
ghost use Rattle.mob_tail.specs.GroupedAnswers.{IsGroupedAnswer};
ghost use Rattle.mob_eval.specs.Remembered.{root_seen};
ghost use Rattle.mob_tail.specs.Recalling.{AnswerFits, answer_recollection, item_trees, order_trees};

use crate::evaluation::rows_on;
use crate::grouping::grouped_rows;
use crate::roots::roots_of;
use mob_arrange::{Row, arranged_text};
use mob_eval::{Memory, QueryFault, Remembering, memory_of};
use mob_list::fault::Fault;
use mob_list::items::Items;
use mob_list::text::Text;
use mob_meaning::Terms;
use mob_scalar::Epoch;
use mob_tuples::Tuple;
use mob_typed::{TExpr, TypedSelect};
use mob_value::Store;
use std::alloc::{AllocError, Global};
use std::marker::Brand;

// The names of the columns.
fn names_of(alloc: Global, items: &[(TExpr, Text)]) -> Result<Items<Text>, AllocError>
    ensures names { IfOk result (λ names. names ≡ map (λ item. item.1) (map output_of items.now)) }
{
    let mut names = Items::new(alloc);
    for item in items {
        names.push(item.1.copy(alloc)?)?;
    }
    Ok(names)
}

// For each key, whether it is descending.
fn falls_of(alloc: Global, keys: &[(TExpr, bool)]) -> Result<Vec<bool>, AllocError>
    ensures falls { IfOk result (λ falls. falls.items ≡ map (λ key. key.1) (map key_seen keys.now)) }
{
    let mut falls = Vec::new(alloc);
    for key in keys {
        falls.push(key.1)?;
    }
    Ok(falls)
}

// The text of the answer from its rows.
fn text_of(
    alloc: Global,
    select: &TypedSelect,
    rows: Vec<Row<'_>>,
    epoch: &Epoch,
) -> Result<Vec<u8>, AllocError>
    ensures text { IfOk result (λ text. IsTextOfArranged (answer_names (select_seen select.now)) (falls_of (select_seen select.now)) select.now.distinct select.now.limit (map (answer_row (select_seen select.now) epoch.now) rows.entry.items) text.items) }
{
    let names = names_of(alloc, select.items.as_slice())?;
    let falls = falls_of(alloc, select.keys.as_slice())?;
    arranged_text(
        alloc,
        names.as_slice(),
        falls.as_slice(),
        select.distinct,
        select.limit,
        rows,
        epoch,
    )
}

// The answer of a query that is not grouped on the tuples that it keeps, or its first fault, with a
// memory for the operators of its select list and its keys.
fn answer_on<K: Remembering>(
    alloc: Global,
    select: &TypedSelect,
    roots: &[&TExpr],
    store: &Store,
    kept: &[Tuple],
    terms: &Terms,
    memory: &Memory<K>,
) -> Result<Vec<u8>, QueryFault>
    requires roots { map root_seen roots.now ≡ item_trees (select_seen select.now) ++ order_trees (select_seen select.now) }
    requires fits { AnswerFits K.recollection (select_seen select.now) store.now terms.now }
    ensures text { IfOk result (λ text. IsAnswerText (select_seen select.now) (IsPlainAnswer (select_seen select.now) store.now terms.now kept.now) text.items) }
    ensures fault { IfErr result (OnCause (λ f. IsPlainAnswer (select_seen select.now) store.now terms.now kept.now (Err f))) }
{
    let (items, keys) = roots.split_at(select.items.len());
    match rows_on(
        alloc,
        select,
        items,
        keys,
        store,
        kept,
        terms,
        memory.in_use(),
    ) {
        Ok(rows) => Ok(text_of(alloc, select, rows, &terms.epoch)?),
        Err(fault) => Err(fault),
    }
}

// The text of a plain answer, with a memory made for it.
fn answer_with<K: Remembering>(
    alloc: Global,
    select: &TypedSelect,
    store: &Store,
    kept: &[Tuple],
    terms: &Terms,
) -> Result<Vec<u8>, QueryFault>
    requires recollection { K.recollection ≡ answer_recollection (select_seen select.now) store.now terms.now }
    ensures text { IfOk result (λ text. IsAnswerText (select_seen select.now) (IsPlainAnswer (select_seen select.now) store.now terms.now kept.now) text.items) }
    ensures fault { IfErr result (OnCause (λ f. IsPlainAnswer (select_seen select.now) store.now terms.now kept.now (Err f))) }
{
    let Ok(all) = roots_of(alloc, select) else {
        return Err(Fault::NoMemory);
    };
    let roots = all.as_slice();
    let memory = memory_of::<K>(alloc, terms.mode, store, select.from.as_slice(), roots);
    answer_on(alloc, select, roots, store, kept, terms, &memory)
}

// The text of a plain answer. It chooses what the memory remembers.
fn plain_answer(
    alloc: Global,
    select: &TypedSelect,
    store: &Store,
    kept: &[Tuple],
    terms: &Terms,
) -> Result<Vec<u8>, QueryFault>
    ensures text { IfOk result (λ text. IsAnswerText (select_seen select.now) (IsPlainAnswer (select_seen select.now) store.now terms.now kept.now) text.items) }
    ensures fault { IfErr result (OnCause (λ f. IsPlainAnswer (select_seen select.now) store.now terms.now kept.now (Err f))) }
{
    answer_with::<Brand>(alloc, select, store, kept, terms)
}

// The answer of a grouped query on the tuples that it keeps, or its first fault.
fn grouped_answer(
    alloc: Global,
    select: &TypedSelect,
    store: &Store,
    kept: &[Tuple],
    terms: &Terms,
) -> Result<Vec<u8>, QueryFault>
    ensures text { IfOk result (λ text. IsAnswerText (select_seen select.now) (IsGroupedAnswer (select_seen select.now) store.now terms.now kept.now) text.items) }
    ensures fault { IfErr result (OnCause (λ f. IsGroupedAnswer (select_seen select.now) store.now terms.now kept.now (Err f))) }
{
    match grouped_rows(alloc, select, store, kept, terms) {
        Ok(rows) => Ok(text_of(alloc, select, rows, &terms.epoch)?),
        Err(fault) => Err(fault),
    }
}

/// The text of the answer of a query on the tuples that it keeps, or the first fault on these
/// tuples in order. Nothing is printed before all of them are evaluated.
///
/// In a query that is not grouped, the select list is evaluated on each tuple from left to right,
/// then the keys of ORDER BY. In a grouped query, the argument of each aggregate is evaluated and
/// added on each tuple. Each group gives one row, in the order of the first tuples of the groups;
/// without GROUP BY there is one group, even if no tuple is kept.
///
/// The rows are then sorted by the keys. Under ASC numbers ascend, texts are in the order of their
/// bytes, false comes before true, and NULL comes last. DESC reverses this, so NULL comes first.
/// Rows with equal keys keep their order. DISTINCT keeps the first of the rows with equal fields,
/// and LIMIT cuts the result.
pub fn answered_text(
    alloc: Global,
    select: &TypedSelect,
    store: &Store,
    kept: &[Tuple],
    terms: &Terms,
) -> Result<Vec<u8>, QueryFault>
    ensures text { IfOk result (λ text. IsAnswerText (select_seen select.now) (IsAnswerOnKept (select_seen select.now) store.now terms.now kept.now) text.items) }
    ensures fault { IfErr result (OnCause (λ f. IsAnswerOnKept (select_seen select.now) store.now terms.now kept.now (Err f))) }
{
    if select.grouped {
        grouped_answer(alloc, select, store, kept, terms)
    } else {
        plain_answer(alloc, select, store, kept, terms)
    }
}
