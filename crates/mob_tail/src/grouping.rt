//! The groups of the tuples that a grouped query keeps, and their rows.
ghost use Rattle.std.specs.Prelude.{◌≡◌, ◌<◌, ◌^◌, IfOk, IfErr, Some, None, [], cond, map, length, slice_get};
ghost use Rattle.std.specs.List.{AllZip};
ghost use Rattle.mob_typed.specs.Trees.{typed_of};
ghost use Rattle.mob_typed.specs.Selects.{select_seen};
ghost use Rattle.mob_literal.specs.Fields.{field_text};
ghost use Rattle.mob_groups.specs.Groups.{first_keys, group_number};
ghost use Rattle.mob_eval.specs.Views.{scene_of};
ghost use Rattle.mob_list.specs.Faults.{OnCause};
ghost use Rattle.mob_tail.specs.Groups.{column_on, same_texts, group_fields, has_groups, groups_on, first_value};
ghost use Rattle.mob_value.specs.Null.{value_or_null};
ghost use Rattle.mob_tail.specs.GroupedAnswers.{columns_of, answer_item, answer_key, keys_from, IsColumnValue, IsGroupedFault};
ghost use Rattle.mob_tail.specs.AnswerRows.{IsGroupRowOf};
ghost use Rattle.mob_arrange.specs.RowValues.{row_value};
ghost use Rattle.mob_arrange.specs.TextsSeen.{texts_of};
ghost use Rattle.mob_tail.specs.GroupSteps.{first_of, IsGroupOf, AreGroupsOf, keys_on, number_on};

use crate::columns::{column_on, columns_of, is_bare};
use crate::group_memos::{Group, group_with, no_groups, values_of};
use mob_arrange::{Row, RowValue};
use mob_eval::{QueryFault, View, fault_on};
use mob_groups::{Groups, numbered};
use mob_list::fault::Fault;
use mob_list::items::Items;
use mob_list::text::Text;
use mob_literal::write_field;
use mob_meaning::Terms;
use mob_records::bytes_of;
use mob_scalar::Epoch;
use mob_tuples::Tuple;
use mob_typed::{TExpr, TypedSelect};
use mob_value::{Store, Value};
use std::alloc::{AllocError, Global};
use std::mem::drop;

// The printed field of a value.
fn text_of(alloc: Global, value: &Value, epoch: &Epoch) -> Result<Text, AllocError>
    ensures text { IfOk result (λ text. text ≡ field_text epoch.now value.now) }
{
    let mut text = String::new(alloc);
    write_field(value, epoch, &mut text)?;
    Ok(Text::from_string(text))
}

// The printed field of a column on a tuple.
fn field_on(alloc: Global, column: &TExpr, view: &View<'_>) -> Result<Text, AllocError>
    ensures field { IfOk result (λ text. text ≡ field_text view.now.terms.now.epoch (column_on (scene_of view.now) (typed_of column.now))) }
{
    let held = column_on(alloc, column, view)?;
    let text = text_of(alloc, held.get(), &view.terms.epoch);
    drop(held);
    text
}

// The printed fields of columns on a tuple.
fn fields_on(alloc: Global, columns: &[TExpr], view: &View<'_>) -> Result<Items<Text>, AllocError>
    ensures fields { IfOk result (λ fields. fields ≡ map (λ g. field_text view.now.terms.now.epoch (column_on (scene_of view.now) g)) (map typed_of columns.now)) }
{
    let mut fields = Vec::with_capacity(alloc, columns.len())?;
    for column in columns {
        fields.push(field_on(alloc, column, view)?)?;
    }
    Ok(Items::from_vec(fields))
}

// The printed fields of the columns of GROUP BY on each tuple.
fn keys_of(
    alloc: Global,
    select: &TypedSelect,
    store: &Store,
    kept: &[Tuple],
    terms: &Terms,
) -> Result<Vec<Items<Text>>, AllocError>
    ensures keys { IfOk result (λ keys. keys.items ≡ map (group_fields (select_seen select.now) store.now terms.now) kept.now) }
{
    let mut keys = Vec::with_capacity(alloc, kept.len())?;
    for tuple in kept {
        let view = View {
            store,
            from: select.from.as_slice(),
            tuple: tuple.as_slice(),
            terms,
        };
        keys.push(fields_on(alloc, select.groups.as_slice(), &view)?)?;
    }
    Ok(keys)
}

// The texts of each key.
fn references<'a>(alloc: Global, keys: &'a [Items<Text>]) -> Result<Vec<Vec<&'a [u8]>>, AllocError>
    ensures same { IfOk result (λ v. map texts_of v.items ≡ keys.now) }
{
    let mut all = Vec::with_capacity(alloc, keys.len())?;
    for key in keys {
        all.push(bytes_of(alloc, key.as_slice())?)?;
    }
    Ok(all)
}

// The number of the group of each entry with these fields, and how many groups there are.
fn numbers_of(alloc: Global, keys: &[Items<Text>]) -> Result<Groups, AllocError>
    ensures numbers { IfOk result (λ r. r.numbers.items ≡ map (group_number same_texts keys.now) keys.now) }
    ensures groups { IfOk result (λ r. r.groups ≡ length (first_keys same_texts keys.now)) }
{
    let all = references(alloc, keys)?;
    numbered(alloc, all)
}

// How many groups there are; without GROUP BY one, even if no tuple is kept.
fn count_of(select: &TypedSelect, groups: usize) -> usize
    ensures count { result ≡ cond (has_groups (select_seen select.now)) groups 1 }
{
    if is_bare(select.groups.as_slice()) {
        1
    } else {
        groups
    }
}

// Adds each tuple to its group, or returns the first fault.
fn grouped_tuples(
    alloc: Global,
    select: &TypedSelect,
    store: &Store,
    kept: &[Tuple],
    terms: &Terms,
    numbers: &[usize],
    groups: &mut Vec<Group<'_>>,
) -> Result<(), QueryFault>
    requires few { length kept.now < 2 ^ 62 }
    requires numbered { numbers.now ≡ map (number_on (select_seen select.now) store.now terms.now kept.now) kept.now }
    requires start { AreGroupsOf (select_seen select.now) store.now terms.now (keys_on (select_seen select.now) store.now terms.now kept.now) [] groups.old.items }
    ensures groups { IfOk result (λ _. AreGroupsOf (select_seen select.now) store.now terms.now (keys_on (select_seen select.now) store.now terms.now kept.now) kept.now groups.new.items) }
    ensures fits { IfOk result (λ _. IsGroupedFault (select_seen select.now) store.now terms.now kept.now None) }
    ensures fault { IfErr result (OnCause (λ f. IsGroupedFault (select_seen select.now) store.now terms.now kept.now (Some f))) }
{
    for (place, tuple) in kept.iter().enumerate() {
        let view = View {
            store,
            from: select.from.as_slice(),
            tuple: tuple.as_slice(),
            terms,
        };
        match group_with(alloc, &mut groups[numbers[place]], tuple, &view) {
            Ok(()) => {}
            Err(fault) => return Err(fault_on(tuple, fault)),
        }
    }
    Ok(())
}

// Values as the values of a row.
fn row_values<'a>(alloc: Global, values: Vec<Value>) -> Result<Items<RowValue<'a>>, AllocError>
    ensures values { IfOk result (λ held. map row_value held ≡ values.items) }
{
    let mut held = Vec::with_capacity(alloc, values.len())?;
    for value in values {
        held.push(RowValue::made(alloc, value)?)?;
    }
    Ok(Items::from_vec(held))
}

// The number of the column that a key refers to, if any.
fn item_of(numbers: &[Option<u32>], key: usize) -> Option<u32>
    ensures item { result ≡ answer_item numbers.now key }
{
    match numbers.get(key) {
        Some(number) => *number,
        None => None,
    }
}

// The value of the column of this number; NULL if there is none.
fn item_value(alloc: Global, values: &[Value], number: u32) -> Result<Value, AllocError>
    ensures value { IfOk result (λ v. v ≡ value_or_null (slice_get values.now number)) }
{
    match values.get(number as usize) {
        Some(value) => value.copy(alloc),
        None => Ok(Value::Null),
    }
}

// The value of a column on the first tuple of a group; NULL if the group has none.
fn first_value(
    alloc: Global,
    select: &TypedSelect,
    store: &Store,
    first: &Option<Tuple>,
    e: &TExpr,
    terms: &Terms,
) -> Result<Value, AllocError>
    ensures value { (tuples : _) → first.now ≡ first_of tuples → IfOk result (λ v. v ≡ first_value (select_seen select.now) store.now terms.now tuples (typed_of e.now)) }
{
    let Some(tuple) = first else {
        return Ok(Value::Null);
    };
    let view = View {
        store,
        from: select.from.as_slice(),
        tuple: tuple.as_slice(),
        terms,
    };
    column_on(alloc, e, &view)?.own(alloc)
}

// The value of a key for a group whose columns have these values.
fn key_value(
    alloc: Global,
    select: &TypedSelect,
    store: &Store,
    first: &Option<Tuple>,
    columns: &[Value],
    number: usize,
    key: &TExpr,
    terms: &Terms,
) -> Result<Value, AllocError>
    ensures value { (tuples : _) → first.now ≡ first_of tuples → IfOk result (λ v. v ≡ answer_key (select_seen select.now) store.now terms.now tuples columns.now (typed_of key.now) (answer_item (select_seen select.now).key_items number)) }
{
    match item_of(select.key_items.as_slice(), number) {
        Some(item) => item_value(alloc, columns, item),
        None => first_value(alloc, select, store, first, key, terms),
    }
}

// The values of the keys for a group whose columns have these values.
fn key_values(
    alloc: Global,
    select: &TypedSelect,
    store: &Store,
    first: &Option<Tuple>,
    columns: &[Value],
    terms: &Terms,
) -> Result<Items<Value>, AllocError>
    ensures values { (tuples : _) → first.now ≡ first_of tuples → IfOk result (λ values. values ≡ keys_from (select_seen select.now) store.now terms.now tuples columns.now 0 (select_seen select.now).keys) }
{
    let keys = select.keys.as_slice();
    let mut values = Vec::with_capacity(alloc, keys.len())?;
    for (number, key) in keys.iter().enumerate() {
        values.push(key_value(alloc, select, store, first, columns, number, &key.0, terms)?)?;
    }
    Ok(Items::from_vec(values))
}

// The row of a group whose columns have these values.
fn row_with<'a>(
    alloc: Global,
    select: &TypedSelect,
    store: &Store,
    first: &Option<Tuple>,
    columns: Vec<Value>,
    terms: &Terms,
) -> Result<Row<'a>, AllocError>
    ensures row { (tuples : _) → first.now ≡ first_of tuples → AllZip (IsColumnValue (select_seen select.now) store.now terms.now tuples) (columns_of (select_seen select.now)) columns.items → IfOk result (λ row. IsGroupRowOf (select_seen select.now) store.now terms.now tuples row) }
{
    let keys = key_values(alloc, select, store, first, columns.as_slice(), terms)?;
    let keys = row_values(alloc, keys.into_vec())?;
    let fields = row_values(alloc, columns)?;
    Row::new(keys, fields)
}

// The row of a group.
fn row_of<'a>(
    alloc: Global,
    select: &TypedSelect,
    store: &Store,
    group: Group<'_>,
    terms: &Terms,
) -> Result<Row<'a>, AllocError>
    ensures row { (tuples : _) → IsGroupOf (select_seen select.now) store.now terms.now tuples group.entry → IfOk result (λ row. IsGroupRowOf (select_seen select.now) store.now terms.now tuples row) }
{
    let Group { first, memos } = group;
    let columns = values_of(alloc, memos)?;
    row_with(alloc, select, store, &first, columns, terms)
}

// The rows of groups in order.
fn rows_of<'a>(
    alloc: Global,
    select: &TypedSelect,
    store: &Store,
    groups: Vec<Group<'_>>,
    terms: &Terms,
) -> Result<Vec<Row<'a>>, AllocError>
    ensures rows { (all : _) → AllZip (IsGroupOf (select_seen select.now) store.now terms.now) all groups.entry.items → IfOk result (λ rows. AllZip (IsGroupRowOf (select_seen select.now) store.now terms.now) all rows.items) }
{
    let mut rows = Vec::with_capacity(alloc, groups.len())?;
    for group in groups {
        rows.push(row_of(alloc, select, store, group, terms)?)?;
    }
    Ok(rows)
}

// The numbers of the groups of the tuples, and how many groups there are.
fn groups_of(
    alloc: Global,
    select: &TypedSelect,
    store: &Store,
    kept: &[Tuple],
    terms: &Terms,
) -> Result<Groups, AllocError>
    ensures numbers { IfOk result (λ r. r.numbers.items ≡ map (number_on (select_seen select.now) store.now terms.now kept.now) kept.now) }
    ensures groups { IfOk result (λ r. r.groups ≡ length (keys_on (select_seen select.now) store.now terms.now kept.now)) }
{
    let keys = keys_of(alloc, select, store, kept, terms)?;
    let found = numbers_of(alloc, keys.as_slice())?;
    Ok(Groups {
        groups: count_of(select, found.groups),
        numbers: found.numbers,
    })
}

// Groups without tuples, and the number of the group of each tuple.
fn begun<'a>(
    alloc: Global,
    select: &'a TypedSelect,
    store: &Store,
    kept: &[Tuple],
    terms: &Terms,
) -> Result<(Vec<usize>, Vec<Group<'a>>), AllocError>
    ensures numbers { IfOk result (λ r. r.0.items ≡ map (number_on (select_seen select.now) store.now terms.now kept.now) kept.now) }
    ensures groups { IfOk result (λ r. AreGroupsOf (select_seen select.now) store.now terms.now (keys_on (select_seen select.now) store.now terms.now kept.now) [] r.1.items) }
{
    let columns = columns_of(alloc, select.items.as_slice(), select.aggs.as_slice())?;
    let found = groups_of(alloc, select, store, kept, terms)?;
    let groups = no_groups(alloc, columns.as_slice(), found.groups)?;
    Ok((found.numbers, groups))
}

/// The rows of the groups of these tuples, in the order of their first tuples, or the first fault.
/// On each tuple, column by column, the argument of an aggregate is evaluated, then added to those
/// of the earlier tuples of the group.
pub fn grouped_rows<'a>(
    alloc: Global,
    select: &TypedSelect,
    store: &Store,
    kept: &[Tuple],
    terms: &Terms,
) -> Result<Vec<Row<'a>>, QueryFault>
    ensures rows { IfOk result (λ rows. AllZip (IsGroupRowOf (select_seen select.now) store.now terms.now) (groups_on (select_seen select.now) store.now terms.now kept.now) rows.items) }
    ensures fits { IfOk result (λ _. IsGroupedFault (select_seen select.now) store.now terms.now kept.now None) }
    ensures fault { IfErr result (OnCause (λ f. IsGroupedFault (select_seen select.now) store.now terms.now kept.now (Some f))) }
{
    let Ok((numbers, mut groups)) = begun(alloc, select, store, kept, terms) else {
        return Err(Fault::NoMemory);
    };
    grouped_tuples(
        alloc,
        select,
        store,
        kept,
        terms,
        numbers.as_slice(),
        &mut groups,
    )?;
    Ok(rows_of(alloc, select, store, groups, terms)?)
}
