//! A row of an answer before it is printed.
ghost use Rattle.std.specs.Prelude.{◌≡◌, ◌++◌, IfOk, IfSome, drop, length, map};
ghost use Rattle.mob_arrange.specs.Order.{first_key};
ghost use Rattle.mob_arrange.specs.RowValues.{row_value};
ghost use Rattle.mob_arrange.specs.FoundValue.{found_value};

use crate::found::FoundValue;
use crate::listed::Listed;
use crate::numbers::Numbers;
use crate::row_values::RowValue;
use mob_list::items::Items;
use std::alloc::AllocError;
use std::marker::Model;

/// How a row holds its values.
#[derive(Drop)]
pub enum RowForm<'a> {
    /// In the row itself: at most four, all of them numbers.
    Numbers(Numbers),
    /// In a list.
    Listed(Listed<'a>),
}

/// A row of an answer: the values of its keys, then those of its fields. Contracts see the list of
/// these values.
///
/// A row of at most four numbers holds them itself, so it is sorted and printed without access to
/// other memory.
#[derive(Drop)]
pub struct Row<'a> {
    form: RowForm<'a>,
}

impl<'a> Model for Row<'a> {
    ghost use Rattle.std.specs.Prelude.{List};
    ghost use Rattle.mob_value.specs.declared.value.Value.{Value as SqlValue};
    ghost use Rattle.mob_arrange.specs.RowForms.{form_values};

    ghost Value = { List SqlValue };

    ghost view = { λ r. form_values r.form };
}

// The values of keys and fields, if there are at most four and all are numbers.
fn numbers_of(keys: &[RowValue<'_>], fields: &[RowValue<'_>]) -> Option<Numbers>
    ensures numbers { IfSome result (λ numbers. numbers ≡ map row_value keys.now ++ map row_value fields.now) }
{
    let mut numbers = Numbers::new();
    if !numbers.push_all(keys) {
        return None;
    }
    if !numbers.push_all(fields) {
        return None;
    }
    Some(numbers)
}

// The number at a place.
fn number_at(numbers: &Numbers, place: usize) -> FoundValue<'_>
    ensures value { found_value result ≡ first_key (drop place numbers.now) }
{
    match numbers.get(place) {
        Some(number) => FoundValue::Number(number),
        None => FoundValue::Nothing,
    }
}

// The value at a place.
fn value_at<'a>(values: &'a [RowValue<'_>], place: usize) -> FoundValue<'a>
    ensures value { found_value result ≡ first_key (drop place (map row_value values.now)) }
{
    if place < values.len() {
        FoundValue::Value(values[place].get())
    } else {
        FoundValue::Nothing
    }
}

impl<'a> Row<'a> {
    /// The row of these keys and fields. The only error is a failed allocation.
    pub fn new(
        keys: Items<RowValue<'a>>,
        fields: Items<RowValue<'a>>,
    ) -> Result<Row<'a>, AllocError>
        ensures values { IfOk result (λ row. row ≡ map row_value keys.entry ++ map row_value fields.entry) }
    {
        if let Some(numbers) = numbers_of(keys.as_slice(), fields.as_slice()) {
            return Ok(Row {
                form: RowForm::Numbers(numbers),
            });
        }
        Ok(Row {
            form: RowForm::Listed(Listed::new(keys, fields)?),
        })
    }

    /// How many values it has.
    pub fn len(&self) -> usize
        ensures count { result ≡ length self.now }
    {
        match &self.form {
            RowForm::Numbers(numbers) => numbers.len(),
            RowForm::Listed(listed) => listed.values().len(),
        }
    }

    /// The value at a place from 0.
    pub fn get(&self, place: usize) -> FoundValue<'_>
        ensures value { found_value result ≡ first_key (drop place self.now) }
    {
        match &self.form {
            RowForm::Numbers(numbers) => number_at(numbers, place),
            RowForm::Listed(listed) => value_at(listed.values(), place),
        }
    }

    /// The values, if they are in a list.
    pub fn listed(&self) -> Option<&Listed<'a>>
        ensures same { IfSome result (λ listed. listed.now ≡ self.now) }
    {
        match &self.form {
            RowForm::Numbers(_) => None,
            RowForm::Listed(listed) => Some(listed),
        }
    }
}
