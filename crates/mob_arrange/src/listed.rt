//! A row with its values in a list.
ghost use Rattle.std.specs.Prelude.{◌≡◌, ◌++◌, IfOk, IfSome, map};
ghost use Rattle.mob_ratio.specs.Ratio.{whole};
ghost use Rattle.mob_value.specs.declared.value.Value.TheVariants.{Number};
ghost use Rattle.mob_arrange.specs.Order.{first_key, other_keys};
ghost use Rattle.mob_arrange.specs.RowValues.{row_value};
ghost use Rattle.mob_arrange.specs.FirstNumber.{unknown, KnowsFirst};

use crate::row_values::RowValue;
use mob_frac::Frac;
use mob_list::items::Items;
use mob_value::Value;
use std::alloc::AllocError;
use std::marker::Model;

// Marks a first value that is not a whole number. No fraction has this numerator.
const UNKNOWN: i64 = i64::MIN;

/// A row with its values in a list, which contracts see.
///
/// The first value, if it is a whole number, is also outside the list, and so is the second. So
/// most rows are sorted without access to their lists.
#[derive(Drop)]
pub struct Listed<'a> {
    values: Items<RowValue<'a>>,
    first: i64,
    second: i64,
}

impl<'a> Model for Listed<'a> {
    ghost use Rattle.std.specs.Prelude.{List, map};
    ghost use Rattle.mob_value.specs.declared.value.Value.{Value as SqlValue};
    ghost use Rattle.mob_arrange.specs.Order.{other_keys};
    ghost use Rattle.mob_arrange.specs.RowValues.{row_value};
    ghost use Rattle.mob_arrange.specs.FirstNumber.{KnowsFirst};

    ghost Value = { List SqlValue };

    ghost view = { λ r. map row_value r.values };

    ghost invariant = { λ r. KnowsFirst r.first (map row_value r.values) × KnowsFirst r.second (other_keys (map row_value r.values)) };
}

// The number itself if it is whole.
fn whole_part(number: &Frac) -> i64
    ensures whole { (result ≡ unknown → ⊥) → number.now ≡ whole result }
{
    if number.den() == 1 {
        number.num()
    } else {
        UNKNOWN
    }
}

// A value that is a whole number, as that number.
fn whole_number(value: &Value) -> i64
    ensures whole { (result ≡ unknown → ⊥) → value.now ≡ Number (whole result) }
{
    match value {
        Value::Number(number) => whole_part(number),
        _ => UNKNOWN,
    }
}

/// The values after the first one.
pub fn others<'a, 'b>(values: &'a [RowValue<'b>]) -> &'a [RowValue<'b>]
    ensures others { map row_value result.now ≡ other_keys (map row_value values.now) }
{
    if values.is_empty() {
        &values[values.len()..]
    } else {
        &values[1..]
    }
}

// The first of these values, if it is a whole number.
fn first_number(values: &[RowValue<'_>]) -> i64
    ensures known { KnowsFirst result (map row_value values.now) }
{
    match values.first() {
        Some(value) => whole_number(value.get()),
        None => UNKNOWN,
    }
}

// One list after another.
fn joined<T: Drop>(mut front: Vec<T>, mut back: Vec<T>) -> Result<Vec<T>, AllocError>
    ensures joined { IfOk result (λ all. all.items ≡ front.items ++ back.items) }
{
    front.append(&mut back)?;
    Ok(front)
}

impl<'a> Listed<'a> {
    /// A row with the values of these keys, then those of these fields. The only error is a failed
    /// allocation.
    pub fn new(
        keys: Items<RowValue<'a>>,
        fields: Items<RowValue<'a>>,
    ) -> Result<Listed<'a>, AllocError>
        ensures values { IfOk result (λ values. values ≡ map row_value keys.entry ++ map row_value fields.entry) }
    {
        let values = joined(keys.into_vec(), fields.into_vec())?;
        let first = first_number(values.as_slice());
        let second = first_number(others(values.as_slice()));
        Ok(Listed {
            values: Items::from_vec(values),
            first,
            second,
        })
    }

    /// The values of the keys, then those of the fields.
    pub fn values(&self) -> &[RowValue<'a>]
        ensures values { map row_value result.now ≡ self.now }
    {
        self.values.as_slice()
    }

    /// The first value if it is known to be a whole number.
    pub fn first(&self) -> Option<i64>
        ensures whole { IfSome result (λ n. first_key self.now ≡ Number (whole n)) }
    {
        if self.first == UNKNOWN {
            None
        } else {
            Some(self.first)
        }
    }

    /// The second value if it is known to be a whole number.
    pub fn second(&self) -> Option<i64>
        ensures whole { IfSome result (λ n. first_key (other_keys self.now) ≡ Number (whole n)) }
    {
        if self.second == UNKNOWN {
            None
        } else {
            Some(self.second)
        }
    }
}
