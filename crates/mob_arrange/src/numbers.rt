//! A row whose values are numbers, stored in the row itself.
ghost use Rattle.std.specs.Prelude.{◌≡◌, ◌≤◌, ◌++◌, ◌∷◌, [], MatchOption, drop, length, map, true};
ghost use Rattle.mob_value.specs.declared.value.Value.TheVariants.{Number};
ghost use Rattle.mob_arrange.specs.Order.{first_key};
ghost use Rattle.mob_arrange.specs.RowValues.{row_value};

use crate::row_values::RowValue;
use mob_frac::Frac;
use mob_value::Value;
use std::marker::Model;

/// At most four numbers, which contracts see as a list of values.
#[derive(Drop)]
pub struct Numbers {
    numbers: [Frac; 4],
    count: usize,
}

impl Model for Numbers {
    ghost use Rattle.std.specs.Prelude.{◌≤◌, List, map, take};
    ghost use Rattle.mob_value.specs.declared.value.Value.{Value as SqlValue};
    ghost use Rattle.mob_value.specs.declared.value.Value.TheVariants.{Number};

    ghost Value = { List SqlValue };

    ghost view = { λ n. map Number (take n.count n.numbers) };

    ghost invariant = { λ n. n.count ≤ 4 };
}

impl Numbers {
    /// No number.
    pub fn new() -> Numbers
        ensures none { result ≡ [] }
    {
        Numbers {
            numbers: [Frac::zero(); 4],
            count: 0,
        }
    }

    // The numbers in order.
    fn as_slice(&self) -> &[Frac]
        ensures same { map Number result.now ≡ self.now }
    {
        &self.numbers[..self.count]
    }

    /// How many there are.
    pub fn len(&self) -> usize
        ensures count { result ≡ length self.now }
    {
        self.as_slice().len()
    }

    /// The number at a place from 0, if there is one.
    pub fn get(&self, place: usize) -> Option<&Frac>
        ensures number { MatchOption result (length self.now ≤ place) (λ n. Number n.now ≡ first_key (drop place self.now)) }
    {
        if place < self.count {
            Some(&self.numbers[place])
        } else {
            None
        }
    }

    // Appends a number, if there is room.
    fn push_number(&mut self, number: &Frac) -> bool
        ensures pushed { result ≡ true → self.new ≡ self.old ++ Number number.now ∷ [] }
    {
        if self.count >= 4 {
            return false;
        }
        self.numbers[self.count] = *number;
        self.count += 1;
        true
    }

    // Appends a value, if it is a number and there is room.
    fn push(&mut self, value: &Value) -> bool
        ensures pushed { result ≡ true → self.new ≡ self.old ++ value.now ∷ [] }
    {
        match value {
            Value::Number(number) => self.push_number(number),
            _ => false,
        }
    }

    /// Appends values. Returns false if one is not a number or there is no room; some may be
    /// appended then.
    pub fn push_all(&mut self, values: &[RowValue<'_>]) -> bool
        ensures pushed { result ≡ true → self.new ≡ self.old ++ map row_value values.now }
    {
        for value in values {
            if !self.push(value.get()) {
                return false;
            }
        }
        true
    }
}
