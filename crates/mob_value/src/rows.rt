//! Rows of items in one allocation.
ghost use Rattle.std.specs.Prelude.{◌≡◌, ◌<◌, ◌≤◌, ◌++◌, ◌∷◌, ◌==◌, [], IfOk, IfSome, IsNone, OnErr, OnOk, drop, length, option_map, slice_get, slice_index_or, take};
ghost use Rattle.mob_value.specs.Cuts.{AreCuts, cut, start_at};

use mob_list::items::Items;
use std::alloc::{AllocError, Global};
use std::collections::VecDeque;
use std::marker::Model;

/// Rows of items. Contracts see the list of rows.
///
/// One allocation has the items of all rows, one row after the other, and a second one has the
/// positions at which rows end. So a row takes the memory of its items and of one number.
#[derive(Drop)]
pub struct Rows<T> {
    items: Vec<T>,
    ends: Vec<usize>,
}

impl<T> Model for Rows<T> {
    ghost use Rattle.std.specs.Prelude.{List, length};
    ghost use Rattle.mob_value.specs.Cuts.{AreCuts, cut};

    ghost Value = { List (List T) };

    ghost view = { λ r. cut 0 r.ends.items r.items.items };

    ghost invariant = { λ r. AreCuts 0 r.ends.items (length r.items.items) };
}

/// Rows to be taken out one by one, from the first. Contracts see the list of the remaining rows.
#[derive(Drop)]
pub struct RowsLeft<T> {
    items: VecDeque<T>,
    ends: VecDeque<usize>,
    start: usize,
}

impl<T> Model for RowsLeft<T> {
    ghost use Rattle.std.specs.Prelude.{List};
    ghost use Rattle.mob_value.specs.Cuts.{cut};

    ghost Value = { List (List T) };

    ghost view = { λ r. cut r.start r.ends.items r.items.items };
}

// The position at which the row with this number begins.
fn start_of(ends: &[usize], number: usize) -> usize
    requires there { number < length ends.now }
    ensures start { result ≡ start_at 0 ends.now number }
{
    if number == 0 {
        return 0;
    }
    ends[number - 1]
}

// The positions at which the row with this number begins and ends.
fn bounds_of(ends: &[usize], most: usize, number: usize) -> (usize, usize)
    requires cuts { AreCuts 0 ends.now most }
    requires there { number < length ends.now }
    ensures start { result.0 ≡ start_at 0 ends.now number }
    ensures end { result.1 ≡ slice_index_or ends.now number 0 }
    ensures order { result.0 ≤ result.1 }
    ensures within { result.1 ≤ most }
{
    (start_of(ends, number), ends[number])
}

// The row with this number; `None` if there are fewer rows.
fn row_at<'a, T>(items: &'a [T], ends: &[usize], number: usize) -> Option<&'a [T]>
    requires cuts { AreCuts 0 ends.now (length items.now) }
    ensures row { option_map (λ row. row.now) result ≡ slice_get (cut 0 ends.now items.now) number }
{
    if number >= ends.len() {
        return None;
    }
    let (start, end) = bounds_of(ends, items.len(), number);
    Some(&items[start..end])
}

// Appends a row. On an error nothing changes.
fn push_row<T: Drop>(
    items: &mut Vec<T>,
    ends: &mut Vec<usize>,
    row: Items<T>,
) -> Result<(), AllocError>
    requires cuts { AreCuts 0 ends.old.items (length items.old.items) }
    ensures cuts { AreCuts 0 ends.new.items (length items.new.items) }
    ensures pushed { OnOk result (cut 0 ends.new.items items.new.items ≡ cut 0 ends.old.items items.old.items ++ row ∷ []) }
    ensures unchanged { OnErr result (cut 0 ends.new.items items.new.items ≡ cut 0 ends.old.items items.old.items) }
{
    let mut row = row.into_vec();
    ends.reserve(1)?;
    items.append(&mut row)?;
    ends.push_reserved(items.len());
    Ok(())
}

impl<T> Rows<T> {
    /// No rows. It takes memory only when a row is pushed.
    pub fn new(alloc: Global) -> Rows<T>
        ensures empty { result ≡ [] }
    {
        Rows {
            items: Vec::new(alloc),
            ends: Vec::new(alloc),
        }
    }

    /// The number of rows.
    pub fn len(&self) -> usize
        ensures count { result ≡ length self.now }
    {
        self.ends.len()
    }

    /// Whether it has no rows.
    pub fn is_empty(&self) -> bool
        ensures empty { result ≡ (length self.now == 0) }
    {
        self.ends.is_empty()
    }

    /// The items of the row with this number, from 0; `None` if there are fewer rows.
    pub fn get(&self, number: usize) -> Option<&[T]>
        ensures row { option_map (λ row. row.now) result ≡ slice_get self.now number }
    {
        row_at(self.items.as_slice(), self.ends.as_slice(), number)
    }

    /// Appends a row. An error means that an allocation failed; the rows are then unchanged.
    pub fn push(&mut self, row: Items<T>) -> Result<(), AllocError>
    where
        T: Drop,
        ensures pushed { OnOk result (self.new ≡ self.old ++ row ∷ []) }
        ensures unchanged { OnErr result (self.new ≡ self.old) }
    {
        push_row(&mut self.items, &mut self.ends, row)
    }

    /// Reserves room for appending these rows. Contracts do not see the room. An error means that
    /// an allocation failed.
    pub fn reserve_for(&mut self, more: &Rows<T>) -> Result<(), AllocError>
        ensures same { self.new ≡ self.old }
    {
        self.ends.reserve(more.ends.len())?;
        self.items.reserve(more.items.len())
    }

    /// The rows, to be taken out one by one. It takes no memory.
    pub fn into_left(self) -> RowsLeft<T>
        ensures same { result ≡ self }
    {
        let Rows { items, ends } = self;
        RowsLeft {
            items: VecDeque::from_vec(items),
            ends: VecDeque::from_vec(ends),
            start: 0,
        }
    }
}

// Takes out this many items from the front, or all if there are fewer.
fn first_items<T: Drop>(
    alloc: Global,
    items: &mut VecDeque<T>,
    count: usize,
) -> Result<Items<T>, AllocError>
    ensures taken { IfOk result (λ taken. taken ≡ take count items.old.items) }
    ensures left { OnOk result (items.new.items ≡ drop count items.old.items) }
{
    let mut taken = Vec::with_capacity(alloc, count)?;
    for _place in 0..count {
        match items.pop_front() {
            Some(item) => taken.push(item)?,
            None => return Ok(Items::from_vec(taken)),
        }
    }
    Ok(Items::from_vec(taken))
}

impl<T> RowsLeft<T> {
    /// Takes out the first row; `None` if no row is left. On an error an allocation failed, and the
    /// row is lost.
    pub fn next(&mut self, alloc: Global) -> Result<Option<Items<T>>, AllocError>
    where
        T: Drop,
        ensures row { IfOk result (λ next. IfSome next (λ row. self.old ≡ row ∷ self.new)) }
        ensures none { IfOk result (λ next. IsNone next → self.old ≡ []) }
        ensures ended { IfOk result (λ next. IsNone next → self.new ≡ []) }
    {
        let Some(end) = self.ends.pop_front() else {
            return Ok(None);
        };
        let row = first_items(alloc, &mut self.items, end.saturating_sub(self.start))?;
        self.start = end;
        Ok(Some(row))
    }
}
