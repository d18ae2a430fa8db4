//! The text of an answer from its rows.
ghost use Rattle.std.specs.Prelude.{◌≡◌, IfOk, length, map, drop, true, false};
ghost use Rattle.mob_literal.specs.Fields.{field_text};
ghost use Rattle.mob_arrange.specs.Keyed.{row_of_values};
ghost use Rattle.mob_arrange.specs.Rows.{limited as limited_rows};
ghost use Rattle.mob_arrange.specs.RowsText.{IsTextOfGiven, IsTextOfArranged};

use crate::distinct::distinct;
use crate::fields::{Fields, Printed};
use crate::order::order;
use crate::rows::Row;
use mob_list::text::Text;
use mob_records::counted_text_by;
use mob_scalar::Epoch;
use std::alloc::{AllocError, Global};

// The first rows, at most as many as the limit.
fn limited<T>(limit: Option<u64>, rows: &[T]) -> &[T]
    ensures front { result.now ≡ limited_rows limit rows.now }
{
    let Some(most) = limit else {
        return rows;
    };
    let most = most as usize;
    if most < rows.len() {
        &rows[..most]
    } else {
        rows
    }
}

// Each row is printed, field by field, directly into the text.
fn all_text(
    alloc: Global,
    names: &[Text],
    keys: usize,
    limit: Option<u64>,
    rows: &[Row<'_>],
    epoch: &Epoch,
) -> Result<Vec<u8>, AllocError>
    ensures text { IfOk result (λ text. IsTextOfGiven names.now false limit (map (λ row. map (field_text epoch.now) (drop keys row)) rows.now) text.items) }
{
    let printer = Fields { keys, epoch };
    counted_text_by(alloc, names, limited(limit, rows), &printer)
}

// All rows are printed first, because distinct rows are found by their fields. Of equal rows the
// first is kept.
fn distinct_text(
    alloc: Global,
    names: &[Text],
    keys: usize,
    limit: Option<u64>,
    rows: &[Row<'_>],
    epoch: &Epoch,
) -> Result<Vec<u8>, AllocError>
    ensures text { IfOk result (λ text. IsTextOfGiven names.now true limit (map (λ row. map (field_text epoch.now) (drop keys row)) rows.now) text.items) }
{
    let kept = distinct(alloc, keys, rows, epoch)?;
    counted_text_by(alloc, names, limited(limit, kept.as_slice()), &Printed)
}

/// The text of an answer with these names and rows. The rows are sorted by their keys, where
/// `falls` says for each key whether it is descending. If `is_distinct` is true, only the first of
/// equal rows is kept. At most `limit` rows are given. Without `is_distinct` a field is printed
/// directly into the text, and no field of a row beyond the limit is printed. The only error is a
/// failed allocation.
pub fn arranged_text(
    alloc: Global,
    names: &[Text],
    falls: &[bool],
    is_distinct: bool,
    limit: Option<u64>,
    mut rows: Vec<Row<'_>>,
    epoch: &Epoch,
) -> Result<Vec<u8>, AllocError>
    ensures text { IfOk result (λ text. IsTextOfArranged names.now falls.now is_distinct limit (map (row_of_values epoch.now (length falls.now)) rows.entry.items) text.items) }
{
    order(falls, &mut rows)?;
    if is_distinct {
        distinct_text(alloc, names, falls.len(), limit, rows.as_slice(), epoch)
    } else {
        all_text(alloc, names, falls.len(), limit, rows.as_slice(), epoch)
    }
}
