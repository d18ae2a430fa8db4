//! The first of equal rows.
ghost use Rattle.std.specs.Prelude.{◌≡◌, ◌<◌, [], IfOk, drop, get_or, length, map, string_bytes};
ghost use Rattle.mob_literal.specs.Fields.{field_text};
ghost use Rattle.mob_arrange.specs.Rows.{AreFirst};
ghost use Rattle.mob_arrange.specs.TextsSeen.{strings_of};

use crate::fields::Fields;
use crate::rows::Row;
use indexmap::IndexSet;
use mob_records::FieldPrinter;
use mob_scalar::Epoch;
use std::alloc::{AllocError, Global};

// The printed field of a number.
fn field_of(
    alloc: Global,
    printer: &Fields<'_>,
    row: &Row<'_>,
    number: usize,
) -> Result<String, AllocError>
    requires there { number < length (map (field_text printer.now.epoch.now) (drop printer.now.keys row.now)) }
    ensures field { IfOk result (λ text. string_bytes text ≡ get_or (map (field_text printer.now.epoch.now) (drop printer.now.keys row.now)) number []) }
{
    let mut text = String::new(alloc);
    printer.append(row, number, &mut text)?;
    Ok(text)
}

// The printed fields of a row.
fn fields_of(alloc: Global, printer: &Fields<'_>, row: &Row<'_>) -> Result<Vec<String>, AllocError>
    ensures fields { IfOk result (λ texts. strings_of texts ≡ map (field_text printer.now.epoch.now) (drop printer.now.keys row.now)) }
{
    let count = printer.count(row);
    let mut texts = Vec::with_capacity(alloc, count)?;
    for number in 0..count {
        texts.push(field_of(alloc, printer, row, number)?)?;
    }
    Ok(texts)
}

/// The fields of rows, without those equal to an earlier row, in the order of the rows. The fields
/// of a row come after its keys. The only error is a failed allocation.
pub fn distinct(
    alloc: Global,
    keys: usize,
    rows: &[Row<'_>],
    epoch: &Epoch,
) -> Result<IndexSet<Vec<String>>, AllocError>
    ensures first { IfOk result (λ seen. AreFirst [] (map (λ row. map (field_text epoch.now) (drop keys row)) rows.now) (map strings_of seen.keys)) }
{
    let printer = Fields { keys, epoch };
    let mut seen = IndexSet::new(alloc);
    for row in rows {
        let fields = fields_of(alloc, &printer, row)?;
        // Fields that are already in the set are not added, so the result is not needed here.
        let _is_new = seen.insert(fields)?;
    }
    Ok(seen)
}
