//! The rows with each trip simplified, as text.
ghost use Rattle.std.specs.Prelude.{◌≡◌, ◌≤◌, ◌∷◌, [], codes, IfOk, IfErr, IsUtf8, length, map, true};
ghost use Rattle.std.specs.List.{AllZip, AllByRecursion};
ghost use Rattle.csv.specs.Records.{AllText};
ghost use Rattle.mob_ratio.specs.Order.{up_to};
ghost use Rattle.mob_ratio.specs.Sign.{nil};
ghost use Rattle.mob_list.specs.Faults.{OnCause};
ghost use Rattle.mob_slice.specs.Entries.{IsJudged};
ghost use Rattle.mob_literal.specs.Fields.{field_text};
ghost use Rattle.mob_thin_run.specs.ThinRows.{IsThinValue, IsThinRecord, IsThinText, OnTests, PassesFirst, RowTestsFit, RowTestPasses};

use mob_frac::Frac;
use mob_list::fault::{Fault, fault_at};
use mob_list::items::Items;
use mob_list::text::Text;
use mob_literal::write_field;
use mob_records::records_text;
use mob_scalar::Epoch;
use mob_simplify::thin;
use mob_slice::{Formula, Mode};
use mob_value::{Rows, Value};
use std::alloc::{AllocError, Global};

/// Why the rows have no text: the number of a row, from 0, with the formula that has a part that
/// does not fit in a test of it, or out of memory.
pub type RowFault = Fault<(u32, Formula)>;

// The value, simplified if it is a trip.
fn thinned(alloc: Global, mode: Mode, value: &Value, d: &Frac) -> Result<Value, Fault<Formula>>
    requires not_negative { up_to nil d.now ≡ true }
    ensures thin { IfOk result (λ thin. IsThinValue d.now value.now thin) }
    ensures first { OnTests mode d.now value.now (λ tests. IsJudged tests result) }
{
    match value {
        Value::MovingPoint(trip) => Ok(Value::MovingPoint(thin(alloc, mode, trip, d)?)),
        _ => Ok(value.copy(alloc)?),
    }
}

// The row with each trip simplified.
fn thinned_row(
    alloc: Global,
    mode: Mode,
    row: &[Value],
    d: &Frac,
) -> Result<Items<Value>, Fault<Formula>>
    requires not_negative { up_to nil d.now ≡ true }
    ensures thin { IfOk result (AllZip (IsThinValue d.now) row.now) }
    ensures fit { IfOk result (λ thin. RowTestsFit mode d.now row.now) }
    ensures first { IfErr result (OnCause (RowTestPasses mode d.now row.now)) }
{
    let mut thin = Items::new(alloc);
    for value in row {
        let next = thinned(alloc, mode, value, d)?;
        if thin.push(next).is_err() {
            return Err(Fault::NoMemory);
        }
    }
    Ok(thin)
}

// A value as a field.
fn field_of(alloc: Global, value: &Value, epoch: &Epoch) -> Result<Text, AllocError>
    ensures field { IfOk result (λ field. field ≡ field_text epoch.now value.now) }
    ensures utf8 { IfOk result IsUtf8 }
{
    let mut text = String::new(alloc);
    write_field(value, epoch, &mut text)?;
    Ok(Text::from_string(text))
}

// The fields of a row.
fn fields_of(alloc: Global, row: &[Value], epoch: &Epoch) -> Result<Items<Text>, AllocError>
    ensures fields { IfOk result (λ fields. fields ≡ map (field_text epoch.now) row.now) }
    ensures utf8 { IfOk result AllText }
{
    let mut fields = Items::new(alloc);
    for value in row {
        fields.push(field_of(alloc, value, epoch)?)?;
    }
    Ok(fields)
}

// The fields of the row with each trip simplified.
fn thin_fields(
    alloc: Global,
    mode: Mode,
    row: &[Value],
    d: &Frac,
    epoch: &Epoch,
) -> Result<Items<Text>, Fault<Formula>>
    requires not_negative { up_to nil d.now ≡ true }
    ensures fields { IfOk result (IsThinRecord d.now epoch.now row.now) }
    ensures fit { IfOk result (λ fields. RowTestsFit mode d.now row.now) }
    ensures first { IfErr result (OnCause (RowTestPasses mode d.now row.now)) }
{
    let thin = thinned_row(alloc, mode, row, d)?;
    Ok(fields_of(alloc, thin.as_slice(), epoch)?)
}

// The fields of all rows with each trip simplified, row by row.
fn thin_records(
    alloc: Global,
    mode: Mode,
    rows: &Rows<Value>,
    d: &Frac,
    epoch: &Epoch,
) -> Result<Items<Items<Text>>, RowFault>
    requires not_negative { up_to nil d.now ≡ true }
    requires few { length rows.now ≤ 1000000 }
    ensures records { IfOk result (AllZip (IsThinRecord d.now epoch.now) rows.now) }
    ensures fit { IfOk result (λ records. AllByRecursion (RowTestsFit mode d.now) rows.now) }
    ensures first { IfErr result (OnCause (λ f. PassesFirst mode d.now rows.now f.0 f.1)) }
{
    let mut records = Items::new(alloc);
    let mut number: u32 = 0;
    while let Some(row) = rows.get(number as usize) {
        let fields = match thin_fields(alloc, mode, row, d, epoch) {
            Ok(fields) => fields,
            Err(fault) => return Err(fault_at(number, fault)),
        };
        records.push(fields)?;
        number += 1;
    }
    Ok(records)
}

// The names of the columns.
fn names(alloc: Global) -> Result<Vec<Text>, AllocError>
    ensures names { IfOk result (λ v. v.items ≡ codes "id" ∷ codes "trip" ∷ []) }
{
    let id = Text::from_str(alloc, "id")?;
    let trip = Text::from_str(alloc, "trip")?;
    let mut names = Vec::new(alloc);
    names.push(id)?;
    names.push(trip)?;
    Ok(names)
}

/// The text of the table with each trip simplified, within `d`; or the first row with a part of a
/// test that does not fit. `NoMemory` comes if an allocation fails.
pub fn thin_text(
    alloc: Global,
    mode: Mode,
    rows: &Rows<Value>,
    d: &Frac,
    epoch: &Epoch,
) -> Result<Vec<u8>, RowFault>
    requires not_negative { up_to nil d.now ≡ true }
    requires few { length rows.now ≤ 1000000 }
    ensures text { IfOk result (λ v. IsThinText d.now epoch.now rows.now v.items) }
    ensures fit { IfOk result (λ v. AllByRecursion (RowTestsFit mode d.now) rows.now) }
    ensures first { IfErr result (OnCause (λ f. PassesFirst mode d.now rows.now f.0 f.1)) }
{
    let records = thin_records(alloc, mode, rows, d, epoch)?;
    let names = names(alloc)?;
    Ok(records_text(alloc, &names, records.as_slice())?)
}
