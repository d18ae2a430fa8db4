//! The ids and the trips of the rows of a table.
ghost use Rattle.std.specs.Prelude.{◌≡◌, IfOk, map};
ghost use Rattle.mob_literal.specs.Fields.{field_text};
ghost use Rattle.mob_trips.specs.Rows.{id_at, id_of, moving_point, trip_of};

use mob_list::items::Items;
use mob_list::text::Text;
use mob_literal::write_field;
use mob_scalar::Epoch;
use mob_slice::{Moving, PlaneLine};
use mob_value::{Rows, Value};
use std::alloc::{AllocError, Global};

// The moving point of a value; NULL has none.
fn moving_point(value: Value) -> Option<Moving<PlaneLine>>
    ensures value { result ≡ moving_point value }
{
    match value {
        Value::MovingPoint(moving) => Some(moving),
        _other => None,
    }
}

// The id and the trip of a row.
fn split_row(row: Items<Value>) -> (Value, Option<Moving<PlaneLine>>)
    ensures id { result.0 ≡ id_of row }
    ensures trip { result.1 ≡ trip_of row }
{
    let mut cells = row.into_vec();
    if cells.len() != 2 {
        return (Value::Null, None);
    }
    let trip = cells.remove(1);
    let id = cells.remove(0);
    (id, moving_point(trip))
}

/// The ids and the trips of the rows. The only error is a failed allocation.
pub fn split_rows(
    alloc: Global,
    rows: Rows<Value>,
) -> Result<(Vec<Value>, Vec<Option<Moving<PlaneLine>>>), AllocError>
    ensures ids { IfOk result (λ r. r.0.items ≡ map id_of rows) }
    ensures trips { IfOk result (λ r. r.1.items ≡ map trip_of rows) }
{
    let mut ids = Vec::new(alloc);
    let mut trips = Vec::new(alloc);
    let mut left = rows.into_left();
    while let Some(row) = left.next(alloc)? {
        let (id, trip) = split_row(row);
        ids.push(id)?;
        trips.push(trip)?;
    }
    Ok((ids, trips))
}

/// The id of the row of this number, as a field. The only error is a failed allocation.
pub fn id_text(alloc: Global, ids: &[Value], row: u32, epoch: &Epoch) -> Result<Text, AllocError>
    ensures text { IfOk result (λ t. t ≡ field_text epoch.now (id_at ids.now row)) }
{
    let mut text = String::new(alloc);
    let index = row as usize;
    if index >= ids.len() {
        write_field(&Value::Null, epoch, &mut text)?;
        return Ok(Text::from_string(text));
    }
    write_field(&ids[index], epoch, &mut text)?;
    Ok(Text::from_string(text))
}
