//! The parts of trips in the tiles of a grid.
ghost use Rattle.std.specs.Prelude.{◌≡◌, ◌≤◌, ◌++◌, length, map, IfOk, IfErr, OnOk, MatchResult};
ghost use Rattle.mob_records.specs.AnswerText.{answer_text};
ghost use Rattle.mob_tile_run.specs.TileTexts.{part_fields, part_names};
ghost use Rattle.mob_tile_run.specs.TileParts.{IsSplitOf, IsSplitFault, row_fault, ArePartRecords, IsFirstSplitFault, PartsText};

use crate::fields::{part_fields, part_names};
use mob_list::fault::Fault;
use mob_list::items::Items;
use mob_list::text::Text;
use mob_pairs::{PairCause, PairFault};
use mob_records::counted_text;
use mob_scalar::Epoch;
use mob_slice::{Moving, PlaneLine};
use mob_tile::{Grid, SplitCause, SplitFault, Tile};
use mob_tuples::Tuple;
use mob_value::Value;
use std::alloc::{AllocError, Global};

// The fault of a row, from that of its trip.
fn row_fault(row: u32, fault: SplitFault) -> PairFault
    ensures same { result ≡ row_fault row fault }
{
    match fault {
        Fault::Because(SplitCause::Passed { formula }) => Fault::Because(PairCause::Passed {
            rows: Tuple::new().with(row),
            formula,
        }),
        Fault::Because(SplitCause::Limit) => Fault::Because(PairCause::Limit { row }),
        Fault::NoMemory => Fault::NoMemory,
    }
}

// The parts of the trip of a row, if it has one.
fn split_row(
    alloc: Global,
    grid: &Grid,
    trip: &Option<Moving<PlaneLine>>,
    row: u32,
) -> Result<Vec<(Tile, Moving<PlaneLine>)>, PairFault>
    ensures split { MatchResult result (λ v. IsSplitOf grid.now trip.now v.items) (IsSplitFault grid.now trip.now row) }
{
    let Some(trip) = trip else {
        return Ok(Vec::new(alloc));
    };
    match grid.split(alloc, trip) {
        Ok(parts) => Ok(parts),
        Err(fault) => Err(row_fault(row, fault)),
    }
}

// Adds a record for each part of the trip of a row.
fn push_parts(
    alloc: Global,
    records: &mut Items<Items<Text>>,
    ids: &[Value],
    row: u32,
    parts: Vec<(Tile, Moving<PlaneLine>)>,
    epoch: &Epoch,
) -> Result<(), AllocError>
    ensures pushed { OnOk result (records.new ≡ records.old ++ map (part_fields epoch.now ids.now row) parts.items) }
{
    for part in parts {
        let (tile, value) = part;
        records.push(part_fields(alloc, ids, row, &tile, value, epoch)?)?;
    }
    Ok(())
}

// The records of all rows, row by row.
fn part_records(
    alloc: Global,
    grid: &Grid,
    ids: &[Value],
    trips: &[Option<Moving<PlaneLine>>],
    epoch: &Epoch,
) -> Result<Items<Items<Text>>, PairFault>
    requires few { length trips.now ≤ 1000000 }
    ensures records { IfOk result (ArePartRecords grid.now epoch.now ids.now trips.now) }
    ensures fault { IfErr result (IsFirstSplitFault grid.now trips.now) }
{
    let mut records = Items::new(alloc);
    let mut row = 0u32;
    for trip in trips {
        let parts = split_row(alloc, grid, trip, row)?;
        push_parts(alloc, &mut records, ids, row, parts, epoch)?;
        row = row + 1;
    }
    Ok(records)
}

// The text of records of parts.
fn text_of(alloc: Global, records: &[Items<Text>]) -> Result<Vec<u8>, AllocError>
    ensures text { IfOk result (λ t. t.items ≡ answer_text part_names records.now) }
{
    let names = part_names(alloc)?;
    counted_text(alloc, names.as_slice(), records)
}

/// The text of the parts of all trips, row by row and then by tile, or the fault of the first row
/// without a split.
pub fn parts_text(
    alloc: Global,
    grid: &Grid,
    ids: &[Value],
    trips: &[Option<Moving<PlaneLine>>],
    epoch: &Epoch,
) -> Result<Vec<u8>, PairFault>
    requires few { length trips.now ≤ 1000000 }
    ensures text { IfOk result (λ t. PartsText grid.now epoch.now ids.now trips.now t.items) }
    ensures fault { IfErr result (IsFirstSplitFault grid.now trips.now) }
{
    let records = part_records(alloc, grid, ids, trips, epoch)?;
    Ok(text_of(alloc, records.as_slice())?)
}
