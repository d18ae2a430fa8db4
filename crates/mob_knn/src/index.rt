//! The index of trips.
ghost use Rattle.std.specs.Prelude.{◌≤◌, IfOk, OnOk, length};
ghost use Rattle.mob_knn.specs.Nearest.{AreBoxes, AreOfTrips, IsBoxPut};

use mob_rtree::RTree;
use mob_slice::{Moving, PlaneLine};
use mob_stbox::StBox;
use mob_value::box_of;
use std::alloc::{AllocError, Global};

// Adds the entry of a trip, if the row has one.
fn put_box(
    entries: &mut Vec<(StBox, u32)>,
    trip: &Option<Moving<PlaneLine>>,
    row: u32,
) -> Result<(), AllocError>
    ensures put { OnOk result (IsBoxPut trip.now row entries.old.items entries.new.items) }
{
    match trip {
        Some(trip) => Ok(entries.push((box_of(trip), row))?),
        None => Ok(()),
    }
}

// An entry for each trip.
fn entries_of(
    alloc: Global,
    trips: &[Option<Moving<PlaneLine>>],
) -> Result<Vec<(StBox, u32)>, AllocError>
    requires few { length trips.now ≤ 1000000 }
    ensures entries { IfOk result (λ es. AreBoxes 0 trips.now es.items) }
{
    let mut entries = Vec::new(alloc);
    let mut row: u32 = 0;
    for trip in trips {
        put_box(&mut entries, trip, row)?;
        row += 1;
    }
    Ok(entries)
}

/// The R-tree of the boxes of all trips, each with the number of its row, from 0. The only error is
/// a failed allocation.
pub fn index_of(alloc: Global, trips: &[Option<Moving<PlaneLine>>]) -> Result<RTree, AllocError>
    requires few { length trips.now ≤ 1000000 }
    ensures entries { IfOk result (λ tree. AreOfTrips trips.now tree.entries) }
{
    let entries = entries_of(alloc, trips)?;
    RTree::build(alloc, entries)
}
