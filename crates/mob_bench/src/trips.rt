//! The ten trips nearest to `POINT(500 500)`, and the approach of each trip.
ghost use Rattle.std.specs.Prelude.{◌≡◌, ◌<◌, ◌≤◌, length};
ghost use Rattle.mob_knn.specs.Nearest.{AreOfTrips};

use mob_frac::Frac;
use mob_knn::{index_of, nearest};
use mob_list::steps::Steps;
use mob_near::approach_squared;
use mob_outside::Source;
use mob_plane::Point;
use mob_rtree::RTree;
use mob_scalar::Epoch;
use mob_slice::{Moving, Operand, PlaneLine};
use mob_trips::{read_trips, split_rows};
use std::alloc::{AllocError, Global};
use std::marker::Brand;
use std::sync::ledger::{Blank, Ledger};

// Whether a trip has a positive approach.
fn is_away(alloc: Global, trip: &Option<Moving<PlaneLine>>, point: &Point) -> bool {
    let Some(trip) = trip else {
        return false;
    };
    match approach_squared(alloc, Operand::Moving(trip), Operand::Fixed(point)) {
        Ok(Some(square)) => Frac::zero().is_before(&square),
        _ => false,
    }
}

// How many trips have a positive approach.
fn scan(alloc: Global, trips: &[Option<Moving<PlaneLine>>], point: &Point) -> usize {
    let mut away = 0;
    for trip in trips {
        if is_away(alloc, trip, point) && away < 1000000 {
            away += 1;
        }
    }
    away
}

fn near<L: Ledger>(
    alloc: Global,
    tree: &RTree,
    trips: &[Option<Moving<PlaneLine>>],
    point: &Point,
    blank: Blank,
) -> usize
    requires entries { AreOfTrips trips.now tree.now.entries }
    requires name { blank.name ≡ L.name }
    requires parts { blank.parts ≡ L.parts }
    requires some { 0 < L.parts }
{
    let mut steps = Steps::<L>::new(blank);
    match nearest(alloc, tree, trips, Operand::Fixed(point), 10, &mut steps) {
        Ok(rows) => rows.len(),
        Err(_) => 0,
    }
}

fn with_tree(
    alloc: Global,
    trips: &[Option<Moving<PlaneLine>>],
    point: &Point,
    count: u64,
) -> Result<usize, AllocError>
    requires few { length trips.now ≤ 1000000 }
{
    let tree = index_of(alloc, trips)?;
    let mut sum = 0;
    for _ in 0..count {
        sum = near::<Brand>(alloc, &tree, trips, point, Blank::new(1));
    }
    Ok(sum)
}

// The result of the last of `count` searches or scans, or the exit status.
fn found(
    alloc: Global,
    trips: &[Option<Moving<PlaneLine>>],
    way: &str,
    count: u64,
) -> Result<usize, u8> {
    if trips.len() > 1000000 {
        return Err(6);
    }
    let Ok(x) = Frac::new(500, 1) else {
        return Err(5);
    };
    let point = Point { x, y: x };
    if way == "near" {
        return match with_tree(alloc, trips, &point, count) {
            Ok(rows) => Ok(rows),
            Err(AllocError) => Err(5),
        };
    }
    let mut away = 0;
    for _ in 0..count {
        away = scan(alloc, trips, &point);
    }
    Ok(away)
}

/// The result of the last of `count` searches (`near`), or scans, of the table of trips, and the
/// number of trips; or the exit status.
pub fn timed<S: Source>(
    alloc: Global,
    table: &mut S,
    way: &str,
    count: u64,
) -> Result<(usize, usize), u8> {
    let rows = match read_trips(alloc, table, &Epoch::standard()) {
        Ok(rows) => rows,
        Err(ending) => return Err(ending.status()),
    };
    let Ok((_ids, trips)) = split_rows(alloc, rows) else {
        return Err(5);
    };
    match found(alloc, trips.as_slice(), way, count) {
        Ok(rows) => Ok((rows, trips.len())),
        Err(status) => Err(status),
    }
}
