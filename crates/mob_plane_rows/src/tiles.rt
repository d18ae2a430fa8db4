//! The pairs of trips that come within a distance, from the work of `tiled` on all its tiles at
//! once.

use mob_ast::SqlType;
use mob_fan::{Outcome, Work};
use mob_frac::Frac;
use mob_literal::read_value;
use mob_pairs::tiled;
use mob_scalar::Epoch;
use mob_slice::{Moving, PlaneLine};
use mob_tile::Grid;
use mob_value::Value;
use std::alloc::Global;

// Two trips, 3 apart at each instant, on both sides of the edge x = 4 of tiles with sides of 2.
static TRIPS: [&'static str; 2] = [
    "[POINT(1 1)@2000-01-01 00:00:00, POINT(3 1)@2000-01-01 00:00:10]",
    "[POINT(4 1)@2000-01-01 00:00:00, POINT(6 1)@2000-01-01 00:00:10]",
];

// A distance, and whether the two come this near.
static DISTANCES: [(&'static str, bool); 4] = [
    ("3", true),
    ("2.999", false),
    ("0", false),
    ("40", true),
];

fn trip(alloc: Global, text: &str) -> Option<Moving<PlaneLine>> {
    match read_value(alloc, SqlType::TPoint, text, &Epoch::standard()) {
        Ok(Value::MovingPoint(trip)) => Some(trip),
        _ => None,
    }
}

fn grid() -> Option<Grid> {
    let Ok(size) = Frac::new(2, 1) else {
        return None;
    };
    let Ok(width) = Frac::new(5, 1) else {
        return None;
    };
    Grid::new(size, width)
}

// Whether the rows 0 and 1 are the only pair, or there is none.
fn is_pair<'a>(
    alloc: Global,
    trips: &'a [Option<Moving<PlaneLine>>],
    grid: &'a Grid,
    near: &'a Frac,
    wanted: bool,
) -> bool {
    if near.is_before(&Frac::zero()) || trips.len() > 2 {
        return false;
    }
    let Ok(work) = tiled(alloc, trips, grid, near) else {
        return false;
    };
    match work.piece(alloc, 0, work.size()) {
        Ok(Outcome::Items(pairs)) => match pairs.as_slice() {
            [] => !wanted,
            [pair] => {
                let (a, b) = *pair;
                wanted && a == 0 && b == 1
            }
            _ => false,
        },
        _ => false,
    }
}

fn is_within(alloc: Global, near: &Frac, wanted: bool) -> bool {
    let trips = [trip(alloc, TRIPS[0]), trip(alloc, TRIPS[1])];
    match grid() {
        Some(grid) => is_pair(alloc, &trips, &grid, near, wanted),
        None => false,
    }
}

fn is_row(alloc: Global, row: &(&'static str, bool)) -> bool {
    match &read_value(alloc, SqlType::Numeric, row.0, &Epoch::standard()) {
        Ok(Value::Number(near)) => is_within(alloc, near, row.1),
        _ => false,
    }
}

#[test]
fn tiled_trips_come_near(rt: HostRuntime) {
    for row in &DISTANCES {
        assert!(rt; is_row(rt.alloc(), row));
    }
}
