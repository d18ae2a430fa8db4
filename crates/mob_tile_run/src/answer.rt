//! The text of the answer of mobtile.
ghost use Rattle.std.specs.Prelude.{◌≡◌, ◌≤◌, true, length, map, IfOk, IfErr};
ghost use Rattle.mob_ratio.specs.Order.{up_to};
ghost use Rattle.mob_ratio.specs.Sign.{nil};
ghost use Rattle.mob_pairs.specs.Faults.{IsPairsFault};
ghost use Rattle.mob_records.specs.AnswerText.{answer_text};
ghost use Rattle.mob_trips.specs.Rows.{id_of, trip_of};
ghost use Rattle.mob_tile_run.specs.TileTexts.{pair_fields, pair_names};
ghost use Rattle.mob_tile_run.specs.TileAnswers.{PairsText, IsUsable, TileWrites, TileFails};

use crate::fields::{PairPrinter, pair_names};
use crate::parts::parts_text;
use crate::settings::TileSettings;
use mob_frac::Frac;
use mob_outside::Gate;
use mob_pairs::{PairFault, pairs};
use mob_records::counted_text_by;
use mob_scalar::Epoch;
use mob_slice::{Moving, PlaneLine};
use mob_tile::Grid;
use mob_trips::split_rows;
use mob_value::{Rows, Value};
use std::alloc::{AllocError, Global};
use std::marker::Sync;
use std::thread::Threads;

// The text of pairs, each of which is printed directly into the text.
fn text_of(
    alloc: Global,
    ids: &[Value],
    found: &[(u32, u32)],
    epoch: &Epoch,
) -> Result<Vec<u8>, AllocError>
    ensures text { IfOk result (λ t. t.items ≡ answer_text pair_names (map (pair_fields epoch.now ids.now) found.now)) }
{
    let names = pair_names(alloc)?;
    let printer = PairPrinter { ids, epoch };
    counted_text_by(alloc, names.as_slice(), found, &printer)
}

// The text of the pairs of trips that come within a distance.
fn pairs_text<R: Threads + Sync, G: Gate>(
    rt: &R,
    alloc: Global,
    grid: &Grid,
    near: &Frac,
    workers: u32,
    ids: &[Value],
    trips: &[Option<Moving<PlaneLine>>],
    epoch: &Epoch,
    gate: &G,
) -> Result<Vec<u8>, PairFault>
    requires near { up_to nil near.now ≡ true }
    requires few { length trips.now ≤ 1000000 }
    requires some_workers { 1 ≤ workers }
    requires few_workers { workers ≤ 64 }
    ensures text { IfOk result (λ t. PairsText grid.now near.now epoch.now ids.now trips.now t.items) }
    ensures fault { IfErr result (IsPairsFault grid.now near.now trips.now) }
{
    let found = pairs(rt, alloc, trips, grid, near, workers as usize, gate)?;
    Ok(text_of(alloc, ids, found.as_slice(), epoch)?)
}

// The text for these trips.
fn answer<R: Threads + Sync, G: Gate>(
    rt: &R,
    alloc: Global,
    settings: &TileSettings,
    ids: &[Value],
    trips: &[Option<Moving<PlaneLine>>],
    gate: &G,
) -> Result<Vec<u8>, PairFault>
    requires usable { IsUsable settings.now }
    requires few { length trips.now ≤ 1000000 }
    ensures writes { IfOk result (λ t. TileWrites settings.now ids.now trips.now t.items) }
    ensures fault { IfErr result (TileFails settings.now trips.now) }
{
    match &settings.near {
        None => parts_text(alloc, &settings.grid, ids, trips, &settings.epoch),
        Some(near) => pairs_text(
            rt,
            alloc,
            &settings.grid,
            near,
            settings.workers,
            ids,
            trips,
            &settings.epoch,
            gate,
        ),
    }
}

/// The text for the rows of a table: the parts of its trips in tiles, or the pairs of rows that
/// come within a distance; or the fault. Apart from a failed allocation the result does not depend
/// on the number of workers.
pub fn tile_text<R: Threads + Sync, G: Gate>(
    rt: &R,
    alloc: Global,
    settings: &TileSettings,
    rows: Rows<Value>,
    gate: &G,
) -> Result<Vec<u8>, PairFault>
    requires usable { IsUsable settings.now }
    requires few { length rows ≤ 1000000 }
    ensures writes { IfOk result (λ t. TileWrites settings.now (map id_of rows) (map trip_of rows) t.items) }
    ensures fault { IfErr result (TileFails settings.now (map trip_of rows)) }
{
    let (ids, trips) = split_rows(alloc, rows)?;
    answer(rt, alloc, settings, ids.as_slice(), trips.as_slice(), gate)
}
