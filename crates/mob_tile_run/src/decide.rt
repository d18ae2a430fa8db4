//! A run up to its note.
ghost use Rattle.std.specs.Prelude.{map, string_bytes};
ghost use Rattle.mob_outside.specs.EndsSeen.{stream_seen};
ghost use Rattle.mob_trips.specs.Endings.{IsTripsEnding};
ghost use Rattle.mob_trips.specs.Seen.{trips_seen};
ghost use Rattle.mob_tile_run.specs.TileAnswers.{IsUsable};
ghost use Rattle.mob_tile_run.specs.TileProgram.{TileEndsAt, TileEnds, tile_program};

use crate::answer::tile_text;
use crate::reading::settings;
use crate::settings::TileSettings;
use mob_list::fault::Fault;
use mob_outside::{Gate, Sink, Source};
use mob_pairs::{PairCause, PairFault};
use mob_trips::{TripsEnding, put_text, read_trips};
use mob_tuples::Tuple;
use std::alloc::Global;
use std::marker::Sync;
use std::thread::Threads;

// The ending for a fault.
fn ending_of(fault: PairFault) -> TripsEnding
    ensures ending { TileEndsAt fault result }
{
    match fault {
        Fault::Because(PairCause::Passed { rows, formula }) => TripsEnding::Overflow {
            rows,
            formula,
        },
        Fault::Because(PairCause::Limit { row }) => TripsEnding::RowsRefused {
            rows: Tuple::new().with(row),
        },
        Fault::NoMemory => TripsEnding::NoMemory,
    }
}

// Reads the table and writes the answer.
fn answer_table<R: Threads + Sync, S: Source, K: Sink, G: Gate>(
    rt: &R,
    alloc: Global,
    settings: &TileSettings,
    table: &mut S,
    out: &mut K,
    gate: &G,
) -> TripsEnding
    requires usable { IsUsable settings.now }
    ensures ends { TileEnds settings.now (stream_seen S.left S.faults table.old table.new) (stream_seen K.held K.faults out.old out.new) result }
{
    let rows = match read_trips(alloc, table, &settings.epoch) {
        Ok(rows) => rows,
        Err(ending) => return ending,
    };
    let text = match tile_text(rt, alloc, settings, rows, gate) {
        Ok(text) => text,
        Err(fault) => return ending_of(fault),
    };
    put_text(out, &text)
}

/// Judges the arguments, reads the table and writes the parts or the pairs. Returns the ending.
pub fn decide<R: Threads + Sync, S: Source, K: Sink, G: Gate>(
    rt: &R,
    alloc: Global,
    words: &[String],
    table: &mut S,
    out: &mut K,
    gate: &G,
) -> TripsEnding
    ensures ends { IsTripsEnding tile_program result (trips_seen (map string_bytes words.now) (stream_seen S.left S.faults table.old table.new) (stream_seen K.held K.faults out.old out.new)) }
{
    match settings(alloc, words) {
        Ok(Some(settings)) => answer_table(rt, alloc, &settings, table, out, gate),
        Ok(None) => TripsEnding::Usage,
        Err(_) => TripsEnding::NoMemory,
    }
}
