//! A run up to its note.
ghost use Rattle.std.specs.Prelude.{map, string_bytes};
ghost use Rattle.mob_outside.specs.EndsSeen.{stream_seen};
ghost use Rattle.mob_trips.specs.Endings.{IsTripsEnding};
ghost use Rattle.mob_trips.specs.Seen.{trips_seen};
ghost use Rattle.mob_near_run.specs.NearProgram.{NearEnds, near_program};

use crate::answer::near_text;
use crate::reading::settings;
use crate::settings::NearSettings;
use mob_outside::{Sink, Source};
use mob_trips::{TripsEnding, ending_of, put_text, read_trips};
use std::alloc::Global;

// Reads the table and writes the nearest rows.
fn answer_table<S: Source, K: Sink>(
    alloc: Global,
    settings: &NearSettings,
    table: &mut S,
    out: &mut K,
) -> TripsEnding
    ensures ends { NearEnds settings.now (stream_seen S.left S.faults table.old table.new) (stream_seen K.held K.faults out.old out.new) result }
{
    let rows = match read_trips(alloc, table, &settings.epoch) {
        Ok(rows) => rows,
        Err(ending) => return ending,
    };
    let text = match near_text(alloc, settings, rows) {
        Ok(text) => text,
        Err(fault) => return ending_of(fault),
    };
    put_text(out, &text)
}

/// Judges the arguments, reads the table and writes the nearest rows. Returns the ending.
pub fn decide<S: Source, K: Sink>(
    alloc: Global,
    words: &[String],
    table: &mut S,
    out: &mut K,
) -> TripsEnding
    ensures ends { IsTripsEnding near_program result (trips_seen (map string_bytes words.now) (stream_seen S.left S.faults table.old table.new) (stream_seen K.held K.faults out.old out.new)) }
{
    match settings(alloc, words) {
        Ok(Some(settings)) => answer_table(alloc, &settings, table, out),
        Ok(None) => TripsEnding::Usage,
        Err(_) => TripsEnding::NoMemory,
    }
}
