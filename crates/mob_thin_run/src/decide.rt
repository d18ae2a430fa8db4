//! A run up to its note.
ghost use Rattle.std.specs.Prelude.{map, string_bytes};
ghost use Rattle.mob_outside.specs.EndsSeen.{stream_seen};
ghost use Rattle.mob_trips.specs.Endings.{IsTripsEnding};
ghost use Rattle.mob_trips.specs.Seen.{trips_seen};
ghost use Rattle.mob_thin_run.specs.ThinProgram.{thin_program};

use crate::command::settings;
use crate::rows::thin_text;
use mob_outside::{Sink, Source};
use mob_slice::mode_of;
use mob_trips::{TripsEnding, ending_of, put_text, read_trips};
use std::alloc::Global;

/// Judges the arguments, reads the table, simplifies its trips and writes the text. Returns the
/// ending.
pub fn decide<S: Source, K: Sink>(
    alloc: Global,
    words: &[String],
    table: &mut S,
    out: &mut K,
) -> TripsEnding
    ensures ends { IsTripsEnding thin_program result (trips_seen (map string_bytes words.now) (stream_seen S.left S.faults table.old table.new) (stream_seen K.held K.faults out.old out.new)) }
{
    let settings = match settings(alloc, words) {
        Ok(Some(settings)) => settings,
        Ok(None) => return TripsEnding::Usage,
        Err(_) => return TripsEnding::NoMemory,
    };
    let rows = match read_trips(alloc, table, &settings.epoch) {
        Ok(rows) => rows,
        Err(ending) => return ending,
    };
    let text = match thin_text(
        alloc,
        mode_of(settings.wide),
        &rows,
        &settings.within,
        &settings.epoch,
    ) {
        Ok(text) => text,
        Err(fault) => return ending_of(fault),
    };
    put_text(out, &text)
}
