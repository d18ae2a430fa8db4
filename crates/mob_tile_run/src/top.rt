//! The top call.
ghost use Rattle.std.specs.Prelude.{map, string_bytes};
ghost use Rattle.mob_outside.specs.EndsSeen.{stream_seen};
ghost use Rattle.mob_outside.specs.Streams.{Puts};
ghost use Rattle.mob_trips.specs.Lines.{trips_note};
ghost use Rattle.mob_trips.specs.Run.{IsExactRun, IsTripsRun};
ghost use Rattle.mob_trips.specs.Seen.{trips_seen};
ghost use Rattle.mob_tile_run.specs.TileProgram.{tile_program, tile_usage};

use crate::decide::decide;
use mob_catalog::laws::one_table;
use mob_outside::{Gate, Sink, Source};
use mob_trips::{TripsEnding, tell};
use std::alloc::Global;
use std::marker::Sync;
use std::thread::Threads;

const USAGE: &[u8] =
    b"usage: mobtile --size S --width W [--near D] [--workers N] [--epoch DATE] < trips.csv\n";

/// Writes the line of an ending of mobtile.
pub fn tell_tile<E: Sink>(notes: &mut E, ending: &TripsEnding)
    ensures puts { Puts (trips_note tile_usage ending.now) (E.held notes.old) (E.held notes.new) (E.faults notes.old) (E.faults notes.new) }
{
    tell(notes, USAGE, ending);
}

/// Runs mobtile with the arguments of its command line and its streams, and returns the exit
/// status. It reads the table from `table`. It writes the parts of its trips in tiles to `out`, or
/// with `--near` the pairs of rows that come within a distance. For every status but 0 it writes
/// one line to `notes`.
///
/// | status | when |
/// |---|---|
/// | 0 | the table was read to its end and accepted, and `out` took all of the text |
/// | 2 | the arguments are not accepted |
/// | 3 | the table could not be read |
/// | 4 | `out` failed, and took a part of the text |
/// | 5 | out of memory |
/// | 6 | the table is refused, or the box of a trip reaches more than 10,000 tiles |
/// | 8 | a part of a formula does not fit |
pub fn run_tile<R: Threads + Sync, S: Source, K: Sink, E: Sink, G: Gate>(
    rt: &R,
    alloc: Global,
    words: &[String],
    table: &mut S,
    out: &mut K,
    notes: &mut E,
    gate: &G,
) -> u8
    // `IsTripsRun` has a line for each status and each other promise, about what is seen of the run
    // and its note. `IsExactRun` adds that 6 and 8 come exactly if the first fault of the rows, or
    // of the tests of pairs, is a limit or a formula, apart from out of memory.
    ensures promises { IsTripsRun tile_program tile_usage result
        (trips_seen (map string_bytes words.now) (stream_seen S.left S.faults table.old table.new) (stream_seen K.held K.faults out.old out.new))
        (λ line. Puts line (E.held notes.old) (E.held notes.new) (E.faults notes.old) (E.faults notes.new)) }
    ensures exact { IsExactRun tile_program result
        (trips_seen (map string_bytes words.now) (stream_seen S.left S.faults table.old table.new) (stream_seen K.held K.faults out.old out.new)) }
{
    one_table();
    let ending = decide(rt, alloc, words, table, out, gate);
    tell_tile(notes, &ending);
    ending.status()
}
