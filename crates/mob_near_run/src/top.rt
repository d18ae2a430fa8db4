//! The top call.
ghost use Rattle.std.specs.Prelude.{map, string_bytes};
ghost use Rattle.mob_outside.specs.EndsSeen.{stream_seen};
ghost use Rattle.mob_outside.specs.Streams.{Puts};
ghost use Rattle.mob_trips.specs.Lines.{trips_note};
ghost use Rattle.mob_trips.specs.Run.{IsExactRun, IsTripsRun};
ghost use Rattle.mob_trips.specs.Seen.{trips_seen};
ghost use Rattle.mob_near_run.specs.NearProgram.{AskForWide, near_program, near_usage};

use crate::decide::decide;
use mob_catalog::laws::one_table;
use mob_outside::{Sink, Source};
use mob_trips::{TripsEnding, tell};
use std::alloc::Global;

const USAGE: &[u8] = b"usage: mobnear --k K --to TEXT [--epoch DATE] [--wide] < trips.csv\n";

/// Writes the line of an ending of mobnear.
pub fn tell_near<E: Sink>(notes: &mut E, ending: &TripsEnding)
    ensures puts { Puts (trips_note near_usage ending.now) (E.held notes.old) (E.held notes.new) (E.faults notes.old) (E.faults notes.new) }
{
    tell(notes, USAGE, ending);
}

/// Runs mobnear with the arguments of its command line and its streams, and returns the exit
/// status. It reads the table from `table`, writes the nearest rows to `out`, and for every status
/// but 0 writes one line to `notes`.
///
/// | status | when |
/// |---|---|
/// | 0 | the table was read to its end and accepted, and `out` took all of the text |
/// | 2 | the arguments are not accepted |
/// | 3 | the table could not be read |
/// | 4 | `out` failed, and took a part of the text |
/// | 5 | out of memory |
/// | 6 | the table is refused |
/// | 8 | a part of a row's formula does not fit, and fewer than K rows approach below its gap; with `--wide`, the approach of a record does not fit |
pub fn run_near<S: Source, K: Sink, E: Sink>(
    alloc: Global,
    words: &[String],
    table: &mut S,
    out: &mut K,
    notes: &mut E,
) -> u8
    // `IsTripsRun` has a line for each status and each other promise, about what is seen of the run
    // and its note. With `--wide`, `IsExactRun` adds that 8 comes exactly if the approach of a record
    // does not fit, apart from out of memory.
    ensures promises { IsTripsRun near_program near_usage result
        (trips_seen (map string_bytes words.now) (stream_seen S.left S.faults table.old table.new) (stream_seen K.held K.faults out.old out.new))
        (λ line. Puts line (E.held notes.old) (E.held notes.new) (E.faults notes.old) (E.faults notes.new)) }
    ensures exact { AskForWide (map string_bytes words.now) → IsExactRun near_program result
        (trips_seen (map string_bytes words.now) (stream_seen S.left S.faults table.old table.new) (stream_seen K.held K.faults out.old out.new)) }
{
    one_table();
    let ending = decide(alloc, words, table, out);
    tell_near(notes, &ending);
    ending.status()
}
