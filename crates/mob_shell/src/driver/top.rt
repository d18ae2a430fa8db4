//! The top call.
ghost use Rattle.std.specs.Prelude.{map, string_bytes};
ghost use Rattle.mob_outside.specs.EndsSeen.{files_seen, stream_seen};
ghost use Rattle.mob_shell.specs.Inputs.{seen};
ghost use Rattle.mob_shell.specs.Run.{IsRun};
ghost use Rattle.mob_outside.specs.Streams.{Puts};

use crate::driver::decide::decide;
use crate::laws::{one_ending, one_program};
use mob_accept::laws::one_script;
use mob_arguments::laws::one_setting;
use mob_ending::tell;
use mob_meaning::laws::faults_pass;
use mob_outside::{Files, Gate, Sink, Source};
use std::alloc::Global;
use std::thread::Threads;

/// Runs the program on the arguments `words` and returns the exit status. The script comes from
/// `script` and its table files from `files`. The answers go to `out`, and for every status but 0
/// one line goes to `notes`. With `--demo` the script and the only file are those of the demo, and
/// neither `script` nor `files` is touched. With `--workers` that many workers share the outer rows
/// of each query, piece by piece; each worker passes `gate` as it starts. The answers are the same.
///
/// | status | when |
/// |---|---|
/// | 0 | the whole script was accepted, every statement ran, and `out` took all answers |
/// | 2 | the arguments are not accepted |
/// | 3 | the script or a table file could not be read |
/// | 4 | `out` failed, and took a part of the answers |
/// | 5 | out of memory |
/// | 6 | a table file is refused |
/// | 7 | the script is refused |
/// | 8 | a part of a formula does not fit |
pub fn run<R: Threads + Sync, S: Source, F: Files, K: Sink, E: Sink, G: Gate>(
    rt: &R,
    alloc: Global,
    words: &[String],
    script: &mut S,
    files: &mut F,
    out: &mut K,
    notes: &mut E,
    gate: &G,
) -> u8
    // `IsRun` has a line for each status and each other promise, about what is seen of the run and
    // its note.
    ensures promises { IsRun result
        (seen (map string_bytes words.now) (stream_seen S.left S.faults script.old script.new) (files_seen F.files F.asked F.faults files.old files.new) (stream_seen K.held K.faults out.old out.new))
        (λ line. Puts line (E.held notes.old) (E.held notes.new) (E.faults notes.old) (E.faults notes.new)) }
{
    one_setting();
    one_script();
    one_program();
    one_ending();
    faults_pass();
    let ending = decide(rt, alloc, words, script, files, out, gate);
    tell(notes, &ending);
    ending.status()
}
