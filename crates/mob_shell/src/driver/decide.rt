//! A run up to its note.
ghost use Rattle.std.specs.Prelude.{◌≤◌, map, string_bytes};
ghost use Rattle.mob_outside.specs.EndsSeen.{files_seen, stream_seen};
ghost use Rattle.mob_shell.specs.Ending.{EndsBy, IsEndingOf};
ghost use Rattle.mob_shell.specs.Inputs.{seen};

use crate::driver::demo::run_demo;
use crate::driver::judge::run_text;
use mob_accept::SCRIPT_LIMIT;
use mob_arguments::laws::one_setting;
use mob_arguments::{Settings, settings};
use mob_ending::Ending;
use mob_outside::{Files, Gate, ReadEnd, Sink, Source, read_to};
use std::alloc::Global;
use std::thread::Threads;

/// Judges the arguments and runs the script, or with `--demo` the script of the demo. Returns the
/// ending, which is `Usage` if the arguments are not accepted.
pub fn decide<R: Threads + Sync, S: Source, F: Files, K: Sink, G: Gate>(
    rt: &R,
    alloc: Global,
    words: &[String],
    script: &mut S,
    files: &mut F,
    out: &mut K,
    gate: &G,
) -> Ending
    ensures ends { IsEndingOf result (seen (map string_bytes words.now) (stream_seen S.left S.faults script.old script.new) (files_seen F.files F.asked F.faults files.old files.new) (stream_seen K.held K.faults out.old out.new)) }
{
    let settings = match settings(alloc, words) {
        Ok(Some(settings)) => settings,
        Ok(None) => return Ending::Usage,
        Err(_) => return Ending::NoMemory,
    };
    match settings.demo {
        None => run_script(rt, alloc, settings, script, files, out, gate),
        Some(ships) => run_demo(rt, alloc, settings, ships, out, gate),
    }
}

// Reads the script, loads it and writes its answers.
fn run_script<R: Threads + Sync, S: Source, F: Files, K: Sink, G: Gate>(
    rt: &R,
    alloc: Global,
    settings: Settings,
    script: &mut S,
    files: &mut F,
    out: &mut K,
    gate: &G,
) -> Ending
    requires some { 1 ≤ settings.workers }
    requires few { settings.workers ≤ 64 }
    ensures ends { EndsBy settings (stream_seen S.left S.faults script.old script.new) (files_seen F.files F.asked F.faults files.old files.new) (stream_seen K.held K.faults out.old out.new) result }
{
    one_setting();
    let bytes = match read_to(alloc, script, SCRIPT_LIMIT) {
        Ok(bytes) => bytes,
        Err(ReadEnd::Fault) => return Ending::ReadFault { file: None },
        Err(ReadEnd::NoMemory) => return Ending::NoMemory,
    };
    run_text(rt, alloc, &bytes, settings, files, out, gate)
}
