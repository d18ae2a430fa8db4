//! A run of the demo.
ghost use Rattle.std.specs.Prelude.{◌≡◌, ◌≤◌, IfOk};
ghost use Rattle.mob_outside.specs.EndsSeen.{stream_seen};
ghost use Rattle.mob_shell.specs.Inputs.{demo_files};
ghost use Rattle.mob_shell.specs.Terms.{terms_of};
ghost use Rattle.mob_shell.specs.Parts.{DemoEnds, demo_ending};

use crate::driver::judge::run_text;
use mob_arguments::Settings;
use mob_demo::{demo_file, demo_script};
use mob_ending::Ending;
use mob_outside::{Gate, MemFiles, Sink};
use std::alloc::{AllocError, Global};
use std::thread::Threads;

// The files of a demo with this number of ships: one table file, whose reads give as many bytes as
// they are asked for.
fn files_of(alloc: Global, ships: u32) -> Result<MemFiles, AllocError>
    requires few { ships ≤ 1000 }
    ensures files { IfOk result (λ f. f.files ≡ demo_files ships) }
{
    let name = String::from_str(alloc, "demo.csv")?;
    let file = demo_file(alloc, ships)?.into_bytes();
    let files = vec![in alloc; (name, file)]?;
    Ok(MemFiles::new(alloc, files, Vec::new(alloc), usize::MAX))
}

// The ending of a demo, from that of its text. The file is in memory, so a failure to read it is a
// failed allocation.
fn ending_of(ending: Ending) -> Ending
    ensures ends { result ≡ demo_ending ending }
{
    match ending {
        Ending::ReadFault { .. } => Ending::NoMemory,
        _ => ending,
    }
}

/// A run of the demo: its script on its table file.
pub fn run_demo<R: Threads + Sync, K: Sink, G: Gate>(
    rt: &R,
    alloc: Global,
    settings: Settings,
    ships: u32,
    out: &mut K,
    gate: &G,
) -> Ending
    requires some { 1 ≤ settings.workers }
    requires few { settings.workers ≤ 64 }
    requires ships { ships ≤ 1000 }
    ensures ends { DemoEnds (terms_of settings) ships (stream_seen K.held K.faults out.old out.new) result }
    ensures later { K.faults out.old ≤ K.faults out.new }
{
    let Ok(script) = demo_script(alloc) else {
        return Ending::NoMemory;
    };
    let Ok(mut files) = files_of(alloc, ships) else {
        return Ending::NoMemory;
    };
    ending_of(run_text(
        rt,
        alloc,
        script.as_bytes(),
        settings,
        &mut files,
        out,
        gate,
    ))
}
