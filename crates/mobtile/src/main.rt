//! The program mobtile: `run_tile` over the arguments and the streams of the process.
#![tactic(auto)]

use mob_outside::{OpenGate, StdSink, StdSource};
use mob_tile_run::{run_tile, tell_tile};
use mob_trips::arguments;
use std::process::ExitCode;

fn main(rt: HostRuntime) -> ExitCode {
    let alloc = rt.alloc();
    let mut table = StdSource::new(rt.stdin());
    let mut out = StdSink::new(rt.stdout());
    let mut notes = StdSink::new(rt.stderr());
    let status = match arguments(&rt) {
        Ok(words) => run_tile(
            &rt, alloc, &words, &mut table, &mut out, &mut notes, &OpenGate,
        ),
        Err(ending) => {
            tell_tile(&mut notes, &ending);
            ending.status()
        }
    };
    ExitCode::from(status)
}
