//! The program mobthin: `run_thin` over the arguments and the streams of the process.
#![tactic(auto)]

use mob_outside::{StdSink, StdSource};
use mob_thin_run::{run_thin, tell_thin};
use mob_trips::arguments;
use std::process::ExitCode;

fn main(rt: HostRuntime) -> ExitCode {
    let alloc = rt.alloc();
    let mut table = StdSource::new(rt.stdin());
    let mut out = StdSink::new(rt.stdout());
    let mut notes = StdSink::new(rt.stderr());
    let status = match arguments(&rt) {
        Ok(words) => run_thin(alloc, &words, &mut table, &mut out, &mut notes),
        Err(ending) => {
            tell_thin(&mut notes, &ending);
            ending.status()
        }
    };
    ExitCode::from(status)
}
