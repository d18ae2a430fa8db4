//! The program mobsql: `run` over the arguments, the streams and the current folder.
#![tactic(auto)]

use mob_outside::{DirFiles, OpenGate, StdSink, StdSource};
use mob_shell::{Ending, run, tell};
use std::env;
use std::io::ErrorKind;
use std::process::ExitCode;

fn main(rt: HostRuntime) -> ExitCode {
    let alloc = rt.alloc();
    let mut script = StdSource::new(rt.stdin());
    let mut files = DirFiles::new(rt);
    let mut out = StdSink::new(rt.stdout());
    let mut notes = StdSink::new(rt.stderr());
    let words: Result<Vec<String>, Ending> = match env::args(&rt) {
        Ok(args) => args.collect(alloc).map_err(|_| Ending::NoMemory),
        Err(error) if error.kind() == ErrorKind::OutOfMemory => Err(Ending::NoMemory),
        Err(_) => Err(Ending::Usage),
    };
    let status = match words {
        Ok(words) => run(
            &rt,
            alloc,
            &words,
            &mut script,
            &mut files,
            &mut out,
            &mut notes,
            &OpenGate,
        ),
        Err(ending) => {
            tell(&mut notes, &ending);
            ending.status()
        }
    };
    ExitCode::from(status)
}
