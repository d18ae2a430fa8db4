//! Runs of the demo, over a script and files whose first call would fail: none of their calls is
//! made.

use crate::ends::{Failing, Report, Watch, gave};
use crate::scripts::run_script;
use std::alloc::{AllocError, Global};
use std::thread::Threads;

/// The answer of the demo with two ships.
pub const TWO_SHIPS: &[u8] = b"a,b
(0 rows)
id,inside
1,\"{[2001-01-01 00:00:00+00, 2001-01-01 00:34:27+00]}\"
2,\"{[2001-01-01 00:00:00+00, 2001-01-01 00:15:07.2+00]}\"
(2 rows)
";

const FIRST_FAILS: Failing = Failing {
    input: 1,
    files: 1,
    out: 0,
    notes: 0,
};

/// A run of the demo with this number of ships and workers.
pub fn demo(
    rt: &(impl Threads + Sync),
    alloc: Global,
    ships: &str,
    workers: &str,
    gate: &Watch,
) -> Result<Report, AllocError> {
    let words = ["mobsql", "--demo", ships, "--workers", workers];
    run_script(rt, alloc, &words, "SELECT 1;", None, FIRST_FAILS, gate)
}

fn demo_writes(rt: &(impl Threads + Sync), alloc: Global, workers: &str, answer: &[u8]) -> bool {
    match &demo(rt, alloc, "200", workers, &Watch { flags: None }) {
        Ok(seen) => gave(seen, 0, answer, b""),
        Err(_) => false,
    }
}

// Three and 64 workers write what one does.
fn is_written_alike(rt: &(impl Threads + Sync), alloc: Global) -> bool {
    match &demo(rt, alloc, "200", "1", &Watch { flags: None }) {
        Ok(seen) => {
            let answer = seen.out.taken();
            gave(seen, 0, answer, b"")
                && demo_writes(rt, alloc, "3", answer)
                && demo_writes(rt, alloc, "64", answer)
        }
        Err(_) => false,
    }
}

fn is_refused(rt: &(impl Threads + Sync), alloc: Global) -> bool {
    match &demo(rt, alloc, "0", "1", &Watch { flags: None }) {
        Ok(seen) => seen.status == 2,
        Err(_) => false,
    }
}

#[test]
fn a_large_demo_is_written_alike_and_one_without_ships_is_refused(rt: HostRuntime) {
    assert!(rt; is_written_alike(&rt, rt.alloc()));
    assert!(rt; is_refused(&rt, rt.alloc()));
}
