//! A run of mobsql over streams and files in memory.

use crate::ends::{Failing, Report, Watch, files, listed, sink, source};
use mob_outside::{MemFiles, MemSource};
use mob_shell::run;
use std::alloc::{AllocError, Global};
use std::thread::Threads;

// How many bytes a call of a stream moves at most.
const STEP: usize = 7;

fn with_files(
    rt: &(impl Threads + Sync),
    alloc: Global,
    words: &[String],
    script: &mut MemSource,
    files: &mut MemFiles,
    failing: Failing,
    gate: &Watch,
) -> Result<Report, AllocError> {
    let mut out = sink(alloc, failing.out, STEP)?;
    let mut notes = sink(alloc, failing.notes, STEP)?;
    let status = run(rt, alloc, words, script, files, &mut out, &mut notes, gate);
    Ok(Report { status, out, notes })
}

fn with_script(
    rt: &(impl Threads + Sync),
    alloc: Global,
    words: &[String],
    script: &mut MemSource,
    named: Option<(&str, &[u8])>,
    failing: Failing,
    gate: &Watch,
) -> Result<Report, AllocError> {
    let mut files = files(alloc, named, failing.files, STEP)?;
    with_files(rt, alloc, words, script, &mut files, failing, gate)
}

fn with_words(
    rt: &(impl Threads + Sync),
    alloc: Global,
    words: &[String],
    script: &str,
    named: Option<(&str, &[u8])>,
    failing: Failing,
    gate: &Watch,
) -> Result<Report, AllocError> {
    let mut script = source(alloc, script, failing.input, STEP)?;
    with_script(rt, alloc, words, &mut script, named, failing, gate)
}

/// A run with these arguments and this script, and with no file or one: its name and its bytes.
pub fn run_script(
    rt: &(impl Threads + Sync),
    alloc: Global,
    words: &[&str],
    script: &str,
    named: Option<(&str, &[u8])>,
    failing: Failing,
    gate: &Watch,
) -> Result<Report, AllocError> {
    let words = listed(alloc, words)?;
    with_words(rt, alloc, &words, script, named, failing, gate)
}
