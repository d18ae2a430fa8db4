//! A run of a program over a table of trips, over streams in memory.

use crate::ends::{Failing, Report, Watch, listed, sink, source};
use mob_near_run::run_near;
use mob_outside::{MemSink, MemSource};
use mob_thin_run::run_thin;
use mob_tile_run::run_tile;
use std::alloc::{AllocError, Global};
use std::thread::Threads;

/// How many bytes a call of a stream moves at most.
pub const STEP: usize = 8;

/// The programs over a table of trips.
#[derive(Clone, Copy)]
pub enum TripsProgram {
    Near,
    Thin,
    Tile,
}

fn run(
    rt: &(impl Threads + Sync),
    alloc: Global,
    program: TripsProgram,
    words: &[String],
    table: &mut MemSource,
    out: &mut MemSink,
    notes: &mut MemSink,
    gate: &Watch,
) -> u8 {
    match program {
        TripsProgram::Near => run_near(alloc, words, table, out, notes),
        TripsProgram::Thin => run_thin(alloc, words, table, out, notes),
        TripsProgram::Tile => run_tile(rt, alloc, words, table, out, notes, gate),
    }
}

fn with_table(
    rt: &(impl Threads + Sync),
    alloc: Global,
    program: TripsProgram,
    words: &[String],
    table: &mut MemSource,
    failing: Failing,
    gate: &Watch,
) -> Result<Report, AllocError> {
    let mut out = sink(alloc, failing.out, STEP)?;
    let mut notes = sink(alloc, failing.notes, STEP)?;
    let status = run(rt, alloc, program, words, table, &mut out, &mut notes, gate);
    Ok(Report { status, out, notes })
}

fn with_words(
    rt: &(impl Threads + Sync),
    alloc: Global,
    program: TripsProgram,
    words: &[String],
    table: &str,
    failing: Failing,
    gate: &Watch,
) -> Result<Report, AllocError> {
    let mut table = source(alloc, table, failing.input, STEP)?;
    with_table(rt, alloc, program, words, &mut table, failing, gate)
}

/// A run with these arguments on this table.
pub fn run_table(
    rt: &(impl Threads + Sync),
    alloc: Global,
    program: TripsProgram,
    words: &[&str],
    table: &str,
    failing: Failing,
    gate: &Watch,
) -> Result<Report, AllocError> {
    let words = listed(alloc, words)?;
    with_words(rt, alloc, program, &words, table, failing, gate)
}
