//! A run of mobnear on a table whose calls never fail, and each of which gives as many bytes as
//! there is room for.

use crate::ends::{listed, sink};
use crate::failing::{NEAR_WORDS, NEAREST, TABLE};
use crate::tables::STEP;
use mob_near_run::run_near;
use mob_outside::{MemSink, SteadySource};
use std::alloc::{AllocError, Global};

fn steady(alloc: Global) -> Result<SteadySource, AllocError> {
    Ok(SteadySource::new(TABLE.as_bytes().to_vec(alloc)?))
}

// Whether the run writes the nearest row and no note.
fn is_answered(
    alloc: Global,
    words: &[String],
    table: &mut SteadySource,
    out: &mut MemSink,
    notes: &mut MemSink,
) -> bool {
    run_near(alloc, words, table, out, notes) == 0
        && out.taken() == NEAREST.as_bytes()
        && notes.taken().is_empty()
}

fn with_words(alloc: Global, words: &[String]) -> Result<bool, AllocError> {
    let mut out = sink(alloc, 0, STEP)?;
    let mut notes = sink(alloc, 0, STEP)?;
    let mut table = steady(alloc)?;
    Ok(is_answered(alloc, words, &mut table, &mut out, &mut notes))
}

#[test]
fn steady_table_is_answered(rt: HostRuntime) {
    match &listed(rt.alloc(), NEAR_WORDS) {
        Ok(words) => assert!(rt; matches!(with_words(rt.alloc(), words), Ok(true))),
        Err(_) => assert!(rt; false),
    }
}
