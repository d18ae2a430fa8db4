//! Work that tests whether a worker has passed the gate, work whose two pieces look for each other,
//! and work that records what is asked of it.

use crate::gates::{Passing, TwoFlags};
use mob_fan::{Outcome, Work};
use mob_list::items::Items;
use mob_outside::Gate;
use std::alloc::{AllocError, Global};
use std::sync::atomic::{AtomicU64, Ordering};

/// Work of a size, which stops if no piece has passed the gate yet.
#[derive(Drop)]
pub struct Watched<'a> {
    pub gate: &'a Passing,
    pub size: usize,
}

impl<'a> Work for Watched<'a> {
    type Item = u32;

    type Fault = usize;

    ghost use Rattle.mob_fan_rows.specs.Watched.{AnyOutcome, any_joins};

    ghost size_of = { λ w. w.size };

    ghost comes = { AnyOutcome };

    fn piece(
        &self,
        alloc: Global,
        from: usize,
        to: usize,
    ) -> Result<Outcome<u32, usize>, AllocError> {
        if self.gate.sum() == 0 {
            return Ok(Outcome::Stop(to - from));
        }
        Ok(Outcome::Items(Items::new(alloc)))
    }

    ghost law = { any_joins (λ w. w.size) };
}

/// Work of size 2, whose pieces look for each other.
#[derive(Drop)]
pub struct Meeting<'a> {
    pub flags: &'a TwoFlags,
}

impl<'a> Work for Meeting<'a> {
    type Item = u32;

    type Fault = usize;

    ghost use Rattle.mob_fan_rows.specs.Watched.{AnyOutcome, any_joins};

    ghost size_of = { λ w. 2 };

    ghost comes = { AnyOutcome };

    fn piece(
        &self,
        alloc: Global,
        from: usize,
        _to: usize,
    ) -> Result<Outcome<u32, usize>, AllocError> {
        self.flags.enter(from);
        Ok(Outcome::Items(Items::new(alloc)))
    }

    ghost law = { any_joins (λ w. 2) };
}

/// What is asked of a work: how many pieces, and the sum of their lengths.
#[derive(Drop)]
pub struct Asked {
    pieces: AtomicU64,
    lengths: AtomicU64,
}

impl Asked {
    pub fn new() -> Asked {
        Asked {
            pieces: AtomicU64::new(0),
            lengths: AtomicU64::new(0),
        }
    }

    fn add(&self, length: usize) {
        self.pieces.fetch_add(1, Ordering::SeqCst);
        self.lengths.fetch_add(length as u64, Ordering::SeqCst);
    }

    /// How many pieces were asked for so far.
    pub fn pieces(&self) -> u64 {
        self.pieces.load(Ordering::SeqCst)
    }

    /// The sum of their lengths so far.
    pub fn lengths(&self) -> u64 {
        self.lengths.load(Ordering::SeqCst)
    }
}

/// Work of a size, which records what is asked of it.
#[derive(Drop)]
pub struct Noted<'a> {
    pub asked: &'a Asked,
    pub size: usize,
}

impl<'a> Work for Noted<'a> {
    type Item = u32;

    type Fault = usize;

    ghost use Rattle.mob_fan_rows.specs.Watched.{AnyOutcome, any_joins};

    ghost size_of = { λ w. w.size };

    ghost comes = { AnyOutcome };

    fn piece(
        &self,
        alloc: Global,
        from: usize,
        to: usize,
    ) -> Result<Outcome<u32, usize>, AllocError> {
        self.asked.add(to - from);
        Ok(Outcome::Items(Items::new(alloc)))
    }

    ghost law = { any_joins (λ w. w.size) };
}
