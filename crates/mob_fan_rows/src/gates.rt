//! Gates that record which pieces passed, and which passed at the same time.

use mob_outside::Gate;
use std::sync::atomic::{AtomicBool, AtomicU64, Ordering};

/// A gate that adds up 2^i over the pieces i that pass it.
#[derive(Drop)]
pub struct Passing {
    sum: AtomicU64,
}

impl Passing {
    pub fn new() -> Passing {
        Passing {
            sum: AtomicU64::new(0),
        }
    }

    /// The sum so far.
    pub fn sum(&self) -> u64 {
        self.sum.load(Ordering::SeqCst)
    }
}

impl Gate for Passing {
    fn enter(&self, piece: usize) {
        if piece < 64 {
            self.sum.fetch_add(1_u64 << piece, Ordering::SeqCst);
        }
    }
}

// How often a piece looks for the flag of the other one.
const TURNS: u32 = 100_000_000;

fn is_seen(flag: &AtomicBool) -> bool {
    for _ in 0..TURNS {
        if flag.load(Ordering::SeqCst) {
            return true;
        }
    }
    false
}

/// A gate with a flag for each of two pieces, at which each waits for the flag of the other.
#[derive(Drop)]
pub struct TwoFlags {
    first: AtomicBool,
    second: AtomicBool,
    saw_second: AtomicBool,
    saw_first: AtomicBool,
}

impl TwoFlags {
    pub fn new() -> TwoFlags {
        TwoFlags {
            first: AtomicBool::new(false),
            second: AtomicBool::new(false),
            saw_second: AtomicBool::new(false),
            saw_first: AtomicBool::new(false),
        }
    }

    /// Each piece saw the flag of the other.
    pub fn both_saw(&self) -> bool {
        self.saw_second.load(Ordering::SeqCst) && self.saw_first.load(Ordering::SeqCst)
    }
}

impl Gate for TwoFlags {
    fn enter(&self, piece: usize) {
        if piece == 0 {
            self.first.store(true, Ordering::SeqCst);
            self.saw_second
                .store(is_seen(&self.second), Ordering::SeqCst);
        } else {
            self.second.store(true, Ordering::SeqCst);
            self.saw_first.store(is_seen(&self.first), Ordering::SeqCst);
        }
    }
}
