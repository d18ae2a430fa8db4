//! Facts about every outcome. No code runs here.

use crate::outcomes::Outcome;
use mob_list::laws::crosses_threads;
use std::marker::{Send, Sync};

/// Outcomes may cross threads if their items and faults may.
pub fn outcomes_cross_threads<I: Send + Sync, F: Send + Sync>() {
    crosses_threads::<Outcome<I, F>>();
}
