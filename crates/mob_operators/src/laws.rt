//! A law of operators: they cross threads. No code runs here.

use crate::aggregate::AggKind;
use crate::operator::{Op, Spelling};
use mob_list::laws::crosses_threads;

/// Operators and aggregates cross threads.
pub fn operators_cross_threads() {
    crosses_threads::<Op>();
    crosses_threads::<Spelling>();
    crosses_threads::<AggKind>();
}
