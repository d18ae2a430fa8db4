//! Facts about every list and text. No code runs here.

use crate::fault::Fault;
use crate::items::Items;
use crate::text::Text;
use std::marker::{Send, Sync};

/// Values of the type may be sent to another thread, and several threads may read one.
pub fn crosses_threads<T: Send + Sync>() {}

/// Lists may cross threads if their items may, and texts always may.
pub fn containers_cross_threads<T: Send + Sync>() {
    crosses_threads::<Items<T>>();
    crosses_threads::<Text>();
}

/// Faults may cross threads if their causes may.
pub fn faults_cross_threads<C: Send + Sync>() {
    crosses_threads::<Fault<C>>();
}
