//! Facts about every fraction. No code runs here.

use crate::{Frac, Overflow, Wide};
use mob_list::laws::crosses_threads;

/// Fractions may cross threads.
pub fn fractions_cross_threads() {
    crosses_threads::<Frac>();
    crosses_threads::<Overflow>();
    crosses_threads::<Wide>();
}
