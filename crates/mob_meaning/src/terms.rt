//! The terms of a run, which its options set.

use mob_scalar::Epoch;
use mob_slice::Mode;

/// What the value and the faults of an expression depend on, besides its tables and constants.
#[derive(Clone, Copy, Debug, PartialEq, Eq)]
pub struct Terms {
    /// The day from whose midnight instants count.
    pub epoch: Epoch,
    /// How it is decided whether the numbers of an operator fit.
    pub mode: Mode,
}
