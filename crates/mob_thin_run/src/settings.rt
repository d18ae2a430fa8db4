//! The settings of mobthin.
use mob_frac::Frac;
use mob_scalar::Epoch;

/// The settings that the arguments give.
#[derive(Clone, Copy, Debug, PartialEq, Eq)]
pub struct ThinSettings {
    /// How far a simplified trip may be from the trip; not negative.
    pub within: Frac,
    /// The day from whose midnight instants count; 2000-01-01 without `--epoch`.
    pub epoch: Epoch,
    /// Whether numbers of any size are computed, so that no test stops the run.
    pub wide: bool,
}
