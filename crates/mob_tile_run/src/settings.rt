//! The settings of a run.
use mob_frac::Frac;
use mob_scalar::Epoch;
use mob_tile::Grid;

/// The settings that the arguments give.
#[derive(Clone, Copy, Debug)]
pub struct TileSettings {
    /// The sides of the tiles.
    pub grid: Grid,
    /// The distance within which pairs come, not negative; `None` for the parts of trips.
    pub near: Option<Frac>,
    /// The number of workers, from 1 to 64; 1 without `--workers`.
    pub workers: u32,
    /// The day from whose midnight instants count; 2000-01-01 without `--epoch`.
    pub epoch: Epoch,
}
