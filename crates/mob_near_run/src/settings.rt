//! The settings of mobnear.
use mob_plane::Point;
use mob_scalar::Epoch;
use mob_slice::{Moving, PlaneLine};

/// The target that trips come near to.
#[derive(Drop)]
pub enum Target {
    /// A moving point.
    Moving(Moving<PlaneLine>),
    /// A point, which stays there at all times.
    Fixed(Point),
}

/// The settings that the arguments give.
#[derive(Drop)]
pub struct NearSettings {
    /// How many rows are asked for, from 1 to 1000.
    pub k: u32,
    /// The day from whose midnight instants count; 2000-01-01 without `--epoch`.
    pub epoch: Epoch,
    /// The target.
    pub to: Target,
    /// Whether approaches of any size are computed, of which only those that are printed must fit.
    pub wide: bool,
}
