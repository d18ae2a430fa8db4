//! A grid of tiles of space and time, the tiles that a box reaches, and the parts of a moving point
//! in them.
#![tactic(auto)]

mod cuts;
mod grid;
mod groups;
pub mod laws;
mod pieces;
mod splitting;

pub use grid::Grid;
pub use mob_grid::{Tile, TileRange, is_positive};
pub use splitting::{SplitCause, SplitFault};
