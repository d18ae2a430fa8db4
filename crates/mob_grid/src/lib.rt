//! Bands on a line, tiles of space and time by their numbers, and ranges of tiles.
//!
//! It is apart from `mob_tile` so that its two wrong bodies are tried on a small crate.
#![tactic(auto)]

mod bands;
mod tile;

pub use bands::{band_within, edge, floor_over, is_positive};
pub use tile::{Tile, TileRange};
