//! The program mobtile as a library: the parts of trips in the tiles of a grid, or the pairs of
//! trips that come within a distance.
#![tactic(auto)]

mod answer;
mod decide;
mod fields;
pub mod laws;
mod parts;
mod reading;
mod settings;
mod top;
mod values;

pub use top::{run_tile, tell_tile};
