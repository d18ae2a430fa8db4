//! The normaliser: turns a list of slices into the normal list with the same value at each instant.

mod joined;
pub mod laws;
mod normaliser;

pub use normaliser::normal;
