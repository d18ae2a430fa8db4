//! Boxes of the plane and of time: a closed rectangle, a span of time, or both.
//!
//! Two boxes overlap if they share at least one dimension and, on every dimension that both have, a
//! value, like the boxes of MobilityDB. No call allocates.
#![tactic(auto)]

mod area;
mod dimension;
pub mod laws;
mod stbox;

pub use area::Area;
pub use stbox::StBox;
