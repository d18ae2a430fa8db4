//! Exact points of the plane, and polygons. Their coordinates are fractions.
#![tactic(auto)]

mod edges;
pub mod laws;
mod point;
mod polygons;
mod rectangle;

pub use edges::{EdgeSigns, Tally, is_in, turn, with_edge};
pub use point::Point;
pub use polygons::{Polygon, RingFault};
pub use rectangle::{greater, smaller};
