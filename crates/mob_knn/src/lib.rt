//! The trips that come nearest to a point or a moving point, by a best-first search of an R-tree.
//!
//! The search is that of Hjaltason and Samet, "Distance Browsing in Spatial Databases" (TODS 1999).
//! A heap holds nodes, entries and found rows by a lower bound of their approach, and the least is
//! taken first. So the approach of a trip is computed only if its gap is at most the approach of
//! the last answer. `gaps` has the gap of two boxes.
#![tactic(auto)]

mod asked;
mod fault;
pub mod gaps;
mod index;
pub mod laws;
mod scan;
mod search;
mod trips;
mod waiting;

pub use fault::NearFault;
pub use index::index_of;
pub use scan::nearest_exact;
pub use search::nearest;
