//! Restriction of moving points to boxes and polygons, and whether they are ever inside a polygon.
//! `sql` has the operators of SQL by these.
#![tactic(auto)]

mod areas;
mod boxes;
mod edges;
mod membership;
mod pieces;
mod polygons;
mod roots;
mod sides;
pub mod sql;
mod timeline;

pub use boxes::{at_box, minus_box};
pub use polygons::{at_polygon, ever_inside, minus_polygon};
