//! Reads the texts of points, polygons, spans of time, span sets and boxes exactly, and prints
//! them.
#![tactic(auto)]

mod box_laws;
mod box_printing;
mod boxes;
mod laws;
mod many;
mod noted;
mod polygon_laws;
mod polygon_printing;
mod polygons;
mod printing;
mod single;

pub use box_laws::{box_read_again, one_box};
pub use box_printing::write_stbox;
pub use boxes::read_stbox;
pub use laws::{one_reading, span_read_again, span_set_read_again};
pub use many::read_span_set;
pub use mob_points::{read_point, write_point};
pub use polygon_laws::{one_polygon, polygon_read_again};
pub use polygon_printing::write_polygon;
pub use polygons::read_polygon;
pub use printing::{write_span, write_span_set};
pub use single::read_span;
