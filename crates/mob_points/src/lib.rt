//! Reads the texts of points exactly, and prints points.
#![tactic(auto)]

mod laws;
mod point;
mod printing;

pub use laws::{one_point, point_read_again};
pub use point::{close_bracket_at, point_of, point_value_at, read_point, srid_zero_at};
pub use printing::write_point;
