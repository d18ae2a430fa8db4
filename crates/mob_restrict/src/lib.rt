//! Restriction by time and by value: a temporal value at the instants of a set or of a value, or at
//! all others. Also the instants at which it is defined, and the coordinates of a moving point.
//! `sql` has the operators of SQL by these.
#![tactic(auto)]

mod broadly;
mod by_time;
mod by_value;
mod coordinates;
mod defined;
pub mod sql;

pub use broadly::{at_value_wide, minus_value_wide};
pub use by_time::{at_time, minus_time};
pub use by_value::{at_value, minus_value};
pub use coordinates::{get_x, get_y};
pub use defined::get_time;
