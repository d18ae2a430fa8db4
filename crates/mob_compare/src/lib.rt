//! The six comparisons on temporal values: at each instant; the instants at which a temporal
//! boolean is true; and, in `ever`, whether a comparison holds at some instant or at every one.
#![tactic(auto)]

mod broadly;
mod courses;
pub mod ever;
pub mod sql;
mod times;

pub use broadly::compare_wide;
pub use courses::compare;
pub use times::when_true;
