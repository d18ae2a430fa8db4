//! The nearest approach of two moving points: whether they are ever within a distance, and the
//! squared distance of their nearest approach, which includes excluded ends. `sql` has the
//! operators of SQL by these.
//!
//! `ever_within` and `approach_squared` refuse a step of more than 62 bits. `ever_within_wide`,
//! `approach_wide` and `least_exact` give the same results in numbers of any size. With the covers
//! of two moving points, which `covers_of` makes, `ever_within_covered`, `approach_covered` and
//! `least_covered` give them too, and skip whole runs of slices.
#![tactic(auto)]

mod covered;
mod foot;
mod known;
mod laws;
mod leg;
mod nearness;
mod piece;
pub mod sql;
mod testing;
mod wide;

pub use covered::{approach_covered, ever_within_covered, least_covered};
pub use laws::one_approach;
pub use nearness::{approach_squared, ever_within};
pub use wide::{approach_wide, ever_within_wide, least_exact};
