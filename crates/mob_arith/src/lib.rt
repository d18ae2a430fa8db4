//! Sums, differences and multiples of numbers, logic, and concatenation of texts, instant by
//! instant. `sql` has the operators of SQL by these.
#![tactic(auto)]

mod logic;
mod operate;
pub mod operation;
pub mod sql;
mod summed;
mod sums;
mod termwise;
mod texts;

pub use logic::{and, not, or};
pub use summed::Summed;
pub use sums::{minus, over_const, plus, times, times_const, times_step};
pub use texts::join_text;
